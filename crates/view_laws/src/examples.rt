//! Worked examples of the definitions, so that none is vacuous and none says another thing than it should.

ghost use Rattle.std.specs.Prelude.{◌≡◌, ℕ, pos, true, [], ◌∷◌, Some, None};
ghost use Rattle.std.specs.FinMap as fin;
ghost use Rattle.log_model.specs.declared.queries.Query.{Query};
ghost use Rattle.log_model.specs.declared.queries.Plan.{Plan};
ghost use Rattle.log_model.specs.Logs.{live};
ghost use Rattle.log_model.specs.Scans.{scan};
ghost use Rattle.journal_model.specs.Layouts.{Channel};
ghost use Rattle.journal_model.specs.Views.{view_of};
ghost use Rattle.view_laws.specs.Found.{found_in};
ghost use Rattle.view_laws.specs.Wholes.{AreOfChannels, whole};
ghost use Rattle.view_laws.specs.Examples.{row, small, by_bits, nearest, hit, channel_of, two_logs, sharing_logs, put, removed};

/// Nothing is found in the view of an empty journal, as in an empty log. In a small view a row is found
/// from its put on and until its death, and once, though it stands at two places. This call does nothing.
pub fn small_views()
    ensures empty_view { (channel : Channel) (floor t : ℕ) (plan : Plan) (query : Query) → found_in (view_of channel floor []) t plan query ≡ [] }
    ensures empty_log { (t : ℕ) (plan : Plan) (query : Query) → scan [] t plan query ≡ [] }
    ensures before_put { found_in small 1 by_bits (nearest 3) ≡ [] }
    ensures at_put { found_in small 2 by_bits (nearest 3) ≡ hit 1 1 ∷ [] }
    ensures both { found_in small 4 by_bits (nearest 3) ≡ hit 0 2 ∷ hit 1 1 ∷ [] }
    ensures nearest_one { found_in small 4 by_bits (nearest 1) ≡ hit 0 2 ∷ [] }
    ensures at_death { found_in small 5 by_bits (nearest 3) ≡ hit 0 2 ∷ [] }
{}

/// The whole of two channels' logs: by timestamp, and at one timestamp by channel. Where two channels
/// share a key, a row that one log has can be gone in the whole. This call does nothing.
pub fn two_channels()
    ensures keys { AreOfChannels channel_of two_logs }
    ensures union { whole two_logs ≡ put 2 1 ∷ put 2 2 ∷ put 3 2 ∷ removed 4 1 ∷ [] }
    ensures shared_here { fin.get (live (put 1 1 ∷ []) 2) (pos 1) ≡ Some (row 1 (true ∷ [])) }
    ensures shared_gone { fin.get (live (whole sharing_logs) 2) (pos 1) ≡ None }
{}
