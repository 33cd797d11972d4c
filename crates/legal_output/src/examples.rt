//! Small outputs that are legal, or not.

ghost use Rattle.std.specs.Prelude.{Bool, List};
ghost use Rattle.legal_output.specs.Legal.{IsLegal};
ghost use Rattle.legal_output.specs.Examples.{Form, Refusals, Numbers, Writes, Content, Levels, Order, Pending, Meets, BreaksJust, asks_in, one_channel};
ghost use Rattle.legal_output.specs.Examples.{legal_lines, without_a_tick, request_refused, number_twice, first_exists, hit_of_nothing, row_of_nothing};
ghost use Rattle.legal_output.specs.Examples.{weak_guarantee, older_than_guarantee, older_than_known, falls_back, falls_behind_a_meet, pends_though_it_waits};
ghost use Rattle.legal_output.specs.Examples.{pends_at_its_guarantee, seals_no_row, leaves_the_tail_out, too_many_wait, counts_too_many};
ghost use Rattle.legal_output.specs.Examples.{end_leaves_the_tail_out, too_many_wait_at_the_end, end_keeps_dead_rows};

/// An output that is legal, and for each clause some that break it and no other. This call does
/// nothing.
pub fn clauses_are_needed()
    ensures legal { (vector : List Bool) → IsLegal one_channel (asks_in (legal_lines vector)) (legal_lines vector) }
    ensures form { BreaksJust one_channel without_a_tick Form }
    ensures refusals { BreaksJust one_channel request_refused Refusals }
    ensures numbers { BreaksJust one_channel number_twice Numbers }
    ensures writes { (vector : List Bool) → BreaksJust one_channel (first_exists vector) Writes }
    ensures content { (vector : List Bool) → BreaksJust one_channel (hit_of_nothing vector) Content }
    ensures row { (vector : List Bool) → BreaksJust one_channel (row_of_nothing vector) Content }
    ensures levels { (vector : List Bool) → BreaksJust one_channel (weak_guarantee vector) Levels }
    ensures guaranteed { (vector : List Bool) → BreaksJust one_channel (older_than_guarantee vector) Levels }
    ensures known { (vector : List Bool) → BreaksJust one_channel (older_than_known vector) Levels }
    ensures order { BreaksJust one_channel falls_back Order }
    ensures after_meet { BreaksJust one_channel falls_behind_a_meet Order }
    ensures pending { BreaksJust one_channel pends_though_it_waits Pending }
    ensures pending_below { BreaksJust one_channel pends_at_its_guarantee Pending }
    ensures sealed { (vector : List Bool) → BreaksJust one_channel (seals_no_row vector) Meets }
    ensures tail { (vector : List Bool) → BreaksJust one_channel (leaves_the_tail_out vector) Meets }
    ensures waiting { (vector : List Bool) → BreaksJust one_channel (too_many_wait vector) Meets }
    ensures meets { BreaksJust one_channel counts_too_many Meets }
    ensures end_tail { (vector : List Bool) → BreaksJust one_channel (end_leaves_the_tail_out vector) Meets }
    ensures end_waiting { (vector : List Bool) → BreaksJust one_channel (too_many_wait_at_the_end vector) Meets }
    ensures end_merged { BreaksJust one_channel end_keeps_dead_rows Meets }
{}
