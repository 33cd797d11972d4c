//! What pieces count, without a walk over rows.

ghost use Rattle.std.specs.Prelude.{◌≡◌, ◌+◌, ◌^◌, ◌<◌, Bool, length, map};
ghost use Rattle.std.specs.List.{count_by};
ghost use Rattle.channel_pieces.specs.Counting.{is_unmarked, rows_of, counted_with};
ghost use Rattle.channel_pieces.specs.Fields.{homed, counts_after};

use crate::finds::has_home;
use crate::sealed_pieces::SealedPiece;
use journal_model::Home;
use place_table::Places;

/// What the pieces of a channel count.
#[derive(Debug, Clone, Copy, PartialEq, Eq)]
pub struct PieceCounts {
    /// The rows of the tail.
    pub tail: u64,
    /// The segments that wait at the leader.
    pub waiting: u64,
    /// The rows of the segments on nodes.
    pub node_rows: u64,
    /// Those of them that did not die.
    pub node_live: u64,
}

/// The counts of so many rows of a tail and of some segments.
pub(crate) fn count_pieces(tail: u32, pieces: &[SealedPiece], places: &Places) -> PieceCounts
    requires { rows_of (map (homed places.now.segments) pieces.now) < 2 ^ 64 }
    ensures { result ≡ counted_with tail (map (homed places.now.segments) pieces.now) }
{
    let mut counts = PieceCounts {
        tail: u64::from(tail),
        waiting: 0,
        node_rows: 0,
        node_live: 0,
    };
    'pieces: for piece in pieces {
        let waits = has_home(places, piece.number(), Home::Leader);
        counts = with_piece(counts, piece, waits);
    }
    counts
}

/// The counts with those of one segment more, which waits at the leader or stands on nodes.
fn with_piece(counts: PieceCounts, piece: &SealedPiece, waits: bool) -> PieceCounts
    requires waiting { counts.waiting + 1 < 2 ^ 64 }
    requires rows { counts.node_rows + length piece.now.rows < 2 ^ 64 }
    requires live { counts.node_live + count_by is_unmarked piece.now.rows < 2 ^ 64 }
    ensures { result ≡ counts_after waits piece.now.rows counts }
{
    if waits {
        return PieceCounts {
            waiting: counts.waiting + 1,
            ..counts
        };
    }
    PieceCounts {
        node_rows: counts.node_rows + u64::from(piece.len()),
        node_live: counts.node_live + piece.live(),
        ..counts
    }
}
