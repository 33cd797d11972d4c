//! How many rows of each segment a floor leaves.

ghost use Rattle.std.specs.Prelude.{◌≡◌, nat_le, length, map, IfOk};
ghost use Rattle.std.specs.List.{count_by};
ghost use Rattle.channel_pieces.specs.Fields.{homed, kept_in_piece};
ghost use Rattle.channel_pieces.specs.Keeping.{kept_on_nodes};

use crate::finds::has_home;
use crate::sealed_pieces::SealedPiece;
use hybrid_time::Timestamp;
use journal_model::Home;
use place_table::Places;
use row_types::Memory;
use std::alloc::Global;

/// A segment: how many rows it has, and how many of them are not dead at or before a floor.
#[derive(Debug, Clone, Copy, PartialEq, Eq)]
pub struct KeptRows {
    pub number: u64,
    pub rows: u64,
    pub kept: u64,
}

/// The pieces on nodes with their rows and those that a floor leaves.
pub(crate) fn kept_on_nodes(
    alloc: Global,
    pieces: &[SealedPiece],
    places: &Places,
    floor: Timestamp,
) -> Result<Vec<KeptRows>, Memory>
    ensures { IfOk result (λ kept. kept.items ≡ kept_on_nodes floor.0 (map (homed places.now.segments) pieces.now)) }
{
    let mut kept = Vec::new(alloc);
    'pieces: for piece in pieces {
        if !has_home(places, piece.number(), Home::Leader) {
            kept.push(kept_in(alloc, piece, floor)?)?;
        }
    }
    Ok(kept)
}

/// A piece with its rows and those that a floor leaves.
fn kept_in(alloc: Global, piece: &SealedPiece, floor: Timestamp) -> Result<KeptRows, Memory>
    ensures { IfOk result (λ kept. kept ≡ kept_in_piece floor.0 piece.now) }
{
    let kept = piece.kept(alloc, floor)?;
    Ok(KeptRows {
        number: piece.number(),
        rows: u64::from(piece.len()),
        kept,
    })
}

/// How many of some marks are at or before a floor.
pub(crate) fn count_dead(marks: &[(u32, Timestamp)], floor: Timestamp) -> usize
    ensures { result ≡ count_by (λ mark. nat_le mark.1.0 floor.0) marks.now }
{
    marks.iter().filter(|mark| mark.1.0 <= floor.0).count()
}
