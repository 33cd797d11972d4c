//! Looking pieces up by number and by home.

ghost use Rattle.std.specs.Prelude.{◌≡◌, ◌<◌, ◌≤◌, ℕ, length, map, slice_index_or, take, None, IfOk};
ghost use Rattle.std.specs.Option.{IfSome, IfNone};
ghost use Rattle.std.specs.List.{AllByRecursion, list_any};
ghost use Rattle.std.specs.FinMap as fin;
ghost use Rattle.journal_model.specs.Layouts.{is_home};
ghost use Rattle.channel_pieces.specs.Pieces.{numbers_at};
ghost use Rattle.channel_pieces.specs.Fields.{Climb, Piece, numbers_of, rows_at, homed, homes_of};

use crate::sealed_pieces::SealedPiece;
use journal_model::Home;
use place_table::Places;
use row_types::Memory;
use std::alloc::Global;

/// The place of the piece with a number, among pieces with rising numbers.
pub(crate) fn find(pieces: &[SealedPiece], number: u64) -> Option<usize>
    requires { Climb (numbers_of pieces.now) }
    ensures found { IfSome result (λ at. (at < length pieces.now) × ((s : Piece) → (slice_index_or pieces.now at s).number ≡ number)) }
    ensures missing { IfNone result (rows_at pieces.now number ≡ None) }
{
    let at = count_below(pieces, number);
    if at == pieces.len() {
        return None;
    }
    if pieces[at].number() == number {
        return Some(at);
    }
    None
}

/// How many of the pieces have lower numbers.
fn count_below(pieces: &[SealedPiece], number: u64) -> usize
    requires { Climb (numbers_of pieces.now) }
    ensures bound { result ≤ length pieces.now }
    ensures below { AllByRecursion (λ s. s.number < number) (take result pieces.now) }
    ensures least { (s : Piece) → result < length pieces.now → number ≤ (slice_index_or pieces.now result s).number }
{
    pieces.partition_point(|piece| piece.number() < number)
}

/// The numbers of the pieces that have a home.
pub(crate) fn numbers_with(
    alloc: Global,
    pieces: &[SealedPiece],
    places: &Places,
    home: Home,
) -> Result<Vec<u64>, Memory>
    ensures { IfOk result (λ numbers. numbers.items ≡ numbers_at home (map (homed places.now.segments) pieces.now)) }
{
    let mut numbers = Vec::new(alloc);
    'pieces: for piece in pieces {
        if has_home(places, piece.number(), home) {
            numbers.push(piece.number())?;
        }
    }
    Ok(numbers)
}

/// Whether a segment stands somewhere.
pub(crate) fn has_home(places: &Places, number: u64, home: Home) -> bool
    ensures { result ≡ list_any (is_home home) (homes_of (fin.get places.now.segments number)) }
{
    match places.homes(number) {
        Some(homes) => homes.iter().any(|other| is_same(home, *other)),
        None => false,
    }
}

/// Whether two homes are the same.
pub(crate) fn is_same(home: Home, other: Home) -> bool
    ensures { result ≡ is_home home other }
{
    match (home, other) {
        (Home::Leader, Home::Leader) => true,
        (Home::Node(node), Home::Node(there)) => node == there,
        _ => false,
    }
}
