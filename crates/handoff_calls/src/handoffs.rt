//! Handoffs.

ghost use Rattle.std.specs.Prelude.{◌≡◌, ◌≢◌, ◌+◌, ◌^◌, ◌<◌, false, List, map, IfOk};
ghost use Rattle.turn_facts.specs.Counts.{total};
ghost use Rattle.journal_model.specs.declared.notes.Note.{Note};
ghost use Rattle.journal_model.specs.declared.refusals.MoveError.TheVariants as error;
ghost use Rattle.seat_walks.specs.Walks.{Turned, Took};
ghost use Rattle.call_model.specs.Calls.{channel_at};
ghost use Rattle.call_model.specs.Walks.{Did};
ghost use Rattle.shard_calls.specs.Fronts.{IsReady, Spends};
ghost use Rattle.vault.specs.declared.notes.VaultNote.{VaultNote};
ghost use Rattle.vault.specs.Notes.{faults_in};
ghost use Rattle.handoff_calls.specs.Seats.{DidVault, IsOne, IsAtRest, Stays};
ghost use Rattle.handoff_calls.specs.Handoffs.{Hand, IsHand, AreHands, IsHandoff, front_in, vault_in, left_in, as_left, all_front, all_vault, notes_of};
ghost use Rattle.handoff_calls.specs.Facts.{AreOfLine};

use crate::seats::Seats;
use crate::turns::{begin, load, store, waiting};
use journal_model::MoveError;
use manu_edge::{Gate, Keeper, Moments};
use row_types::Memory;
use shard_calls::{Call, Front};
use std::alloc::Global;
use std::sync::Wait;
use turn_table::Turns;
use vault::{Stored, Vault};

/// How many segments a handoff left, and how many failures, losses and damages there were.
#[derive(Clone, Copy, Debug, PartialEq, Eq)]
pub struct Left {
    pub segments: u64,
    pub failed: u64,
}

/// Hands off each segment of a channel that waits, in rising order: begins its move in a turn of the
/// channel, stores its part in a turn of the vault, and loads it in a turn of the channel on the node
/// with the fewest rows. A segment that could not be stored is left where it is. One that waits no
/// longer counts in nothing. On `Memory` what was loaded stays so, and every turn is given back.
pub fn handoff<K: Keeper, R: Wait, M: Moments, G: Gate>(
    alloc: Global,
    call: &Call<'_, R, M, G>,
    front: &Front,
    vaults: &Turns<Vault<K>>,
    seats: &mut Seats<Vault<K>>,
    channel: u32,
) -> Result<Left, Memory>
    requires front { IsReady front.now.table 0 seats.old.front }
    requires one { IsOne vaults.now }
    requires vault { IsAtRest vaults.now seats.old.vault }
    requires channel { channel < front.now.collection.channels }
    // The seats went on by turns; whatever it answers, the vault's notes are of its line.
    ensures did { (ts : List (Turned Note)) × (us : List (Turned VaultNote))
        × Did seats.old.front (map Took ts) seats.new.front × DidVault seats.old.vault (map Took us) seats.new.vault × AreOfLine call.now.line (notes_of us)
        × IfOk result (λ left. (left.segments ≡ total faults_in (notes_of us)) × (left.failed ≡ total faults_in (notes_of us))
        × IsHandoff (channel_at front.now.collection channel) front.now.collection.nodes seats.old.front.number seats.old.vault.number call.now.line left.segments ts us) }
    ensures front { Spends 0 seats.old.front seats.new.front }
    ensures vault { Stays seats.old.vault seats.new.vault }
{
    let segments = waiting(alloc, call, front, &mut seats.front, channel)?;
    let left = hand_all(
        alloc,
        call,
        front,
        vaults,
        seats,
        channel,
        segments.as_slice(),
    )?;
    Ok(Left {
        segments: left,
        failed: left,
    })
}

// Hands off these segments, and tells how many were left.
fn hand_all<K: Keeper, R: Wait, M: Moments, G: Gate>(
    alloc: Global,
    call: &Call<'_, R, M, G>,
    front: &Front,
    vaults: &Turns<Vault<K>>,
    seats: &mut Seats<Vault<K>>,
    channel: u32,
    segments: &[u64],
) -> Result<u64, Memory>
    requires front { IsReady front.now.table 0 seats.old.front }
    requires one { IsOne vaults.now }
    requires vault { IsAtRest vaults.now seats.old.vault }
    requires channel { channel < front.now.collection.channels }
    ensures did { (ts : List (Turned Note)) × (us : List (Turned VaultNote))
        × Did seats.old.front (map Took ts) seats.new.front × DidVault seats.old.vault (map Took us) seats.new.vault × AreOfLine call.now.line (notes_of us)
        × IfOk result (λ left. (hands : List Hand) × (ts ≡ all_front hands) × (us ≡ all_vault hands) × (left ≡ total left_in hands)
        × AreHands (channel_at front.now.collection channel) front.now.collection.nodes seats.old.front.number seats.old.vault.number call.now.line segments.now hands) }
    ensures front { Spends 0 seats.old.front seats.new.front }
    ensures vault { Stays seats.old.vault seats.new.vault }
{
    let mut left = 0;
    'segments: for k in 0..segments.len() {
        let more = hand(alloc, call, front, vaults, seats, channel, segments[k])?;
        left = with_left(left, more);
    }
    Ok(left)
}

fn with_left(left: u64, more: bool) -> u64
    requires { left < 2 ^ 63 }
    ensures { result ≡ left + as_left more }
{
    if more { left + 1 } else { left }
}

// Hands off a segment, and tells whether it was left because it could not be stored.
fn hand<K: Keeper, R: Wait, M: Moments, G: Gate>(
    alloc: Global,
    call: &Call<'_, R, M, G>,
    front: &Front,
    vaults: &Turns<Vault<K>>,
    seats: &mut Seats<Vault<K>>,
    channel: u32,
    segment: u64,
) -> Result<bool, Memory>
    requires front { IsReady front.now.table 0 seats.old.front }
    requires one { IsOne vaults.now }
    requires vault { IsAtRest vaults.now seats.old.vault }
    requires channel { channel < front.now.collection.channels }
    ensures did { (ts : List (Turned Note)) × (us : List (Turned VaultNote))
        × Did seats.old.front (map Took ts) seats.new.front × DidVault seats.old.vault (map Took us) seats.new.vault × AreOfLine call.now.line (notes_of us)
        × IfOk result (λ left. (hand : Hand) × (ts ≡ front_in hand) × (us ≡ vault_in hand) × (as_left left ≡ left_in hand)
        × IsHand (channel_at front.now.collection channel) front.now.collection.nodes seats.old.front.number seats.old.vault.number call.now.line segment hand) }
    ensures front { Spends 0 seats.old.front seats.new.front }
    ensures vault { Stays seats.old.vault seats.new.vault }
{
    let moving = match begin(alloc, call, front, &mut seats.front, channel, segment) {
        Ok(moving) => moving,
        Err(why) => return not_begun(why),
    };
    match store(
        call.rt,
        alloc,
        vaults,
        &mut seats.vault,
        call.line,
        moving.part(),
    )? {
        Stored::Kept(part) => {
            load(alloc, call, front, &mut seats.front, channel, moving, part)?;
            Ok(false)
        }
        Stored::Failed => Ok(true),
    }
}

// What a hand answers whose move was refused: nothing is left, since the segment waits no longer.
fn not_begun(why: MoveError) -> Result<bool, Memory>
    ensures { IfOk result (λ left. (left ≡ false) × (why ≢ error.Memory)) }
{
    match why {
        MoveError::Memory => Err(Memory),
        MoveError::Gone { .. } => Ok(false),
        MoveError::Already { .. } => Ok(false),
        MoveError::NotThere { .. } => Ok(false),
        MoveError::LastPlace { .. } => Ok(false),
    }
}
