//! The turns of a handoff, of its channel and of the vault.

ghost use Rattle.std.specs.Prelude.{◌≡◌, ◌<◌, [], ◌∷◌, ◌++◌, List, IfOk};
ghost use Rattle.journal_model.specs.declared.notes.Home.TheVariants.{Leader};
ghost use Rattle.journal_model.specs.declared.notes.Note.{Note};
ghost use Rattle.turn_table.specs.Knowledge.{at_slot};
ghost use Rattle.seat_walks.specs.Walks.{Turned, Took};
ghost use Rattle.shard_core.specs.Counting.{waiting_numbers};
ghost use Rattle.shard_core.specs.Moves.{IsMoveOf, IsLike};
ghost use Rattle.shard_core.specs.Shards.{base_of};
ghost use Rattle.call_model.specs.Calls.{channel_at};
ghost use Rattle.call_model.specs.Walks.{Did};
ghost use Rattle.shard_calls.specs.Fronts.{IsReady, Spends};
ghost use Rattle.vault.specs.declared.notes.VaultNote.{VaultNote};
ghost use Rattle.vault.specs.Names.{names_of};
ghost use Rattle.vault.specs.Stores.{Stores, IfKept};
ghost use Rattle.handoff_calls.specs.Seats.{DidVault, IsOne, IsAtRest, Stays};
ghost use Rattle.handoff_calls.specs.Turns.{IsQuietTurn, BeginsOr, LoadsOrNone};

use journal_model::{Home, MoveError};
use manu_edge::{At, Gate, Keeper, Moments};
use row_types::Memory;
use seg_sealed::Part;
use shard_calls::{Call, Front};
use shard_core::{Moving, Shard};
use std::alloc::Global;
use std::sync::Wait;
use turn_table::{Seat, Turns};
use vault::{Stored, Vault};

/// The numbers of the segments that wait, under one turn of their channel.
pub(crate) fn waiting<R: Wait, M: Moments, G: Gate>(
    alloc: Global,
    call: &Call<'_, R, M, G>,
    front: &Front,
    seat: &mut Seat<Shard>,
    channel: u32,
) -> Result<Vec<u64>, Memory>
    requires seat { IsReady front.now.table 0 seat.old }
    requires channel { channel < front.now.collection.channels }
    ensures did { (t : Turned Note) × Did seat.old (Took t ∷ []) seat.new × IsQuietTurn channel t
        × IfOk result (λ segments. segments.items ≡ waiting_numbers (channel_at front.now.collection channel) t.before) }
    ensures spends { Spends 0 seat.old seat.new }
{
    let turns = front.turns();
    let mut turn = turns.enter(call.rt, seat, channel as usize);
    call.pass(At::AfterEnter);
    let segments = turn.value_mut().waiting(alloc);
    turns.leave(seat, turn);
    segments
}

/// Begins to move a segment from the leader, under one turn of its channel.
pub(crate) fn begin<R: Wait, M: Moments, G: Gate>(
    alloc: Global,
    call: &Call<'_, R, M, G>,
    front: &Front,
    seat: &mut Seat<Shard>,
    channel: u32,
    segment: u64,
) -> Result<Moving, MoveError>
    requires seat { IsReady front.now.table 0 seat.old }
    requires channel { channel < front.now.collection.channels }
    ensures did { (t : Turned Note) × Did seat.old (Took t ∷ []) seat.new × IsQuietTurn channel t × BeginsOr (channel_at front.now.collection channel) segment t.before result }
    // Whoever comes later finds a journal that the move was begun on.
    ensures lent { IfOk result (IsMoveOf (channel_at front.now.collection channel) (at_slot seat.new.seen channel)) }
    ensures spends { Spends 0 seat.old seat.new }
{
    let turns = front.turns();
    let mut turn = turns.enter(call.rt, seat, channel as usize);
    call.pass(At::AfterEnter);
    let moving = turn.value_mut().begin_move(alloc, segment, Home::Leader);
    turns.leave(seat, turn);
    moving
}

/// Loads a segment whose move was begun on the node with the fewest rows, under one turn of its channel,
/// unless it waits no longer.
pub(crate) fn load<R: Wait, M: Moments, G: Gate>(
    alloc: Global,
    call: &Call<'_, R, M, G>,
    front: &Front,
    seat: &mut Seat<Shard>,
    channel: u32,
    moving: Moving,
    part: Part,
) -> Result<(), Memory>
    requires seat { IsReady front.now.table 0 seat.old }
    requires channel { channel < front.now.collection.channels }
    requires lent { IsMoveOf (channel_at front.now.collection channel) (at_slot seat.old.seen channel) moving }
    requires home { moving.home ≡ Leader }
    requires part { IsLike part moving.part }
    ensures did { (t : Turned Note) × Did seat.old (Took t ∷ []) seat.new × (t.slot ≡ channel) × (t.drawn ≡ [])
        × LoadsOrNone (channel_at front.now.collection channel) front.now.collection.nodes seat.old.number call.now.line moving.part.sealed.number result t.before t.notes }
    ensures spends { Spends 0 seat.old seat.new }
{
    call.pass(At::BeforeCommit);
    let by = seat.number();
    let turns = front.turns();
    let mut turn = turns.enter(call.rt, seat, channel as usize);
    call.pass(At::AfterEnter);
    let loaded = load_under(alloc, turn.value_mut(), by, call.line, moving, part);
    turns.leave(seat, turn);
    loaded
}

fn load_under(
    alloc: Global,
    shard: &mut Shard,
    by: u64,
    line: u32,
    moving: Moving,
    part: Part,
) -> Result<(), Memory>
    requires lent { IsMoveOf shard.old.channel shard.old.state.notes moving }
    requires home { moving.home ≡ Leader }
    requires part { IsLike part moving.part }
    ensures base { base_of shard.new ≡ base_of shard.old }
    ensures noted { (notes : List Note) × (shard.new.state.notes ≡ shard.old.state.notes ++ notes)
        × LoadsOrNone shard.old.channel shard.old.collection.nodes by line moving.part.sealed.number result shard.old.state.notes notes }
{
    // Its contract says that the state is sound.
    let _ = shard.floor();
    let node = shard.choose_node();
    match shard.commit_load(alloc, by, line, moving, part, node) {
        Ok(()) => Ok(()),
        Err(back) => match back.why {
            MoveError::Memory => Err(Memory),
            MoveError::Gone { .. } => Ok(()),
            MoveError::Already { .. } => Ok(()),
            MoveError::NotThere { .. } => Ok(()),
            MoveError::LastPlace { .. } => Ok(()),
        },
    }
}

/// Stores a part, under one turn of the vault and outside of all turns of channels.
pub(crate) fn store<K: Keeper, R: Wait>(
    rt: &R,
    alloc: Global,
    vaults: &Turns<Vault<K>>,
    seat: &mut Seat<Vault<K>>,
    line: u32,
    part: &Part,
) -> Result<Stored, Memory>
    requires one { IsOne vaults.now }
    requires seat { IsAtRest vaults.now seat.old }
    ensures did { (u : Turned VaultNote) × DidVault seat.old (Took u ∷ []) seat.new × (u.slot ≡ 0) × (u.drawn ≡ []) × Stores seat.old.number line (names_of part.now) result u.notes }
    ensures part { IfKept result (λ kept. kept ≡ part.now) }
    ensures stays { Stays seat.old seat.new }
{
    let by = seat.number();
    let mut turn = vaults.enter(rt, seat, 0);
    let stored = turn.value_mut().store(alloc, by, line, part);
    vaults.leave(seat, turn);
    stored
}
