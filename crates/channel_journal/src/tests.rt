//! Journals at work.

ghost use Rattle.std.specs.Prelude.{◌≡◌, ◌+◌, ◌≤◌, ◌^◌, length, IfOk, OnOk};
ghost use Rattle.journal_model.specs.Journals.{AreBelow};

use crate::{Journal, LookOutcome, PutOutcome, RemoveOutcome, SealOutcome};
use hybrid_time::Timestamp;
use journal_model::{Kind, PutKind};
use log_model::SharedRow;
use row_types::{BitVector, Key, List, Memory, Row};
use std::alloc::Global;
use std::sync::Arc;
use std::test::Fail;

/// A call of a journal; a look has its guarantee.
#[derive(Debug, Clone, Copy)]
enum Step {
    Insert(i64),
    Upsert(i64),
    Remove(i64),
    Tick,
    Seal,
    Look(u64),
}

/// What the call told.
#[derive(Debug, Clone, Copy, PartialEq, Eq)]
enum Told {
    Put(PutOutcome),
    Removed(RemoveOutcome),
    Ticked,
    Sealed(SealOutcome),
    Looked(LookOutcome),
}

// The row of a key.
fn row_of(alloc: Global, key: i64) -> Result<SharedRow, Memory>
    ensures { IfOk result (λ row. row.key.0 ≡ key) }
{
    let Ok(vector) = BitVector::from_digits(alloc, "01", 8) else {
        return Err(Memory);
    };
    let row = Row {
        key: Key(key),
        vector,
        fields: List::empty(alloc),
    };
    match Arc::new(alloc, row) {
        Ok(row) => Ok(SharedRow::of(row)),
        Err(_) => Err(Memory),
    }
}

fn put_row(journal: &mut Journal, ts: u64, how: PutKind, row: SharedRow) -> Told
    requires room { 1 ≤ journal.old.spare }
    requires dated { 1 ≤ ts }
    requires below { AreBelow ts journal.old.state.notes }
    ensures { AreBelow (ts + 1) journal.new.state.notes }
{
    Told::Put(journal.put(1, 7, Timestamp(ts), how, row))
}

fn remove_row(journal: &mut Journal, ts: u64, key: Key) -> Told
    requires room { 1 ≤ journal.old.spare }
    requires dated { 1 ≤ ts }
    requires below { AreBelow ts journal.old.state.notes }
    ensures { AreBelow (ts + 1) journal.new.state.notes }
{
    Told::Removed(journal.remove_key(1, 7, Timestamp(ts), key))
}

fn tick(journal: &mut Journal, ts: u64) -> Told
    requires room { 1 ≤ journal.old.spare }
    requires below { AreBelow ts journal.old.state.notes }
    ensures { AreBelow (ts + 1) journal.new.state.notes }
{
    journal.tick(1, 7, Timestamp(ts));
    Told::Ticked
}

fn seal(journal: &mut Journal, ts: u64) -> Told
    requires room { 1 ≤ journal.old.spare }
    requires below { AreBelow ts journal.old.state.notes }
    ensures { AreBelow (ts + 1) journal.new.state.notes }
{
    Told::Sealed(journal.seal(1, 7, Timestamp(ts)))
}

fn look(journal: &mut Journal, _ts: u64, guarantee: u64) -> Told
    requires room { 1 ≤ journal.old.spare }
    requires below { AreBelow _ts journal.old.state.notes }
    ensures { AreBelow (_ts + 1) journal.new.state.notes }
{
    Told::Looked(journal.note_look(1, 7, Timestamp(guarantee)))
}

// Takes a step at a timestamp above all others.
fn take(journal: &mut Journal, alloc: Global, ts: u64, step: Step) -> Result<Told, Memory>
    requires dated { 1 ≤ ts }
    requires below { AreBelow ts journal.old.state.notes }
    ensures { OnOk result (AreBelow (ts + 1) journal.new.state.notes) }
{
    journal.reserve(alloc, 1)?;
    let told = match step {
        Step::Insert(key) => put_row(journal, ts, PutKind::Insert, row_of(alloc, key)?),
        Step::Upsert(key) => put_row(journal, ts, PutKind::Upsert, row_of(alloc, key)?),
        Step::Remove(key) => remove_row(journal, ts, Key(key)),
        Step::Tick => tick(journal, ts),
        Step::Seal => seal(journal, ts),
        Step::Look(guarantee) => look(journal, ts, guarantee),
    };
    Ok(told)
}

// Takes steps at the timestamps 1, 2 and so on; how many of them told what is expected.
fn told_as(journal: &mut Journal, alloc: Global, table: &[(Step, Told)]) -> Result<usize, Memory>
    requires { AreBelow 1 journal.old.state.notes }
    ensures { OnOk result (AreBelow (length table.now + 1) journal.new.state.notes) }
{
    let mut count = 0usize;
    'steps: for i in 0..table.len() {
        let (step, expected) = table[i];
        let told = take(journal, alloc, i as u64 + 1, step)?;
        if told == expected {
            count = count.wrapping_add(1);
        }
    }
    Ok(count)
}

fn added(ended: Option<u64>, sealed: Option<u64>) -> Told {
    Told::Put(PutOutcome::Added { ended, sealed })
}

fn removed(ended: Option<u64>) -> Told {
    Told::Removed(RemoveOutcome { ended })
}

fn sealed(number: u64, rows: u32) -> Told {
    Told::Sealed(SealOutcome::Segment { number, rows })
}

fn pending(tick: u64) -> Told {
    Told::Looked(LookOutcome::Pending {
        tick: Timestamp(tick),
    })
}

const EXISTS: Told = Told::Put(PutOutcome::Exists);

const EMPTY: Told = Told::Sealed(SealOutcome::Empty);

const SERVED: Told = Told::Looked(LookOutcome::Served);

// Channel 5, sealed at three rows: the i-th step has the position i and the timestamp i + 1.
fn worked_steps() -> [(Step, Told); 40] {
    [
        (Step::Insert(1), added(None, None)),
        (Step::Insert(1), EXISTS),
        (Step::Upsert(1), added(Some(0), None)),
        (Step::Upsert(2), added(None, Some(5))),
        (Step::Seal, EMPTY),
        (Step::Look(0), SERVED),
        (Step::Look(1), pending(0)),
        (Step::Tick, Told::Ticked),
        (Step::Look(8), SERVED),
        (Step::Look(9), pending(8)),
        (Step::Remove(1), removed(Some(2))),
        (Step::Remove(1), removed(None)),
        (Step::Remove(9), removed(None)),
        (Step::Insert(1), added(None, None)),
        (Step::Seal, sealed(21, 1)),
        (Step::Seal, EMPTY),
        (Step::Upsert(1), added(Some(13), None)),
        (Step::Insert(2), EXISTS),
        (Step::Remove(2), removed(Some(3))),
        (Step::Insert(2), added(None, None)),
        (Step::Remove(2), removed(Some(19))),
        (Step::Upsert(2), added(None, Some(37))),
        (Step::Upsert(3), added(None, None)),
        (Step::Upsert(4), added(None, None)),
        (Step::Seal, sealed(53, 2)),
        (Step::Tick, Told::Ticked),
        (Step::Tick, Told::Ticked),
        (Step::Look(27), SERVED),
        (Step::Look(28), pending(27)),
        (Step::Insert(-7), added(None, None)),
        (Step::Insert(-7), EXISTS),
        (Step::Upsert(-7), added(Some(29), None)),
        (Step::Upsert(-7), added(Some(31), Some(69))),
        (Step::Remove(-7), removed(Some(32))),
        (Step::Remove(-7), removed(None)),
        (Step::Insert(5), added(None, None)),
        (Step::Remove(3), removed(Some(22))),
        (Step::Remove(4), removed(Some(23))),
        (Step::Seal, sealed(85, 1)),
        (Step::Look(0), SERVED),
    ]
}

#[test]
fn each_step_tells_what_it_did(rt: HostRuntime) -> Result<(), Fail> {
    let alloc = rt.alloc();
    let mut journal = Journal::new(alloc, 5, 3)?;
    let table = worked_steps();
    assert_eq!(rt; told_as(&mut journal, alloc, &table)?, 40);
    assert_eq!(rt; journal.len(), 40);
    assert_eq!(rt; journal.live(), 3);
    assert_eq!(rt; journal.taken(), 6);
    assert_eq!(rt; journal.next_number(), 101);
    assert_eq!(rt; journal.tail_rows(), 0);
    assert_eq!(rt; journal.tick_now(), Timestamp(27));
    assert_eq!(rt; journal.spare(), 0);
    Ok(())
}

// Raises the floor to the tick.
fn raise(journal: &mut Journal)
    ensures { journal.new.state.notes ≡ journal.old.state.notes }
{
    // A state is sound, so its floor is at most its tick.
    let _notes = journal.len();
    let tick = journal.tick_now();
    journal.set_floor(tick);
}

// Appends the note that begins a merge.
fn begin(journal: &mut Journal)
    requires { 1 ≤ journal.old.spare }
{
    let segment = journal.next_number();
    let floor = journal.floor();
    journal.append(2, 0, Kind::Number { segment, floor });
}

// The key of a put.
fn key_at(journal: &Journal, position: u64) -> Option<i64> {
    if position >= journal.len() {
        return None;
    }
    match &journal.note(position).kind {
        Kind::Put { row, .. } => Some(row.get().key.0),
        _ => None,
    }
}

#[test]
fn a_number_is_taken_at_the_floor(rt: HostRuntime) -> Result<(), Fail> {
    let alloc = rt.alloc();
    let mut journal = Journal::new(alloc, 15, 65_536)?;
    let steps = [
        (Step::Insert(4), added(None, None)),
        (Step::Tick, Told::Ticked),
    ];
    assert_eq!(rt; told_as(&mut journal, alloc, &steps)?, 2);
    raise(&mut journal);
    assert_eq!(rt; journal.floor(), Timestamp(2));
    journal.reserve(alloc, 600)?;
    begin(&mut journal);
    assert_eq!(rt; journal.spare(), 599);
    assert_eq!(rt; journal.next_number(), 31);
    assert_eq!(rt; journal.tail_rows(), 1);
    assert_eq!(rt; key_at(&journal, 0), Some(4));
    assert_eq!(rt; key_at(&journal, 2), None);
    assert_eq!(rt; (journal.channel(), journal.seal_rows()), (15, 65_536));
    Ok(())
}

#[test]
fn notes_stand_at_their_positions_over_many_chunks(rt: HostRuntime) -> Result<(), Fail> {
    let alloc = rt.alloc();
    let mut journal = Journal::new(alloc, 0, 100)?;
    let mut puts = [(Step::Upsert(0), Told::Ticked); 700];
    for i in 0..700usize {
        puts[i].0 = Step::Upsert(i as i64);
    }
    assert_eq!(rt; told_as(&mut journal, alloc, &puts)?, 0);
    for i in 0..700u64 {
        assert_eq!(rt; key_at(&journal, i), Some(i as i64));
    }
    assert_eq!(rt;
        (journal.live(), journal.taken(), journal.tail_rows()),
        (700, 7, 0)
    );
    Ok(())
}
