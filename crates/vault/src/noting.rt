//! Writing notes of calls on several objects.

ghost use Rattle.std.specs.Prelude.{◌≡◌, ◌+◌, ◌≤◌, ◌++◌, length, vec_len, vec_capacity};
ghost use Rattle.vault.specs.Notes.{note_of, alike_notes, notes_up_to};
ghost use Rattle.vault.specs.Under.{put_notes, get_notes};

use crate::notes::{KeeperCall, Outcome, VaultNote};
use data_index_node::FlushError;
use query_node::FetchError;

/// Calls of one kind, by one seat and for one line.
#[derive(Clone, Copy)]
struct Calls {
    by: u64,
    line: u32,
    call: KeeperCall,
}

impl Calls {
    fn note(self, object: u64, outcome: Outcome) -> VaultNote
        ensures { result ≡ note_of self.by self.line self.call object outcome }
    {
        VaultNote {
            by: self.by,
            line: self.line,
            call: self.call,
            object,
            outcome,
        }
    }
}

/// Notes that these objects were put, up to the one whose put failed.
pub(crate) fn note_puts(
    journal: &mut Vec<VaultNote>,
    by: u64,
    line: u32,
    objects: &[u64],
    done: Result<(), FlushError>,
)
    requires room { vec_len journal.old + length objects.now ≤ vec_capacity journal.old }
    ensures notes { journal.new.items ≡ journal.old.items ++ put_notes by line objects.now done }
    ensures capacity { vec_capacity journal.new ≡ vec_capacity journal.old }
    ensures most { vec_len journal.new ≤ vec_len journal.old + length objects.now }
{
    let puts = Calls {
        by,
        line,
        call: KeeperCall::Put,
    };
    match done {
        Ok(()) => note_alike(journal, puts, objects, Outcome::Done),
        Err(FlushError::KeepFault { object }) => {
            note_up_to(journal, puts, objects, object, Outcome::Failed);
        }
        Err(FlushError::Memory) => note_alike(journal, puts, objects, Outcome::Memory),
    }
}

/// Notes that these objects were got, up to the one that was not got as it was put.
pub(crate) fn note_gets(
    journal: &mut Vec<VaultNote>,
    by: u64,
    line: u32,
    objects: &[u64],
    done: Result<(), FetchError>,
)
    requires room { vec_len journal.old + length objects.now ≤ vec_capacity journal.old }
    ensures notes { journal.new.items ≡ journal.old.items ++ get_notes by line objects.now done }
    ensures capacity { vec_capacity journal.new ≡ vec_capacity journal.old }
    ensures most { vec_len journal.new ≤ vec_len journal.old + length objects.now }
{
    let gets = Calls {
        by,
        line,
        call: KeeperCall::Get,
    };
    match done {
        Ok(()) => note_alike(journal, gets, objects, Outcome::Done),
        Err(FetchError::KeepFault { object }) => {
            note_up_to(journal, gets, objects, object, Outcome::Failed);
        }
        Err(FetchError::Lost { object }) => {
            note_up_to(journal, gets, objects, object, Outcome::Lost);
        }
        Err(
            FetchError::Damaged {
                object,
                at,
                want,
                got,
            },
        ) => {
            note_up_to(
                journal,
                gets,
                objects,
                object,
                Outcome::Damaged { at, want, got },
            );
        }
        Err(FetchError::Memory) => note_alike(journal, gets, objects, Outcome::Memory),
    }
}

// A call on each of these objects, and all went the same way.
fn note_alike(journal: &mut Vec<VaultNote>, calls: Calls, objects: &[u64], outcome: Outcome)
    requires room { vec_len journal.old + length objects.now ≤ vec_capacity journal.old }
    ensures notes { journal.new.items ≡ journal.old.items ++ alike_notes calls.by calls.line calls.call outcome objects.now }
    ensures capacity { vec_capacity journal.new ≡ vec_capacity journal.old }
    ensures most { vec_len journal.new ≤ vec_len journal.old + length objects.now }
{
    for object in objects {
        journal.push_reserved(calls.note(*object, outcome));
    }
}

// Calls up to the one on the object `last`; those before it were done.
fn note_up_to(
    journal: &mut Vec<VaultNote>,
    calls: Calls,
    objects: &[u64],
    last: u64,
    outcome: Outcome,
)
    requires room { vec_len journal.old + length objects.now ≤ vec_capacity journal.old }
    ensures notes { journal.new.items ≡ journal.old.items ++ notes_up_to calls.by calls.line calls.call last outcome objects.now }
    ensures capacity { vec_capacity journal.new ≡ vec_capacity journal.old }
    ensures most { vec_len journal.new ≤ vec_len journal.old + length objects.now }
{
    for object in objects {
        if *object == last {
            journal.push_reserved(calls.note(*object, outcome));
            return;
        }
        journal.push_reserved(calls.note(*object, Outcome::Done));
    }
}
