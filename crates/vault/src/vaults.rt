//! The vault.

ghost use Rattle.std.specs.Prelude.{◌≡◌, ℕ, ◌+◌, ◌*◌, ◌^◌, ◌<◌, ◌≤◌, [], ◌++◌, List, length, drop, is_some, IfOk, OnOk};
ghost use Rattle.std.specs.Option.{IfSome};
ghost use Rattle.std.specs.FinMap as fin;
ghost use Rattle.turn_facts.specs.Counts.{total};
ghost use Rattle.manu_edge.specs.Objects.{Stays};
ghost use Rattle.manu_edge.specs.Telling.{TellsAlike};
ghost use Rattle.part_objects.specs.Spellings.{objects_of};
ghost use Rattle.part_objects.specs.Keeping.{Holds};
ghost use Rattle.data_index_node.specs.Flushing.{LeavesOthers};
ghost use Rattle.vault.specs.declared.notes.VaultNote.{VaultNote};
ghost use Rattle.vault.specs.Names.{names_of};
ghost use Rattle.vault.specs.Notes.{faults_as, faults_in};
ghost use Rattle.vault.specs.Vaults.{base_of, IsVault};
ghost use Rattle.vault.specs.Stores.{Stores, faults_of, IfKept};
ghost use Rattle.vault.specs.Under.{put_notes, get_notes, ended, NamesPut, NamesGot, StoreAnswers};

use crate::bases::VaultBase;
use crate::notes::{Outcome, VaultNote};
use crate::noting::{note_gets, note_puts};
use crate::storing::{Stored, names_of};
use data_index_node::{FlushError, flush};
use manu_edge::Keeper;
use query_node::{FetchError, fetch};
use row_types::Memory;
use seg_sealed::Part;
use std::alloc::Global;
use std::marker::Model;
use std::snapshot::Snapshot;
use turn_table::Journalled;

/// The most notes that a journal has.
const MOST_NOTES: usize = (1 << 56) - 1;

/// A keeper, and the journal of the calls that it was given.
#[derive(Drop)]
pub struct Vault<K: Keeper> {
    keeper: K,
    journal: Vec<VaultNote>,
    // How many notes there were at the last meet.
    met: u64,
    start: Snapshot<K>,
}

impl<K: Keeper> Model for Vault<K> {
    ghost use Rattle.std.specs.Prelude.{is_some, vec_len, vec_capacity};
    ghost use Rattle.vault.specs.Vaults.{VaultView, IsVault, base_of, room_of, vault_of};
    ghost use Rattle.vault.specs.Codes.{vault_code};

    ghost Value = { VaultView };

    ghost coded = { vault_code };

    ghost view = { λ v. vault_of v.journal.items (base_of (K.faults v.start.value) (is_some (K.kept v.start.value)) v.met)
        (K.kept v.keeper) (K.faults v.keeper) (room_of (vec_len v.journal) (vec_capacity v.journal)) };

    ghost invariant = { λ v. IsVault (vault_of v.journal.items (base_of (K.faults v.start.value) (is_some (K.kept v.start.value)) v.met)
        (K.kept v.keeper) (K.faults v.keeper) (room_of (vec_len v.journal) (vec_capacity v.journal))) };
}

impl<K: Keeper> Vault<K> {
    /// A vault with no note; takes no memory.
    pub fn new(alloc: Global, keeper: K) -> Vault<K>
        ensures notes { result.notes ≡ [] }
        ensures base { result.base ≡ base_of (K.faults keeper) (is_some (K.kept keeper)) 0 }
        ensures kept { result.kept ≡ K.kept keeper }
        ensures faults { result.faults ≡ K.faults keeper }
    {
        let start = Snapshot::of(&keeper);
        Vault {
            keeper,
            journal: Vec::new(alloc),
            met: 0,
            start,
        }
    }

    /// The keeper, after all its calls.
    pub fn into_keeper(self) -> K
        ensures kept { K.kept result ≡ self.kept }
        ensures faults { K.faults result ≡ self.faults }
    {
        let Vault {
            keeper,
            journal: _,
            met: _,
            start: _,
        } = self;
        keeper
    }

    /// The notes, in the order in which the calls were made.
    pub fn journal(&self) -> &[VaultNote]
        ensures notes { result.now ≡ self.now.notes }
        ensures vault { IsVault self.now }
    {
        self.journal.as_slice()
    }

    /// How many notes since the last meet are a failure, a loss or a damage.
    pub fn failed(&self) -> u64
        ensures { result ≡ total faults_in (drop self.now.base.met self.now.notes) }
    {
        let met = self.met as usize;
        let since = &self.journal.as_slice()[met..];
        let mut failed = 0;
        for note in since {
            failed = with_fault(failed, note.outcome);
        }
        failed
    }

    /// Marks a meet: what was noted until now no longer counts as failed.
    pub fn met(&mut self)
        ensures { self.new ≡ record self.old { base = record self.old.base { met = length self.old.notes } } }
    {
        self.met = self.journal.len() as u64;
    }

    /// Puts the objects of a part, gets them back and compares them, and notes each call. The part that it gives is
    /// made of the bytes that were got. It makes room for its notes before the first call.
    pub fn store(
        &mut self,
        alloc: Global,
        by: u64,
        line: u32,
        part: &Part,
    ) -> Result<Stored, Memory>
        // The notes are those of its answer.
        ensures noted { (notes : List VaultNote) × (self.new.notes ≡ self.old.notes ++ notes) × Stores by line (names_of part.now) result notes }
        // It answers that the part is not kept exactly where a note is a failure, a loss or a damage, and there is one such note.
        ensures faults { total faults_in self.new.notes ≡ total faults_in self.old.notes + faults_of result }
        ensures part { IfKept result (λ kept. kept ≡ part.now) }
        // Where it is kept, and where that is told, each object stands under its name as it is spelled.
        ensures held { IfKept result (λ _. IfSome self.new.kept (λ kept. Holds (fin.get kept) (objects_of part.now))) }
        // All other names are as before, whatever the answer.
        ensures others { LeavesOthers (objects_of part.now) self.old.kept self.new.kept }
        ensures base { self.new.base ≡ self.old.base }
        ensures telling { TellsAlike self.old.kept self.new.kept }
        // The count of faults never falls.
        ensures counted { self.old.faults ≤ self.new.faults }
    {
        let names = names_of(alloc, part)?;
        self.reserve(2 * names.len())?;
        match self.put_all(alloc, by, line, part, names.as_slice()) {
            Ok(()) => kept_or_failed(self.get_all(alloc, by, line, part, names.as_slice())),
            Err(FlushError::KeepFault { .. }) => Ok(Stored::Failed),
            Err(FlushError::Memory) => Err(Memory),
        }
    }

    fn reserve(&mut self, more: usize) -> Result<(), Memory>
        requires few { more ≤ 6 }
        ensures room { OnOk result (more ≤ self.new.room) }
        ensures notes { self.new.notes ≡ self.old.notes }
        ensures base { self.new.base ≡ self.old.base }
        ensures kept { self.new.kept ≡ self.old.kept }
        ensures faults { self.new.faults ≡ self.old.faults }
    {
        if self.journal.len() > MOST_NOTES - more {
            return Err(Memory);
        }
        self.journal.reserve(more)?;
        Ok(())
    }

    fn put_all(
        &mut self,
        alloc: Global,
        by: u64,
        line: u32,
        part: &Part,
        names: &[u64],
    ) -> Result<(), FlushError>
        requires names { names.now ≡ names_of part.now }
        requires room { length names.now ≤ self.old.room }
        ensures notes { self.new.notes ≡ self.old.notes ++ put_notes by line names.now result }
        ensures named { NamesPut names.now result }
        ensures held { OnOk result (IfSome self.new.kept (λ kept. Holds (fin.get kept) (objects_of part.now))) }
        ensures others { LeavesOthers (objects_of part.now) self.old.kept self.new.kept }
        ensures telling { TellsAlike self.old.kept self.new.kept }
        ensures base { self.new.base ≡ self.old.base }
        ensures faults { self.old.faults ≤ self.new.faults }
        ensures room { self.old.room ≤ self.new.room + length names.now }
    {
        let done = flush(alloc, part, &mut self.keeper);
        note_puts(&mut self.journal, by, line, names, done);
        done
    }

    fn get_all(
        &mut self,
        alloc: Global,
        by: u64,
        line: u32,
        part: &Part,
        names: &[u64],
    ) -> Result<Part, FetchError>
        requires names { names.now ≡ names_of part.now }
        requires room { length names.now ≤ self.old.room }
        requires held { IfSome self.old.kept (λ kept. Holds (fin.get kept) (objects_of part.now)) }
        ensures notes { self.new.notes ≡ self.old.notes ++ get_notes by line names.now (ended result) }
        ensures named { NamesGot names.now result }
        ensures part { IfOk result (λ got. got ≡ part.now) }
        ensures kept { Stays self.old.kept self.new.kept }
        ensures telling { TellsAlike self.old.kept self.new.kept }
        ensures base { self.new.base ≡ self.old.base }
        ensures faults { self.old.faults ≤ self.new.faults }
    {
        match fetch(alloc, part, &mut self.keeper) {
            Ok(got) => {
                note_gets(&mut self.journal, by, line, names, Ok(()));
                Ok(got)
            }
            Err(error) => {
                note_gets(&mut self.journal, by, line, names, Err(error));
                Err(error)
            }
        }
    }
}

fn kept_or_failed(fetched: Result<Part, FetchError>) -> Result<Stored, Memory>
    ensures { StoreAnswers fetched result }
{
    match fetched {
        Ok(part) => Ok(Stored::Kept(part)),
        Err(FetchError::KeepFault { .. }) => Ok(Stored::Failed),
        Err(FetchError::Lost { .. }) => Ok(Stored::Failed),
        Err(FetchError::Damaged { .. }) => Ok(Stored::Failed),
        Err(FetchError::Memory) => Err(Memory),
    }
}

// One more where a call was a failure, a loss or a damage.
fn with_fault(faults: u64, outcome: Outcome) -> u64
    requires { faults < 2 ^ 63 }
    ensures { result ≡ faults + faults_as outcome }
{
    match outcome {
        Outcome::Failed => faults + 1,
        Outcome::Lost => faults + 1,
        Outcome::Damaged { .. } => faults + 1,
        Outcome::Done => faults,
        Outcome::Memory => faults,
    }
}

impl<K: Keeper> Journalled for Vault<K> {
    type Note = VaultNote;

    type Base = VaultBase;

    ghost use Rattle.vault.specs.Notes.{by_of, time_of};

    ghost journal = { λ v. v.notes };

    ghost base = { λ v. v.base };

    ghost number_of = { by_of };

    ghost time_of = { time_of };

    fn notes(&self) -> u64 {
        self.journal.len() as u64
    }
}
