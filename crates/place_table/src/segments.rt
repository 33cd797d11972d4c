//! The segments that are known, by number.

ghost use Rattle.std.specs.Prelude.{◌≡◌, OnOk, OnErr, IfOk, IfErr, IfSome, ◌⊎◌, None, Some};
ghost use Rattle.std.specs.Option.{option_copied, option_map};
ghost use Rattle.std.specs.FinMap as fin;
ghost use Rattle.journal_model.specs.Layouts.{homes_after_load, homes_after_release};
ghost use Rattle.place_table.specs.Tables.{at_leader, rehomed, load_refused, release_refused};

use crate::placements::Entry;
use crate::refusals::PlaceError;
use row_types::Memory;
use std::alloc::Global;
use std::collections::BTreeMap;
use std::marker::Model;

/// The segments that are known, seen as a finite map.
#[derive(Drop)]
pub(crate) struct Segments {
    by_number: BTreeMap<u64, Entry>,
}

impl Model for Segments {
    ghost use Rattle.std.specs.FinMap as fin;
    ghost use Rattle.std.specs.Ordering.{nat_cmp};
    ghost use Rattle.place_table.specs.Tables.{Placement};
    ghost use Rattle.place_table.specs.Fields.{segments_code};

    ghost Value = { fin.FinMap nat_cmp Placement };

    ghost coded = { segments_code };

    ghost view = { λ s. fin.from_entries s.by_number.entries };
}

impl Segments {
    /// No segments; takes no memory.
    pub(crate) fn new(alloc: Global) -> Segments
        ensures { result ≡ fin.empty }
    {
        Segments {
            by_number: BTreeMap::new(alloc),
        }
    }

    pub(crate) fn find(&self, segment: u64) -> Option<&Entry>
        ensures { option_copied result ≡ fin.get self.now segment }
    {
        self.by_number.get(&segment)
    }

    /// Adds a segment that is not known, at its leader.
    pub(crate) fn add(&mut self, alloc: Global, segment: u64, rows: u32) -> Result<(), Memory>
        requires { fin.get self.old segment ≡ None }
        ensures ok { OnOk result (self.new ≡ fin.insert self.old segment (at_leader rows)) }
        ensures err { OnErr result (self.new ≡ self.old) }
    {
        let entry = Entry::at_leader(alloc, rows)?;
        self.by_number.insert(segment, entry)?;
        Ok(())
    }

    /// Takes a segment away.
    pub(crate) fn remove(&mut self, segment: u64) -> Option<Entry>
        ensures value { result ≡ fin.get self.old segment }
        ensures after { self.new ≡ fin.remove self.old segment }
    {
        self.by_number.remove(&segment)
    }

    /// Loads a segment on a node, and tells its rows.
    pub(crate) fn load(&mut self, segment: u64, node: u32) -> Result<u32, PlaceError>
        ensures ok { OnOk result (self.new ≡ rehomed segment (homes_after_load node) self.old) }
        ensures rows { IfOk result (λ rows. option_map (λ p. p.rows) (fin.get self.old segment) ≡ Some rows) }
        ensures free { OnOk result (load_refused segment node (fin.get self.old segment) ≡ None) }
        ensures err { OnErr result (self.new ≡ self.old) }
        ensures cause { IfErr result (λ e. (e ≡ PlaceError.Memory) ⊎ (load_refused segment node (fin.get self.old segment) ≡ Some e)) }
        ensures refused { IfSome (load_refused segment node (fin.get self.old segment)) (λ e. result ≡ Err e) }
    {
        let Some(entry) = self.by_number.get_mut(&segment) else {
            return Err(PlaceError::Gone { segment });
        };
        entry.load(segment, node)
    }

    /// Releases a segment from a node, and tells its rows.
    pub(crate) fn release(&mut self, segment: u64, node: u32) -> Result<u32, PlaceError>
        ensures ok { OnOk result (self.new ≡ rehomed segment (homes_after_release node) self.old) }
        ensures rows { IfOk result (λ rows. option_map (λ p. p.rows) (fin.get self.old segment) ≡ Some rows) }
        ensures free { OnOk result (release_refused segment node (fin.get self.old segment) ≡ None) }
        ensures err { OnErr result (self.new ≡ self.old) }
        ensures cause { IfErr result (λ e. release_refused segment node (fin.get self.old segment) ≡ Some e) }
    {
        let Some(entry) = self.by_number.get_mut(&segment) else {
            return Err(PlaceError::Gone { segment });
        };
        entry.release(segment, node)
    }
}
