//! The homes of one segment.

ghost use Rattle.std.specs.Prelude.{◌≡◌, true, OnOk, OnErr, IfOk, IfErr, IfSome, IfNone, ◌⊎◌, None, Some};
ghost use Rattle.std.specs.List.{list_any};
ghost use Rattle.journal_model.specs.Layouts.{is_home, homes_after_load, homes_after_release};
ghost use Rattle.place_table.specs.Tables.{at_leader, is_on, is_elsewhere, with_homes, load_refused, release_refused, answer_of};

use crate::refusals::PlaceError;
use journal_model::Home;
use row_types::Memory;
use std::alloc::Global;
use std::marker::Model;

/// How many rows a segment has, and where it stands.
#[derive(Debug, Drop)]
pub(crate) struct Entry {
    rows: u32,
    homes: Vec<Home>,
}

impl Model for Entry {
    ghost use Rattle.place_table.specs.Tables.{Placement};
    ghost use Rattle.place_table.specs.Fields.{placement_code};

    ghost Value = { Placement };

    ghost coded = { placement_code };

    ghost view = { λ e. record { rows = e.rows; homes = e.homes.items } };
}

impl Entry {
    /// A segment that waits at its leader.
    pub(crate) fn at_leader(alloc: Global, rows: u32) -> Result<Entry, Memory>
        ensures { IfOk result (λ entry. entry ≡ at_leader rows) }
    {
        let mut homes = Vec::new(alloc);
        homes.push(Home::Leader)?;
        Ok(Entry { rows, homes })
    }

    pub(crate) fn rows(&self) -> u32
        ensures { result ≡ self.now.rows }
    {
        self.rows
    }

    pub(crate) fn homes(&self) -> &[Home]
        ensures { result.now ≡ self.now.homes }
    {
        self.homes.as_slice()
    }

    pub(crate) fn is_on(&self, node: u32) -> bool
        ensures { result ≡ is_on node self.now }
    {
        self.homes.iter().any(|home| is_node(home, node))
    }

    fn is_elsewhere(&self, node: u32) -> bool
        ensures { result ≡ is_elsewhere node self.now }
    {
        self.homes.iter().any(|home| !is_node(home, node))
    }

    /// Adds a node to the homes, and takes the leader's place away.
    fn add(&mut self, node: u32) -> Result<(), Memory>
        ensures ok { OnOk result (self.new ≡ with_homes (homes_after_load node) self.old) }
        ensures err { OnErr result (self.new ≡ self.old) }
    {
        self.homes.push(Home::Node(node))?;
        self.homes.retain(|home| !is_leader(home));
        Ok(())
    }

    fn remove(&mut self, node: u32)
        ensures { self.new ≡ with_homes (homes_after_release node) self.old }
    {
        self.homes.retain(|home| !is_node(home, node));
    }

    /// Loads the segment, which has this number, on a node.
    pub(crate) fn load(&mut self, segment: u64, node: u32) -> Result<u32, PlaceError>
        ensures ok { OnOk result (self.new ≡ with_homes (homes_after_load node) self.old) }
        ensures rows { IfOk result (λ rows. rows ≡ self.old.rows) }
        ensures free { OnOk result (load_refused segment node (Some self.old) ≡ None) }
        ensures err { OnErr result (self.new ≡ self.old) }
        ensures cause { IfErr result (λ e. (e ≡ PlaceError.Memory) ⊎ (load_refused segment node (Some self.old) ≡ Some e)) }
        ensures refused { IfSome (load_refused segment node (Some self.old)) (λ e. result ≡ Err e) }
    {
        if self.is_on(node) {
            return Err(PlaceError::Already { segment, node });
        }
        self.add(node)?;
        Ok(self.rows)
    }

    /// Releases the segment, which has this number, from a node.
    pub(crate) fn release(&mut self, segment: u64, node: u32) -> Result<u32, PlaceError>
        ensures ok { OnOk result (self.new ≡ with_homes (homes_after_release node) self.old) }
        ensures rows { IfOk result (λ rows. rows ≡ self.old.rows) }
        ensures free { OnOk result (release_refused segment node (Some self.old) ≡ None) }
        ensures err { OnErr result (self.new ≡ self.old) }
        ensures cause { IfErr result (λ e. release_refused segment node (Some self.old) ≡ Some e) }
    {
        if !self.is_on(node) {
            return Err(PlaceError::NotThere { segment, node });
        }
        if !self.is_elsewhere(node) {
            return Err(PlaceError::LastPlace { segment });
        }
        self.remove(node);
        Ok(self.rows)
    }
}

fn is_leader(home: &Home) -> bool
    ensures { result ≡ is_home Home.Leader home.now }
{
    match home {
        Home::Leader => true,
        Home::Node(_) => false,
    }
}

fn is_node(home: &Home, node: u32) -> bool
    ensures { result ≡ is_home (Home.Node node) home.now }
{
    match home {
        Home::Leader => false,
        Home::Node(other) => node == *other,
    }
}
