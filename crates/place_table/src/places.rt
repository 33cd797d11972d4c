//! The table of places.

ghost use Rattle.std.specs.Prelude.{◌≡◌, ℕ, ◌+◌, ◌-◌, ◌^◌, ◌<◌, ◌≤◌, ◌⊎◌, length, None, Some, OnOk, OnErr, IfOk, IfErr, slice_index, slice_set};
ghost use Rattle.std.specs.Option.{IfSome, is_some, option_map};
ghost use Rattle.std.specs.FinMap as fin;
ghost use Rattle.place_table.specs.Tables.{no_segments, with_added, with_load, with_release, without, load_refusal, release_refusal, answer_of, rows_if, is_on, IsChosen};

use crate::placements::Entry;
use crate::refusals::PlaceError;
use crate::segments::Segments;
use journal_model::Home;
use row_types::Memory;
use std::alloc::Global;
use std::marker::Model;

/// The segments of a channel, with their rows and homes, and the rows that stand on each node.
/// Contracts see the number of nodes and a finite map from segments to rows and homes.
#[derive(Drop)]
pub struct Places {
    loads: Vec<u64>,
    total: u64,
    segments: Segments,
}

impl Model for Places {
    ghost use Rattle.std.specs.Prelude.{length};
    ghost use Rattle.place_table.specs.Tables.{Table};
    ghost use Rattle.place_table.specs.Fields.{table_code, IsKept};

    ghost Value = { Table };

    ghost coded = { table_code };

    ghost view = { λ p. record { nodes = length p.loads.items; segments = p.segments } };

    ghost invariant = { λ p. IsKept p.loads.items p.total p.segments };
}

impl Places {
    /// The table of 1 to 16 nodes, with no segments.
    pub fn new(alloc: Global, nodes: u32) -> Result<Places, Memory>
        requires some { 1 ≤ nodes }
        requires few { nodes ≤ 16 }
        ensures { IfOk result (λ places. places ≡ no_segments nodes) }
    {
        let loads = vec![in alloc; 0; nodes as usize]?;
        Ok(Places {
            loads,
            total: 0,
            segments: Segments::new(alloc),
        })
    }

    /// How many nodes there are, 1 to 16.
    pub fn nodes(&self) -> u32
        ensures nodes { result ≡ self.now.nodes }
        ensures some { 1 ≤ result }
    {
        self.loads.len() as u32
    }

    /// Whether a segment is known.
    pub fn is_known(&self, segment: u64) -> bool
        ensures { result ≡ is_some (fin.get self.now.segments segment) }
    {
        self.segments.find(segment).is_some()
    }

    /// Where a segment stands: at its leader, or on nodes; `None` where it is not known.
    pub fn homes(&self, segment: u64) -> Option<&[Home]>
        ensures homes { option_map (λ homes. homes.now) result ≡ option_map (λ p. p.homes) (fin.get self.now.segments segment) }
        ensures placed { IfSome result (λ homes. 0 < length homes.now) }
    {
        match self.segments.find(segment) {
            Some(entry) => Some(entry.homes()),
            None => None,
        }
    }

    /// Adds a segment that is not known; it waits at its leader. `Memory` comes too where the rows of
    /// all segments together would pass 2^64, and leaves the table as it was.
    pub fn add(&mut self, alloc: Global, segment: u64, rows: u32) -> Result<(), Memory>
        requires { fin.get self.old.segments segment ≡ None }
        ensures ok { OnOk result (self.new ≡ with_added self.old segment rows) }
        ensures err { OnErr result (self.new ≡ self.old) }
    {
        let Some(total) = self.total.checked_add(u64::from(rows)) else {
            return Err(Memory);
        };
        self.segments.add(alloc, segment, rows)?;
        self.total = total;
        Ok(())
    }

    /// Adds a node to the homes of a segment, and takes its leader's place away. A refusal leaves the
    /// table as it was: `Gone` exactly where the segment is not known, then `Already` exactly where the
    /// node has it, then `Memory`.
    pub fn load(&mut self, segment: u64, node: u32) -> Result<(), PlaceError>
        requires { node < self.old.nodes }
        ensures loaded { OnOk result (self.new ≡ with_load self.old segment node) }
        ensures free { OnOk result (load_refusal self.old segment node ≡ None) }
        ensures err { OnErr result (self.new ≡ self.old) }
        ensures cause { IfErr result (λ e. (e ≡ PlaceError.Memory) ⊎ (load_refusal self.old segment node ≡ Some e)) }
        ensures refused { IfSome (load_refusal self.old segment node) (λ e. result ≡ Err e) }
    {
        let rows = self.segments.load(segment, node)?;
        raise(&mut self.loads, node, rows);
        Ok(())
    }

    /// Takes a node from the homes of a segment. A refusal leaves the table as it was: `Gone` exactly
    /// where the segment is not known, then `NotThere` exactly where the node has it not, then
    /// `LastPlace` exactly where no other place has it. Takes no memory.
    pub fn release(&mut self, segment: u64, node: u32) -> Result<(), PlaceError>
        requires { node < self.old.nodes }
        ensures released { OnOk result (self.new ≡ with_release self.old segment node) }
        ensures err { OnErr result (self.new ≡ self.old) }
        ensures answer { result ≡ answer_of (release_refusal self.old segment node) }
    {
        let rows = self.segments.release(segment, node)?;
        lower(&mut self.loads, node, rows);
        Ok(())
    }

    /// Forgets a segment and all its places; takes no memory.
    pub fn drop_all(&mut self, segment: u64)
        ensures { self.new ≡ without self.old segment }
    {
        if let Some(entry) = self.segments.remove(segment) {
            self.total -= u64::from(entry.rows());
            unload(&mut self.loads, &entry);
        }
    }

    /// The node with the fewest rows, and of several such nodes the least; takes no memory.
    pub fn choose_node(&self) -> u32
        ensures { IsChosen self.now result }
    {
        least(self.loads.as_slice()) as u32
    }
}

/// Adds rows to those of a node.
fn raise(loads: &mut Vec<u64>, node: u32, rows: u32)
    requires there { node < length loads.old.items }
    requires fits { slice_index loads.old.items node + rows < 2 ^ 64 }
    ensures { loads.new.items ≡ slice_set loads.old.items node (slice_index loads.old.items node + rows) }
{
    let held = loads[node as usize];
    loads[node as usize] = held + u64::from(rows);
}

/// Takes rows from those of a node.
fn lower(loads: &mut Vec<u64>, node: u32, rows: u32)
    requires there { node < length loads.old.items }
    requires enough { rows ≤ slice_index loads.old.items node }
    ensures { loads.new.items ≡ slice_set loads.old.items node (slice_index loads.old.items node - rows) }
{
    let held = loads[node as usize];
    loads[node as usize] = held - u64::from(rows);
}

/// Takes the rows of a segment from the nodes that have it.
fn unload(loads: &mut Vec<u64>, entry: &Entry)
    requires few { length loads.old.items ≤ 16 }
    requires enough { (node : ℕ) → node < length loads.old.items → rows_if (is_on node entry.now) entry.now.rows ≤ slice_index loads.old.items node }
    ensures left { (node : ℕ) → node < length loads.old.items → slice_index loads.new.items node ≡ slice_index loads.old.items node - rows_if (is_on node entry.now) entry.now.rows }
    ensures len { length loads.new.items ≡ length loads.old.items }
{
    'nodes: for node in 0..loads.len() {
        if entry.is_on(node as u32) {
            lower(loads, node as u32, entry.rows());
        }
    }
}

/// The first place of a least number.
fn least(loads: &[u64]) -> usize
    requires { 1 ≤ length loads.now }
    ensures below { result < length loads.now }
    ensures fewest { (other : ℕ) → other < length loads.now → slice_index loads.now result ≤ slice_index loads.now other }
    ensures first { (other : ℕ) → other < result → slice_index loads.now result < slice_index loads.now other }
{
    let mut best = 0;
    'nodes: for node in 1..loads.len() {
        if loads[node] < loads[best] {
            best = node;
        }
    }
    best
}
