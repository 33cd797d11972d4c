//! What a shard counts, and where its segments stand.

ghost use Rattle.std.specs.Prelude.{◌≡◌, [], IfOk};
ghost use Rattle.journal_model.specs.Layouts.{layout_of};
ghost use Rattle.journal_model.specs.Counts.{counts_of};
ghost use Rattle.shard_core.specs.Counting.{counts_told, waiting_numbers, numbers_on, IsLeastNode};
ghost use Rattle.shard_core.specs.Kept.{IsBehindOf};

use crate::lagging::Lagging;
use crate::shard::Shard;
use channel_journal::Journal;
use row_types::Memory;
use std::alloc::Global;

/// What a channel counts.
#[derive(Debug, Clone, Copy, PartialEq, Eq)]
pub struct Counts {
    /// The keys that are live.
    pub live: u64,
    /// The rows of the tail.
    pub tail: u64,
    /// The segments that wait at the leader.
    pub waiting: u64,
    /// The rows of the segments on nodes.
    pub node_rows: u64,
    /// Those of them that did not die.
    pub node_live: u64,
}

impl Shard {
    /// Brings the pieces up to the journal, so that the next look has less to do. Want of memory is the
    /// only error.
    pub fn bring_up(&mut self, alloc: Global) -> Result<(), Memory>
        ensures { self.new ≡ self.old }
    {
        let _ = self.journal.len();
        self.lagging.catch_up(alloc, &self.journal)
    }

    /// Counts; walks over segments and over what is pending, and over no rows. The pieces are brought up
    /// only where deaths are open: what no search has asked for is built for none. Want of memory is the
    /// only error.
    pub fn counts(&mut self, alloc: Global) -> Result<Counts, Memory>
        ensures counts { IfOk result (λ counts. counts_told counts ≡ counts_of self.old.channel self.old.state.notes) }
        ensures same { self.new ≡ self.old }
    {
        let _ = self.journal.len();
        self.lagging.close_deaths(alloc, &self.journal)?;
        Ok(take_counts(&self.journal, &self.lagging))
    }

    /// Brings the pieces up and gives the numbers of the segments that wait at the leader, rising. Want of
    /// memory is the only error.
    pub fn waiting(&mut self, alloc: Global) -> Result<Vec<u64>, Memory>
        ensures numbers { IfOk result (λ numbers. numbers.items ≡ waiting_numbers self.old.channel self.old.state.notes) }
        ensures same { self.new ≡ self.old }
    {
        let _ = self.journal.len();
        self.lagging.catch_up(alloc, &self.journal)?;
        self.lagging.waiting(alloc)
    }

    /// Brings the pieces up and gives the numbers of the segments on a node, rising. Want of memory is the
    /// only error.
    pub fn on_node(&mut self, alloc: Global, node: u32) -> Result<Vec<u64>, Memory>
        ensures numbers { IfOk result (λ numbers. numbers.items ≡ numbers_on self.old.channel self.old.state.notes node) }
        ensures same { self.new ≡ self.old }
    {
        let _ = self.journal.len();
        self.lagging.catch_up(alloc, &self.journal)?;
        self.lagging.on_node(alloc, node)
    }

    /// The node with the fewest rows, and of several such nodes the least; takes no memory.
    pub fn choose_node(&self) -> u32
        ensures least { IsLeastNode self.now.collection.nodes (layout_of self.now.channel self.now.state.notes).segments result }
    {
        self.lagging.choose_node()
    }
}

/// The counts of pieces that lack no death, with what is pending.
fn take_counts(journal: &Journal, lagging: &Lagging) -> Counts
    requires behind { IsBehindOf journal.now lagging.now }
    requires deaths { lagging.now.deaths ≡ [] }
    ensures { counts_told result ≡ counts_of journal.now.channel journal.now.state.notes }
{
    // Its contract says that each row was put by one note of its own.
    let _ = journal.len();
    let pieces = lagging.counts();
    Counts {
        live: journal.live(),
        tail: pieces.tail,
        waiting: pieces.waiting,
        node_rows: pieces.node_rows,
        node_live: pieces.node_live,
    }
}
