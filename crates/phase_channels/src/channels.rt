//! Channels at rest.

ghost use Rattle.std.specs.Prelude.{◌≡◌, ℕ, ◌+◌, ◌^◌, ◌<◌, ◌≤◌, [], ◌++◌, List, map, length, replicate, IfOk};
ghost use Rattle.std.specs.Arc.{arc_value};
ghost use Rattle.hybrid_time.specs.Times.{of_moment};
ghost use Rattle.coarse_lists.specs.Collections.{IsInRange};
ghost use Rattle.turn_facts.specs.Prefixes.{IsAt};
ghost use Rattle.shard_core.specs.Shards.{base_of};
ghost use Rattle.shard_calls.specs.Fronts.{notes_of, AreBases};
ghost use Rattle.phase_model.specs.Rests.{Rest, AreJournals, new_rest};
ghost use Rattle.phase_run.specs.declared.works.Done.{Done};
ghost use Rattle.phase_run.specs.Phases.{AreFew};
ghost use Rattle.phase_lines.specs.Waiting.{Read};
ghost use Rattle.phase_channels.specs.Rests.{collection_in, AreAtRest};
ghost use Rattle.phase_channels.specs.Steps.{CanRunLines, HasRunPhase, HaveMet, IsLow};
ghost use Rattle.phase_channels.specs.Keeping.{kept};

use answer_lines::MeetReply;
use coarse_lists::Collection;
use hybrid_time::Timestamp;
use manu_edge::{Gate, Moments};
use phase_lines::{PhaseLines, append_lines};
use phase_run::{Done, PhaseEnd, Roles, Stop, meet, run_phase};
use row_types::Memory;
use shard_core::Shard;
use std::alloc::Global;
use std::sync::{Arc, Wait};
use std::thread::Threads;

/// How many callers there may be.
const CALLERS: usize = 16;

/// The channels of a collection at rest.
#[derive(Drop)]
pub struct Channels {
    collection: Arc<Collection, Global>,
    /// The shards of all channels, in their order.
    shards: Vec<Shard>,
    /// The next number.
    clock: u64,
    /// The timestamp of the last write of each of the 16 callers, or 0.
    mine: Vec<Timestamp>,
}

impl Channels {
    /// The channels of a new collection: no rows, and the next number is 1. Want of memory is the only
    /// error.
    pub fn new(alloc: Global, collection: Collection) -> Result<Channels, Memory>
        requires range { IsInRange collection }
        ensures rest { IfOk result (AreAtRest (new_rest collection 1)) }
        ensures same { IfOk result (λ channels. collection_in channels ≡ collection) }
    {
        let collection = Arc::new(alloc, collection)?;
        let shards = new_shards(alloc, &collection)?;
        let mine = vec![in alloc; Timestamp(0); CALLERS]?;
        Ok(Channels {
            collection,
            shards,
            clock: 1,
            mine,
        })
    }

    /// The collection of all channels.
    pub fn collection(&self) -> &Collection
        ensures { result.now ≡ collection_in self.now }
    {
        &self.collection
    }

    /// Runs the callers of these lines beside each other, with tickers as `roles` says, and writes the
    /// answers to the lines behind `text`. Want of memory is the only error, and ends all.
    pub fn run<R: Threads + Wait + Sync, M: Moments + Sync, G: Gate + Sync>(
        self,
        rt: &R,
        alloc: Global,
        lines: PhaseLines,
        roles: Roles,
        moments: &M,
        gate: &G,
        text: &mut Vec<u8>,
    ) -> Result<Channels, Memory>
        requires known { (rest : Rest) × (first : ℕ) × (reads : List Read) × CanRunLines rest first reads self lines }
        requires low { self.clock < 2 ^ 63 + 2 ^ 60 }
        requires roles { AreFew roles }
        ensures ran { IfOk result (λ after. (rest : Rest) (first : ℕ) (reads : List Read) → CanRunLines rest first reads self lines
            → (written : List ℕ) × (text.new.items ≡ text.old.items ++ written) × HasRunPhase (of_moment (M.least moments.now)) first reads rest self after written) }
        ensures low { IfOk result (λ after. IsLow (2 ^ 40) self.clock after.clock) }
    {
        let Channels {
            collection,
            shards,
            clock,
            mut mine,
        } = self;
        let first = first_of(&lines);
        let (slots, works) = lines.into_works(alloc, mine.as_slice())?;
        let PhaseEnd {
            shards,
            clock,
            done,
            stop,
        } = run_phase(rt, alloc, shards, clock, works, roles, moments, gate);
        if let Stop::Memory = stop {
            return Err(Memory);
        }
        keep_last_writes(done.as_slice(), mine.as_mut_slice());
        append_lines(alloc, first, slots.as_slice(), done, text)?;
        Ok(Channels {
            collection,
            shards,
            clock,
            mine,
        })
    }

    /// Brings all channels to rest at a number that is above all, and not before the moment, in
    /// milliseconds. Want of memory is the only error, and ends all; it is the answer too where a count
    /// would pass 2^64 - 1.
    pub fn meet(mut self, alloc: Global, moment: u64) -> Result<(Channels, MeetReply), Memory>
        requires known { (rest : Rest) × AreJournals (collection_in self) rest × AreAtRest rest self }
        requires low { self.clock < 2 ^ 63 + 2 ^ 60 }
        ensures met { IfOk result (λ met. (rest : Rest) (least : ℕ) → least ≤ of_moment moment → AreJournals (collection_in self) rest → AreAtRest rest self
            → HaveMet least rest self met.0 met.1) }
        ensures low { IfOk result (λ met. IsLow 1 self.clock met.0.clock) }
    {
        let ts = self.clock.max(Timestamp::of_moment(moment).0);
        let reply = meet(alloc, self.shards.as_mut_slice(), Timestamp(ts))?;
        self.clock = ts + 1;
        Ok((self, reply))
    }
}

// The number of the first line.
fn first_of(lines: &PhaseLines) -> u32
    ensures { result ≡ lines.now.first }
{
    lines.next() - lines.count() as u32
}

// The shards of all channels, without notes.
fn new_shards(alloc: Global, collection: &Arc<Collection, Global>) -> Result<Vec<Shard>, Memory>
    requires range { IsInRange (arc_value collection.now) }
    ensures bases { IfOk result (λ shards. AreBases (arc_value collection.now) 0 (map base_of shards.items)) }
    ensures journals { IfOk result (λ shards. map notes_of shards.items ≡ replicate (arc_value collection.now).channels []) }
{
    let mut shards = Vec::new(alloc);
    for channel in 0..collection.channels {
        let shard = Shard::new(alloc, Arc::try_clone(collection)?, channel)?;
        shards.push(shard)?;
    }
    Ok(shards)
}

// Keeps the last write of each caller that had work.
fn keep_last_writes(done: &[Done], mine: &mut [Timestamp])
    requires { (i : ℕ) (did : Done) → IsAt done.now i did → did.caller < length mine.old }
    ensures { mine.new ≡ kept mine.old done.now }
{
    for did in done {
        mine[did.caller as usize] = did.mine;
    }
}
