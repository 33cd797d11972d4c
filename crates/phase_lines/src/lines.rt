//! The lines that wait for their meet.

ghost use Rattle.std.specs.Prelude.{◌≡◌, ℕ, ◌+◌, ◌^◌, ◌<◌, [], ◌∷◌, ◌++◌, List, length, map, Ok, IfOk, OnOk, OnErr};

use crate::places::{empty_places, give, works_of};
use answer_lines::Reason;
use hybrid_time::Timestamp;
use phase_run::Work;
use request_lines::Request;
use row_types::Memory;
use std::alloc::Global;

/// What stands on a line.
#[derive(Debug, Clone, Copy, PartialEq, Eq)]
pub enum Slot {
    /// No request, for this reason.
    Refused(Reason),
    /// The next request of this caller.
    Asked(u32),
}

/// The lines of a phase before its meet, from a first number on.
#[derive(Drop)]
pub struct PhaseLines {
    /// The number of the first line.
    first: u32,
    /// A slot for each line, in their order.
    slots: Vec<Slot>,
    /// Of each of the 16 callers its requests, in their order, each at the number of its line.
    places: Vec<Vec<(u32, Request)>>,
    ghost fits: { first + length slots.items < 2 ^ 32 },
    ghost many: { length places.items ≡ 16 },
}

impl PhaseLines {
    ghost use Rattle.phase_lines.specs.Waiting.{Read, MayWait, slot_of, AreHeld, AreWorks};
    ghost use Rattle.phase_lines.specs.Steps.{Takes, Stays};

    /// No lines yet, where the next one has the number `first`.
    pub fn new(alloc: Global, first: u32) -> Result<PhaseLines, Memory>
        ensures { IfOk result (λ lines. AreHeld first [] lines) }
    {
        let places = empty_places(alloc)?;
        Ok(PhaseLines {
            first,
            slots: Vec::new(alloc),
            places,
        })
    }

    /// How many lines wait.
    pub fn count(&self) -> usize
        ensures { result ≡ length self.now.slots.items }
    {
        self.slots.len()
    }

    /// The number of the line that comes next.
    pub fn next(&self) -> u32
        ensures { result ≡ self.now.first + length self.now.slots.items }
    {
        self.first + self.slots.len() as u32
    }

    /// Adds the next line. Want of memory leaves the lines as they were.
    pub fn add(&mut self, read: Result<Request, Reason>) -> Result<(), Memory>
        requires may { MayWait read }
        requires room { self.old.first + length self.old.slots.items + 1 < 2 ^ 32 }
        ensures added { OnOk result ((first : ℕ) (reads : List Read) → AreHeld first reads self.old → AreHeld first (reads ++ read ∷ []) self.new) }
        ensures kept { OnErr result ((first : ℕ) (reads : List Read) → AreHeld first reads self.old → AreHeld first reads self.new) }
    {
        match read {
            Err(reason) => Ok(self.slots.push(Slot::Refused(reason))?),
            Ok(request) => self.ask(request),
        }
    }

    // Gives a request to its caller.
    fn ask(&mut self, request: Request) -> Result<(), Memory>
        requires may { MayWait (Ok request) }
        requires room { self.old.first + length self.old.slots.items + 1 < 2 ^ 32 }
        ensures taken { OnOk result (Takes (Ok request) self.old self.new) }
        ensures kept { OnErr result (Stays self.old self.new) }
    {
        let number = self.next();
        let caller = request.caller;
        self.slots.reserve(1)?;
        give(&mut self.places, number, request)?;
        self.slots.push_reserved(Slot::Asked(caller));
        Ok(())
    }

    /// The slots of all lines, and a work for each caller that asks, behind its last write: `mine` has that
    /// of each of the 16 callers.
    pub fn into_works(
        self,
        alloc: Global,
        mine: &[Timestamp],
    ) -> Result<(Vec<Slot>, Vec<Work>), Memory>
        requires many { length mine.now ≡ 16 }
        ensures slots { IfOk result (λ parts. (first : ℕ) (reads : List Read) → AreHeld first reads self → parts.0.items ≡ map slot_of reads) }
        ensures works { IfOk result (λ parts. (first : ℕ) (reads : List Read) → AreHeld first reads self → AreWorks first reads mine.now parts.1.items) }
    {
        let works = works_of(alloc, self.places, mine)?;
        Ok((self.slots, works))
    }
}
