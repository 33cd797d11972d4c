//! How a seat takes a ticket, is served, and gives the value back.
ghost use Rattle.std.specs.Prelude.{◌≡◌, ◌+◌, ◌^◌, ◌<◌, ◌∷◌, drop};
ghost use Rattle.turn_lock.specs.Client.{Gains, Gives};
ghost use Rattle.turn_lock.specs.Passes.{known, slot_count, IsPassOf, IsSamePass, IsAtRest, IsInside};
ghost use Rattle.turn_lock.specs.Plays.{Served};
ghost use Rattle.turn_lock.specs.Tickets.{waiting, doing};

use crate::locks::{Turn, TurnLock};
use crate::plays::{Look, PassOn, Queue};
use crate::protocol::{Leaves, Protocol, Takes};
use crate::tickets::Pass;
use std::sync::Wait;

impl<S, C, K, P: Protocol<S, C, K>> TurnLock<S, C, K, P> {
    // Takes the next ticket of the slot. The word stays below 2^64 - 1, where the call waits forever.
    fn take_ticket<R: Wait>(&self, rt: &R, pass: &mut Pass<S, C>, slot: usize) -> u64
        requires { IsPassOf self.now pass.old × (slot < slot_count self.now) }
        ensures pass { IsSamePass pass.old pass.new × (result + 1 < 2 ^ 64) }
        ensures ticket { pass.new.me ≡ (doing (waiting slot result ∷ pass.old.me.0.tickets) pass.old.me.0.client, pass.old.me.1) }
    {
        let mut rounds: u64 = 0;
        let mut found = self.table.shared.peek(slot);
        for _ in rt.forever() {
            if found == u64::MAX {
                rounds = self.pause(rt, slot, found, rounds);
                found = self.table.shared.peek(slot);
                continue;
            }
            let was = self
                .table
                .shared
                .compare_exchange::<Queue>(pass, slot, found, found + 1);
            if was == found {
                return found;
            }
            found = was;
        }
        unreachable!()
    }

    // Waits until the newest ticket is served, and then has the value.
    fn wait_as<M: Takes<S, C>, R: Wait>(
        &self,
        rt: &R,
        pass: &mut Pass<S, C>,
        slot: usize,
        number: u64,
    )
        requires lock { IsPassOf self.now pass.old × (slot < slot_count self.now) }
        requires ticket { pass.old.me.0.tickets ≡ waiting slot number ∷ drop 1 pass.old.me.0.tickets }
        requires rule { Gains P.holds pass.old.id (known pass.old) slot (M.took (known pass.old) slot) }
        ensures pass { IsSamePass pass.old pass.new }
        ensures served { Served M.took slot number (drop 1 pass.old.me.0.tickets) pass.old.me pass.new.me }
    {
        let serving = self.slots + slot;
        let mut rounds: u64 = 0;
        for _ in rt.forever() {
            let found = self.table.shared.load::<Look<M>>(pass, serving);
            if found == number {
                return;
            }
            rounds = self.pause(rt, serving, found, rounds);
        }
        unreachable!()
    }

    /// Waits for the earlier tickets of the slot, and takes its value.
    pub fn enter_as<M: Takes<S, C>, R: Wait>(
        &self,
        rt: &R,
        pass: &mut Pass<S, C>,
        slot: usize,
    ) -> Turn<S>
        requires lock { IsPassOf self.now pass.old × (slot < slot_count self.now) }
        requires rest { IsAtRest pass.old }
        requires rule { Gains P.holds pass.old.id (known pass.old) slot (M.took (known pass.old) slot) }
        ensures pass { IsSamePass pass.old pass.new }
        ensures turn { IsInside self.now pass.new result × (result.slot ≡ slot) }
        ensures rule { M.took (known pass.old) slot result.value (known pass.new) }
    {
        let number = self.take_ticket(rt, pass, slot);
        self.wait_as::<M, R>(rt, pass, slot, number);
        let value = self.table.shared.exchange(pass, slot, None).unwrap();
        Turn {
            value,
            slot,
            number,
        }
    }

    /// Gives the value back, and serves the next ticket.
    pub fn leave_as<M: Leaves<S, C>>(&self, pass: &mut Pass<S, C>, turn: Turn<S>)
        requires lock { IsPassOf self.now pass.old }
        requires turn { IsInside self.now pass.old turn }
        requires rule { Gives P.holds pass.old.id (known pass.old) turn.slot turn.value (M.gave (known pass.old) turn.slot turn.value) }
        ensures pass { IsSamePass pass.old pass.new × IsAtRest pass.new }
        ensures rule { M.gave (known pass.old) turn.slot turn.value (known pass.new) }
    {
        let Turn {
            value,
            slot,
            number,
        } = turn;
        let words = &self.table.shared;
        match words.exchange(pass, slot, Some(value)) {
            None => {}
            Some(_) => unreachable!(),
        }
        words.store::<PassOn<M>>(pass, self.slots + slot, number + 1);
        self.wake(slot, number + 1);
    }
}
