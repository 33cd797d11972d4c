//! What each step tells. These types are for the proofs alone.
ghost use Rattle.turn_lock.specs.Plays.{SameTurns, queued, looked, passed, moved, marked};
ghost use Rattle.turn_lock.specs.Tickets.{doing};
ghost use Rattle.std.specs.Prelude.{[]};

use crate::protocol::{Counts, Join, Learns, Leaves, Split, Takes};
use crate::tickets::Doing;
use atomic_table::Play;
use std::marker::PhantomData;

pub struct Queue;

impl<S, C> Play<Option<S>, Doing<C>> for Queue {
    ghost then = { queued };
}

pub struct Look<M> {
    marker: PhantomData<M>,
}

impl<S, C, M: Takes<S, C>> Play<Option<S>, Doing<C>> for Look<M> {
    ghost then = { looked M.took };
}

pub struct PassOn<M> {
    marker: PhantomData<M>,
}

impl<S, C, M: Leaves<S, C>> Play<Option<S>, Doing<C>> for PassOn<M> {
    ghost then = { λ s m r n. passed M.gave m n };
}

pub struct Move<M> {
    marker: PhantomData<M>,
}

impl<S, C, M: Learns<C>> Play<Option<S>, Doing<C>> for Move<M> {
    ghost then = { moved M.learnt };
}

pub struct Mark<M> {
    marker: PhantomData<M>,
}

impl<S, C, M: Counts<S, C>> Play<Option<S>, Doing<C>> for Mark<M> {
    ghost then = { marked M.counted };
}

pub struct Twin<M> {
    marker: PhantomData<M>,
}

impl<C, M: Split<C>> Split<Doing<C>> for Twin<M> {
    ghost left = { λ d. doing d.tickets (M.left d.client) };

    ghost right = { λ d. doing [] (M.right d.client) };
}

pub struct Pair<M> {
    marker: PhantomData<M>,
}

impl<C, M: Join<C>> Join<Doing<C>> for Pair<M> {
    ghost both = { λ d e. doing d.tickets (M.both d.client e.client) };

    ghost spent = { doing [] M.spent };
}
