//! What a seat at the lock knows.
use atomic_table::Seat;
use std::collections::LinkedList;

/// How far a turn has come.
pub enum Stage {
    Waiting,
    Inside,
}

/// A place in the line for a slot.
pub struct Ticket {
    pub stage: Stage,
    pub slot: u64,
    pub number: u64,
}

/// What a seat knows: the tickets that it has, and the client's part. No value of it is made.
pub struct Doing<C> {
    pub tickets: LinkedList<Ticket>,
    pub client: C,
}

/// A seat at a lock of values `S`. It has no bytes.
pub type Pass<S, C> = Seat<Option<S>, Doing<C>>;
