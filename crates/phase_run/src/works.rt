//! What callers are to do in a phase, and what they did.

use answer_lines::Answer;
use hybrid_time::Timestamp;
use request_lines::Request;
use shard_core::Shard;

/// What a caller is to do.
#[derive(Drop)]
pub struct Work {
    pub caller: u32,
    /// The timestamp of its last write, or 0.
    pub mine: Timestamp,
    /// Its requests in their order, each at the number of its line.
    pub requests: Vec<(u32, Request)>,
}

/// What a caller did.
#[derive(Drop)]
pub struct Done {
    pub caller: u32,
    /// The timestamp of its last write, or 0.
    pub mine: Timestamp,
    /// The answers to the first of its requests, each at the number of its line.
    pub answers: Vec<(u32, Answer)>,
}

/// Work in the background of a phase: so many tickers, each for so many rounds.
#[derive(Debug, Clone, Copy, PartialEq, Eq)]
pub struct Roles {
    pub tickers: u32,
    pub rounds: u32,
}

/// How far a phase came.
#[derive(Debug, Clone, Copy, PartialEq, Eq)]
pub enum Stop {
    /// All was done.
    All,
    /// Memory was wanting: who met that stopped there.
    Memory,
}

/// What stands at the end of a phase.
#[derive(Drop)]
pub struct PhaseEnd {
    /// The shards of all channels, in their order.
    pub shards: Vec<Shard>,
    /// The next number.
    pub clock: u64,
    /// What each caller did, in the order of the works.
    pub done: Vec<Done>,
    pub stop: Stop,
}
