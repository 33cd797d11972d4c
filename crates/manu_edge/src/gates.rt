//! Points of a run at which a test may hold a thread.

use std::sync::Wait;

/// Where in its work a thread is.
#[derive(Debug, Clone, Copy, PartialEq, Eq)]
pub enum At {
    /// Before the first step of a request or of a round; the clock is not yet read.
    Start,
    /// Right after a turn on a channel was entered.
    AfterEnter,
    /// After the turn of a look was left.
    AfterLook,
    /// Before the first scan of a search.
    BeforeScan,
    /// Before the turn of a commit is entered.
    BeforeCommit,
    /// Once the answer is made.
    Answered,
}

/// A point that a thread passes.
#[derive(Debug, Clone, Copy, PartialEq, Eq)]
pub struct Point {
    pub at: At,
    /// The number of the caller whose line is served.
    pub caller: u32,
    /// The number of the input line, or 0 for work that no line asked for.
    pub line: u32,
}

/// What threads pass at each point; it may hold them there for a while.
pub trait Gate {
    /// Returns once the thread may go on.
    fn pass<R: Wait>(&self, rt: &R, point: Point);
}

/// A gate that holds nobody.
#[derive(Debug, Clone, Copy, PartialEq, Eq)]
pub struct OpenGate;

impl Gate for OpenGate {
    fn pass<R: Wait>(&self, _rt: &R, _point: Point) {}
}
