//! The outside: where bytes come from and go to, where objects are kept, the clock, and the points
//! at which a test may hold a thread.
//!
//! The layers above rely on the traits alone: an object may tell its content, a call changes it only
//! as its contract says, and a call fails only where the object's count of faults rose. The forms in
//! memory tell all, and fail at the calls that they are given; the adapters of the system tell nothing.
#![tactic(auto)]

mod adapters;
mod answers;
mod clocks;
mod faults;
mod gates;
mod keepers;
mod sinks;
mod sources;
#[cfg(test)]
mod tests;

pub use crate::adapters::{StandardInput, StandardOutput, SystemClock};
pub use crate::answers::{counted, moment_of, read_answer, write_answer};
pub use crate::clocks::{FixedMoments, Moments};
pub use crate::faults::{Failed, FailurePlan, KeepError};
pub use crate::gates::{At, Gate, OpenGate, Point};
pub use crate::keepers::{Keeper, MapKeeper};
pub use crate::sinks::{BytesSink, Sink};
pub use crate::sources::{BytesSource, Source};
