//! From the lines of a phase to the logs and the tails of the channels: what each line wrote stands in the
//! log, in its place, and each answer is that of the logs at the end.
//!
//! The layers above take from here what the law of legal outputs asks of a phase. Nothing here runs.
#![tactic(auto)]
