//! From the seats of a phase to its lines: where each line's notes stand in the journals at the end, that no
//! number is drawn twice, and what each caller was told before.
//!
//! The layers above take from here what each line did, without its seat. Nothing here runs.
#![tactic(auto)]
