//! What a call of a caller owes: its notes, the numbers that it draws and its answer, told from the
//! journals that its turns found.
//!
//! The layers above promise their calls in these words, each of its own seat alone, and rely on the law of
//! phases for what all calls together make of an output. Nothing here runs.
#![tactic(auto)]
