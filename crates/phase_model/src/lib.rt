//! What a phase of callers and the meet behind it owe, in values: the journals of the channels before and
//! after, the clock, the lines, and the seats with their walks.
//!
//! The layer above promises this of its threads, whatever order they act in, and relies on the law that
//! what is printed of such phases is legal. Nothing here runs.
#![tactic(auto)]
