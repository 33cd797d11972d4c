//! Facts about lists and sums on which the turns of seats rest: lists that begin with one another, how
//! often a number stands in a list, sums over what seats know, and the notes of a seat in a journal.
//!
//! Its definitions are what the contracts of the layer above say; nothing of it runs.
#![tactic(auto)]
