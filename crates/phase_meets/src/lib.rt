//! What a meet counts: over the channels together it is what the law of legal outputs asks of the logs and
//! the tails.
//!
//! The layer above takes from here that the counts of a meet are right. Nothing here runs.
#![tactic(auto)]
