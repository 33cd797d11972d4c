//! The top call: all that the program does, from the words of the command line to the last line of
//! the output.
//!
//! [`serve`] is what the program's reader relies on: each of its clauses is a promise about the bytes
//! that were read and written, and none names a part within.
#![tactic(auto)]

mod endings;
mod paces;
mod serving;
mod words;

pub use crate::endings::{Ended, Status};
pub use crate::serving::serve;
