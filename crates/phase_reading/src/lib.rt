//! Reading an input phase by phase, and answering each phase once its meet line was read.
//!
//! [`serve`] reads a source to its end or to the first event that ends the reading, over any [`Engine`]
//! and any sink. The layer above relies on its clauses: they tell which lines were answered, what was
//! read and what was written on each ending, in the words of the engine's own account.
#![tactic(auto)]

mod calls;
mod engines;
mod finding;
mod reading;
mod serving;
mod stops;
mod writing;

pub use crate::engines::{BeginError, Engine, NoMemory};
pub use crate::serving::serve;
pub use crate::stops::Stop;
