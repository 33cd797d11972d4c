//! The merging of parts.
//!
//! [`merge`] makes one part of the rows of several that a floor leaves, by position and with their
//! marks. The layer above relies on this: the part is what the definition of merging gives, and there
//! is none exactly where no row is kept.
#![tactic(auto)]

mod kept;
mod leaving;
mod marking;
mod merging;
mod stretches;

pub use crate::merging::merge;
