//! The vault: a keeper, and the journal of the calls that it was given.
//!
//! The layer above puts it behind a turn and relies on this: storing a part notes each call with how it
//! went, and answers that the part is not kept exactly where one of these notes is a failure, a loss or
//! a damage; the keeper's count of faults rose by at least as many as there are failures in the journal.
#![tactic(auto)]

mod bases;
mod notes;
mod noting;
mod storing;
#[cfg(test)]
mod tests;
mod vaults;

pub use crate::bases::VaultBase;
pub use crate::notes::{KeeperCall, Outcome, VaultNote};
pub use crate::storing::Stored;
pub use crate::vaults::Vault;
