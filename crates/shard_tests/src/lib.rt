//! Shards whose segments move between homes: what a search finds then, what is refused, and what the
//! plain definitions find. Nothing stands on this crate.
#![tactic(auto)]

#[cfg(test)]
mod bench;
#[cfg(test)]
mod counts;
#[cfg(test)]
mod groups;
#[cfg(test)]
mod moves;
#[cfg(test)]
mod random_steps;
#[cfg(test)]
mod rows;
#[cfg(test)]
mod searches;
