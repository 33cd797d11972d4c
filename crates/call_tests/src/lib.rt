//! Callers over a collection of two channels: what each is answered, on one thread and on two that a
//! gate holds for one another. Nothing stands on this crate.
#![tactic(auto)]

#[cfg(test)]
mod fronts;
#[cfg(test)]
mod lines;
#[cfg(test)]
mod looks;
#[cfg(test)]
mod reads;
#[cfg(test)]
mod steps;
#[cfg(test)]
mod threads;
