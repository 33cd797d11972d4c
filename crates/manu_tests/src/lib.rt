//! Whole runs of the top call over memory, each with its input and its output written out. Nothing
//! stands on this crate.
#![tactic(auto)]

#[cfg(test)]
mod asks;
#[cfg(test)]
mod callers;
#[cfg(test)]
mod cases;
#[cfg(test)]
mod checker;
#[cfg(test)]
mod endings;
#[cfg(test)]
mod examples;
#[cfg(test)]
mod random;
#[cfg(test)]
mod runs;
#[cfg(test)]
mod sessions;
