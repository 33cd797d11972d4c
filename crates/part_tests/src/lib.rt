//! Parts that are flushed and fetched over a keeper in memory, with the bytes of their objects
//! written out. Nothing stands on this crate.
#![tactic(auto)]

#[cfg(test)]
mod fetches;
#[cfg(test)]
mod flushes;
#[cfg(test)]
mod parts;
