//! A cursor over bytes, for formats of fixed fields: it reads little-endian numbers and runs of
//! bytes, and never passes the end. A call answers `None` exactly where too few bytes are left, and
//! then the cursor stays where it is, so that a format can say where its bytes break off.
#![tactic(auto)]

mod cursor;

pub use crate::cursor::Reader;

#[cfg(test)]
mod tests;
