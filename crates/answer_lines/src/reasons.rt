//! Why a request line is refused.

/// The first thing that is wrong with a request line; they are tested in this order.
#[derive(Debug, Clone, Copy, PartialEq, Eq)]
pub enum Reason {
    /// The bytes are no JSON.
    NotJson,
    /// The JSON is no object.
    NotObject,
    /// `op` is absent or names no operation.
    BadOp,
    /// `op` is `create`, which stands in line 1 alone.
    LateCreate,
    /// The operation doesn't have one of the members.
    UnknownMember,
    /// `caller` is no integer from 0 to 15.
    BadCaller,
    /// `key` is absent or no integer.
    BadKey,
    /// `vector` is absent or no text.
    NoVector,
    /// `vector` spells no vector of the collection's dimension.
    BadVector,
    /// `fields` is no object of values, or they are not those of the collection's columns.
    BadFields,
    /// `k` is absent or no integer from 1 to 16,384.
    BadK,
    /// `level` names no level, or `delta_ms` is no such number or stands beside another level than Bounded.
    BadLevel,
    /// `filter` is no text, or is too long, or spells no filter of the collection's columns.
    BadFilter,
    /// `wait` is no truth value.
    BadWait,
}
