//! Notes of a keeper's calls.

/// A call of a keeper on one object.
#[derive(Clone, Copy, Debug, PartialEq, Eq)]
pub enum KeeperCall {
    Put,
    Get,
}

/// How a call went.
#[derive(Clone, Copy, Debug, PartialEq, Eq)]
pub enum Outcome {
    Done,
    /// There was no memory for it, or for another call that was to be made with it.
    Memory,
    /// The keeper failed.
    Failed,
    /// Nothing came back.
    Lost,
    /// Other bytes came back than were put. They differ first at `at`, where `want` was put and `got` came;
    /// `None` is past an end.
    Damaged {
        at: u64,
        want: Option<u8>,
        got: Option<u8>,
    },
}

/// One call of a keeper, by the seat and for the line that it was made for; 0 is no line.
#[derive(Clone, Copy, Debug, PartialEq, Eq)]
pub struct VaultNote {
    pub by: u64,
    pub line: u32,
    pub call: KeeperCall,
    /// The name of the object.
    pub object: u64,
    pub outcome: Outcome,
}
