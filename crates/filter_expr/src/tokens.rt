//! Tokens of a filter's text.

use row_types::{CompareOp, Field, Text};

/// A sign or a word that stands for itself.
#[derive(Debug, Clone, Copy, PartialEq, Eq)]
pub enum Sign {
    Open,
    Close,
    ListOpen,
    ListClose,
    Comma,
    Or,
    And,
    Not,
    In,
}

/// A token.
#[derive(Debug, Drop)]
pub enum Token {
    Name(Text),
    Literal(Field),
    Compare(CompareOp),
    Sign(Sign),
}

/// A token and where its first byte stands.
#[derive(Debug, Drop)]
pub struct Placed {
    pub token: Token,
    pub at: u64,
}
