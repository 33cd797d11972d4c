//! A cursor over the tokens of a text.

ghost use Rattle.std.specs.Prelude.{◌≡◌, ◌<◌, ◌≤◌, if◌then◌else◌, [], ◌∷◌, drop, length, true, MatchOption, Some, None};
ghost use Rattle.std.specs.Option.{option_copied};
ghost use Rattle.filter_expr.specs.Grammar as spec;

use crate::tokens::{Placed, Sign, Token};
use row_types::{CompareOp, Text};
use std::marker::Model;

/// The tokens that are left to read.
#[derive(Drop)]
pub struct Cursor<'a> {
    rest: &'a [Placed],
}

impl<'a> Model for Cursor<'a> {
    ghost use Rattle.std.specs.Prelude.{List};
    ghost use Rattle.filter_expr.specs.declared.tokens.Placed.{Placed};

    ghost Value = { List Placed };

    ghost view = { λ c. c.rest.now };
}

impl<'a> Cursor<'a> {
    pub fn new(rest: &'a [Placed]) -> Cursor<'a>
        ensures { result ≡ rest.now }
    {
        Cursor { rest }
    }

    /// How many tokens are left.
    pub fn left(&self) -> usize
        ensures { result ≡ length self.now }
    {
        self.rest.len()
    }

    /// The next token.
    pub fn peek(&self) -> Option<&'a Placed>
        ensures { MatchOption result (self.now ≡ []) (λ next. self.now ≡ next.now ∷ drop 1 self.now) }
    {
        let (next, _) = self.rest.split_first()?;
        Some(next)
    }

    /// The place of the next token, or `end`.
    #[tactic(auto, unfolding(crate::specs::Grammar::place))]
    pub fn place(&self, end: u64) -> u64
        ensures { result ≡ spec.place end self.now }
    {
        match self.peek() {
            Some(next) => next.at,
            None => end,
        }
    }

    /// Reads the next token.
    pub fn take(&mut self) -> Option<&'a Placed>
        ensures { MatchOption result ((self.old ≡ []) × (self.new ≡ [])) (λ next. self.old ≡ next.now ∷ self.new) }
    {
        let (next, rest) = self.rest.split_first()?;
        self.rest = rest;
        Some(next)
    }

    /// Whether the next token is this sign.
    #[tactic(auto, unfolding(crate::specs::Grammar::sees))]
    pub fn sees(&self, sign: Sign) -> bool
        ensures { result ≡ spec.sees sign self.now }
    {
        match self.peek() {
            Some(next) => is_sign(sign, &next.token),
            None => false,
        }
    }

    /// Reads this sign, if it comes next.
    #[tactic(auto, using(crate::proofs::SignLaws::sees_shortens))]
    pub fn eat(&mut self, sign: Sign) -> bool
        ensures found { result ≡ spec.sees sign self.old }
        ensures rest { self.new ≡ (if result then drop 1 self.old else self.old) }
        ensures shorter { result ≡ true → length self.new < length self.old }
    {
        if !self.sees(sign) {
            return false;
        }
        self.take();
        true
    }

    /// Reads an operator, if one comes next, and tells its place.
    pub fn operator(&mut self) -> Option<(CompareOp, u64)>
        ensures found { result ≡ spec.operator_ahead self.old }
        ensures rest { MatchOption result (self.new ≡ self.old) (λ found. self.new ≡ drop 1 self.old) }
    {
        let found = self.operator_ahead();
        if found.is_some() {
            self.take();
        }
        found
    }

    #[tactic(auto, unfolding(crate::specs::Grammar::operator_ahead))]
    fn operator_ahead(&self) -> Option<(CompareOp, u64)>
        ensures { result ≡ spec.operator_ahead self.now }
    {
        match self.peek() {
            Some(next) => operator_in(next.at, &next.token),
            None => None,
        }
    }
}

fn operator_in(at: u64, token: &Token) -> Option<(CompareOp, u64)>
    ensures { result ≡ spec.operator_in at token.now }
{
    match token {
        Token::Compare(op) => Some((*op, at)),
        _ => None,
    }
}

fn same_sign(a: Sign, b: Sign) -> bool
    ensures { result ≡ spec.same_sign a b }
{
    a == b
}

pub fn is_sign(sign: Sign, token: &Token) -> bool
    ensures { result ≡ spec.is_sign sign token.now }
{
    match token {
        Token::Sign(other) => same_sign(sign, *other),
        _ => false,
    }
}

/// The name that a token is.
pub fn name_in(token: &Token) -> Option<&Text>
    ensures { option_copied result ≡ spec.name_in token.now }
{
    match token {
        Token::Name(name) => Some(name),
        _ => None,
    }
}
