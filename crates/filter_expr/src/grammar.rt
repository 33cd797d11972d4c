//! Reads a filter from its tokens.

ghost use Rattle.std.specs.Prelude.{◌≡◌, ◌≤◌, ◌<◌, ◌⊎◌, length, position, [], Some, None, Ok, Err, IfOk, IfErr, IfSome, OnOk};
ghost use Rattle.std.specs.Str.{bytes_eq};
ghost use Rattle.row_types.specs.Schemas as schemas;
ghost use Rattle.filter_expr.specs.Grammar as spec;
ghost use Rattle.filter_expr.specs.Grammar.{Reads};

use crate::reading::{Cursor, is_sign, name_in};
use crate::refusals::FilterError;
use crate::tokens::{Sign, Token};
use row_types::{CompareOp, Field, Filter, Kind, List, Operand, Text};
use sqlite_items::{Boxed, Items};
use std::alloc::Global;

/// What the names of a filter mean, and where its text ends.
#[derive(Clone, Copy)]
pub struct Grammar<'a> {
    pub alloc: Global,
    pub columns: &'a [(Text, Kind)],
    pub end: u64,
}

/// Whether an operator takes values of a kind.
fn takes(op: CompareOp, kind: Kind) -> bool
    ensures { result ≡ schemas.takes op kind }
{
    match (op, kind) {
        (CompareOp::Equal, _) => true,
        (CompareOp::NotEqual, _) => true,
        (_, Kind::Bool) => false,
        _ => true,
    }
}

#[tactic(auto, unfolding(crate::specs::Grammar::any_of))]
fn any_of(members: Items<Filter>) -> Filter
    ensures { result ≡ spec.any_of members }
{
    let mut members = members;
    if members.len() != 1 {
        return Filter::Any(members);
    }
    members.remove(0)
}

#[tactic(auto, unfolding(crate::specs::Grammar::all_of))]
fn all_of(members: Items<Filter>) -> Filter
    ensures { result ≡ spec.all_of members }
{
    let mut members = members;
    if members.len() != 1 {
        return Filter::All(members);
    }
    members.remove(0)
}

impl<'a> Grammar<'a> {
    #[tactic(auto, unfolding(crate::specs::Grammar::expect))]
    fn expect(&self, tokens: &mut Cursor<'_>, sign: Sign) -> Result<(), FilterError>
        ensures { Reads (spec.expect self.now.end sign tokens.old) result tokens.new }
    {
        if tokens.eat(sign) {
            Ok(())
        } else {
            Err(FilterError::Expected {
                at: tokens.place(self.end),
            })
        }
    }

    fn literal_of(&self, kind: Kind, at: u64, token: &Token) -> Result<Field, FilterError>
        ensures ok { IfOk result (λ f. spec.literal_of self.now.end kind at token.now ≡ Ok f) }
        ensures err { IfErr result (λ e. (e ≡ FilterError.Memory) ⊎ (spec.literal_of self.now.end kind at token.now ≡ Err e)) }
    {
        let Token::Literal(field) = token else {
            return Err(FilterError::Expected { at });
        };
        if !kind.is_of(field) {
            return Err(FilterError::KindMismatch { at });
        }
        let field = field.copy(self.alloc)?;
        Ok(field)
    }

    #[tactic(auto, unfolding(crate::specs::Grammar::literal))]
    fn literal(&self, tokens: &mut Cursor<'_>, kind: Kind) -> Result<Field, FilterError>
        ensures reads { Reads (spec.literal self.now.end kind tokens.old) result tokens.new }
        ensures shorter { OnOk result (length tokens.new < length tokens.old) }
    {
        match tokens.take() {
            Some(next) => self.literal_of(kind, next.at, &next.token),
            None => Err(FilterError::Expected { at: self.end }),
        }
    }

    /// The literals of a list, behind its `[`.
    #[tactic(auto, unfolding(crate::specs::Grammar::choices))]
    fn choices(&self, tokens: &mut Cursor<'_>, kind: Kind) -> Result<List<Field>, FilterError>
        ensures { Reads (spec.choices self.now.end kind tokens.old) result tokens.new }
    {
        if tokens.eat(Sign::ListClose) {
            return Ok(List::empty(self.alloc));
        }
        self.some_choices(tokens, kind)
    }

    fn some_choices(&self, tokens: &mut Cursor<'_>, kind: Kind) -> Result<List<Field>, FilterError>
        ensures { Reads (spec.choices_from self.now.end kind [] tokens.old) result tokens.new }
    {
        let mut found = Vec::new(self.alloc);
        let first = self.literal(tokens, kind)?;
        found.push(first)?;
        'list: while tokens.eat(Sign::Comma) {
            let field = self.literal(tokens, kind)?;
            found.push(field)?;
        }
        self.expect(tokens, Sign::ListClose)?;
        Ok(List::of(found))
    }

    #[tactic(auto, unfolding(crate::specs::Grammar::one_of))]
    fn one_of(
        &self,
        tokens: &mut Cursor<'_>,
        left: Operand,
        kind: Kind,
    ) -> Result<Filter, FilterError>
        ensures { Reads (spec.one_of self.now.end (left, kind) tokens.old) result tokens.new }
    {
        self.expect(tokens, Sign::ListOpen)?;
        let choices = self.choices(tokens, kind)?;
        Ok(Filter::OneOf { left, choices })
    }

    #[tactic(auto, unfolding(crate::specs::Grammar::compared))]
    fn compared(
        &self,
        tokens: &mut Cursor<'_>,
        left: Operand,
        kind: Kind,
        op: CompareOp,
        at: u64,
    ) -> Result<Filter, FilterError>
        ensures { Reads (spec.compared self.now.end (left, kind) (op, at) tokens.old) result tokens.new }
    {
        if !takes(op, kind) {
            return Err(FilterError::KindMismatch { at });
        }
        let right = self.literal(tokens, kind)?;
        Ok(Filter::Compare { left, op, right })
    }

    #[tactic(auto, unfolding(crate::specs::Grammar::alone))]
    fn alone(
        &self,
        tokens: &mut Cursor<'_>,
        at: u64,
        left: Operand,
        kind: Kind,
    ) -> Result<Filter, FilterError>
        ensures { Reads (spec.alone self.now.end at (left, kind) tokens.old) result tokens.new }
    {
        if kind.is_of(&Field::Bool(true)) {
            Ok(Filter::Truth(left))
        } else {
            Err(FilterError::KindMismatch { at })
        }
    }

    /// What a name stands for, and its kind.
    #[tactic(auto, unfolding(crate::specs::Grammar::operand_of))]
    fn operand(&self, name: &str) -> Option<(Operand, Kind)>
        ensures { result ≡ spec.operand_of self.now.columns.now name.now }
    {
        if name == "key" {
            return Some((Operand::Key, Kind::Int));
        }
        let at = find(self.columns, name)?;
        match u32::try_from(at) {
            Ok(column) => Some((Operand::Column(column), self.columns[at].1)),
            Err(_) => None,
        }
    }

    #[tactic(auto, unfolding(crate::specs::Grammar::named))]
    fn named(&self, tokens: &mut Cursor<'_>, name: &str, at: u64) -> Result<Filter, FilterError>
        ensures { Reads (spec.named self.now.end self.now.columns.now name.now at tokens.old) result tokens.new }
    {
        let Some((left, kind)) = self.operand(name) else {
            return Err(FilterError::UnknownField { at });
        };
        if let Some((op, place)) = tokens.operator() {
            return self.compared(tokens, left, kind, op, place);
        }
        if tokens.eat(Sign::In) {
            self.one_of(tokens, left, kind)
        } else {
            self.alone(tokens, at, left, kind)
        }
    }

    /// `all ("||" all)*`, in which so many `(` and `!` may still be opened.
    #[cycle(grammar)]
    pub fn any(&self, tokens: &mut Cursor<'_>, depth: u32) -> Result<Filter, FilterError>
        ensures { Reads (spec.any self.now.end (spec.one self.now.end self.now.columns.now depth) tokens.old) result tokens.new }
    {
        let first = self.all(tokens, depth)?;
        let mut members = Items::new(self.alloc);
        members.push(first)?;
        for _turn in 0..tokens.left() {
            if !tokens.eat(Sign::Or) {
                return Ok(any_of(members));
            }
            let member = self.all(tokens, depth)?;
            members.push(member)?;
        }
        Ok(any_of(members))
    }

    /// `one ("&&" one)*`.
    #[cycle(grammar)]
    fn all(&self, tokens: &mut Cursor<'_>, depth: u32) -> Result<Filter, FilterError>
        ensures { Reads (spec.all self.now.end (spec.one self.now.end self.now.columns.now depth) tokens.old) result tokens.new }
    {
        let first = self.one(tokens, depth)?;
        let mut members = Items::new(self.alloc);
        members.push(first)?;
        for _turn in 0..tokens.left() {
            if !tokens.eat(Sign::And) {
                return Ok(all_of(members));
            }
            let member = self.one(tokens, depth)?;
            members.push(member)?;
        }
        Ok(all_of(members))
    }

    /// `"!" one`, `"(" any ")"`, or what begins with a name.
    #[cycle(grammar)]
    fn one(&self, tokens: &mut Cursor<'_>, depth: u32) -> Result<Filter, FilterError>
        ensures { Reads (spec.one self.now.end self.now.columns.now depth tokens.old) result tokens.new }
    {
        let Some(next) = tokens.take() else {
            return Err(FilterError::Expected { at: self.end });
        };
        let at = next.at;
        if let Some(name) = name_in(&next.token) {
            return self.named(tokens, name.as_str(), at);
        }
        if is_sign(Sign::Not, &next.token) {
            return self.negated(tokens, at, depth);
        }
        if is_sign(Sign::Open, &next.token) {
            return self.bracketed(tokens, at, depth);
        }
        Err(FilterError::Expected { at })
    }

    /// Behind a `!`.
    #[cycle(grammar)]
    fn negated(&self, tokens: &mut Cursor<'_>, at: u64, depth: u32) -> Result<Filter, FilterError>
        ensures { Reads (spec.negation_at self.now.end self.now.columns.now depth at tokens.old) result tokens.new }
    {
        if depth == 0 {
            return Err(FilterError::TooDeep { at });
        }
        let inner = self.one(tokens, depth - 1)?;
        let inner = Boxed::new(self.alloc, inner)?;
        Ok(Filter::Not(inner))
    }

    /// Behind a `(`.
    #[cycle(grammar)]
    fn bracketed(&self, tokens: &mut Cursor<'_>, at: u64, depth: u32) -> Result<Filter, FilterError>
        ensures { Reads (spec.bracket_at self.now.end self.now.columns.now depth at tokens.old) result tokens.new }
    {
        if depth == 0 {
            return Err(FilterError::TooDeep { at });
        }
        let inner = self.any(tokens, depth - 1)?;
        self.expect(tokens, Sign::Close)?;
        Ok(inner)
    }
}

/// Where the first column of a name stands.
fn find(columns: &[(Text, Kind)], name: &str) -> Option<usize>
    ensures value { result ≡ position (λ column. bytes_eq column.0 name.now) columns.now }
    ensures within { IfSome result (λ at. at < length columns.now) }
{
    columns.iter().position(|column| column.0.as_str() == name)
}
