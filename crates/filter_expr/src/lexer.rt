//! Cuts a text into tokens.

ghost use Rattle.std.specs.Prelude.{◌≡◌, ◌≢◌, ◌⊎◌, ◌<◌, ◌≤◌, ◌+◌, length, slice_index, drop, take, Some, None, IfOk, IfErr, IfSome, true, false};
ghost use Rattle.std.specs.Str.{IsUtf8, is_utf8};
ghost use Rattle.std.specs.Str.Parse.{IsNumeral, without_leading_sign};
ghost use Rattle.std.specs.List.{prefix_len};
ghost use Rattle.std.specs.Char.{is_ascii_digit};
ghost use Rattle.filter_expr.specs.Tokens as spec;

use crate::refusals::FilterError;
use crate::tokens::{Placed, Sign, Token};
use row_types::{CompareOp, Field, Memory, Text};
use std::alloc::Global;
use std::str;

/// The tokens of a text in order.
pub fn tokens(alloc: Global, text: &[u8]) -> Result<Vec<Placed>, FilterError>
    ensures ok { IfOk result (λ found. spec.tokens_of text.now ≡ Ok found.items) }
    ensures err { IfErr result (λ e. (e ≡ FilterError.Memory) ⊎ (spec.tokens_of text.now ≡ Err e)) }
{
    let mut found = Vec::new(alloc);
    let mut at = 0;
    while at < text.len() {
        if text[at] == b' ' {
            at += 1;
        } else {
            let (_, rest) = text.split_at(at);
            let Some((token, len)) = front(alloc, rest)? else {
                return Err(FilterError::BadToken { at: at as u64 });
            };
            found.push(Placed {
                token,
                at: at as u64,
            })?;
            at += len;
        }
    }
    Ok(found)
}

fn byte(text: &[u8], at: usize) -> u8
    ensures value { result ≡ slice_index text.now at }
    ensures within { result ≢ 0 → at < length text.now }
{
    if at < text.len() { text[at] } else { 0 }
}

/// The longest token that begins a text, and its length.
fn front(alloc: Global, text: &[u8]) -> Result<Option<(Token, usize)>, Memory>
    ensures value { IfOk result (λ front. front ≡ spec.token_at text.now) }
    ensures within { IfOk result (λ front. IfSome front (λ t. (1 ≤ t.1) × (t.1 ≤ length text.now))) }
{
    let b = byte(text, 0);
    if is_letter(b) {
        return word(alloc, text);
    }
    if b.is_ascii_digit() || b == b'-' {
        return Ok(number(text));
    }
    if b == b'"' {
        return quoted(alloc, text);
    }
    Ok(sign(b, byte(text, 1)))
}

fn is_letter(b: u8) -> bool
    ensures { result ≡ spec.is_letter b }
{
    b.is_ascii_alphabetic() || b == b'_'
}

fn is_name_byte(b: u8) -> bool
    ensures { result ≡ spec.is_name_byte b }
{
    b.is_ascii_alphanumeric() || b == b'_'
}

/// How many bytes of a text belong to the name at its front.
fn name_len(text: &[u8]) -> usize
    ensures value { result ≡ spec.name_len text.now }
    ensures within { result ≤ length text.now }
{
    let mut len = 0;
    while len < text.len() && is_name_byte(text[len]) {
        len += 1;
    }
    len
}

/// How many digits stand at the front of a text.
fn digits_len(text: &[u8]) -> usize
    ensures value { result ≡ prefix_len is_ascii_digit text.now }
    ensures within { result ≤ length text.now }
{
    let mut len = 0;
    while len < text.len() && text[len].is_ascii_digit() {
        len += 1;
    }
    len
}

fn word(alloc: Global, text: &[u8]) -> Result<Option<(Token, usize)>, Memory>
    requires { spec.is_letter (slice_index text.now 0) ≡ true }
    ensures value { IfOk result (λ front. front ≡ spec.word_at text.now) }
    ensures within { IfOk result (λ front. IfSome front (λ t. (1 ≤ t.1) × (t.1 ≤ length text.now))) }
{
    let len = name_len(text);
    let token = word_of(alloc, &text[..len])?;
    Ok(Some((token, len)))
}

fn word_of(alloc: Global, name: &[u8]) -> Result<Token, Memory>
    requires { IsUtf8 name.now }
    ensures { IfOk result (λ token. token ≡ spec.word_of name.now) }
{
    let Ok(name) = str::from_utf8(name) else {
        unreachable!()
    };
    match name {
        "and" => Ok(Token::Sign(Sign::And)),
        "or" => Ok(Token::Sign(Sign::Or)),
        "not" => Ok(Token::Sign(Sign::Not)),
        "in" => Ok(Token::Sign(Sign::In)),
        "true" => Ok(Token::Literal(Field::Bool(true))),
        "false" => Ok(Token::Literal(Field::Bool(false))),
        _ => Ok(Token::Name(Text::copied(alloc, name)?)),
    }
}

fn sign_len(text: &[u8]) -> usize
    ensures value { result ≡ spec.sign_len text.now }
    ensures within { result ≤ length text.now }
{
    if byte(text, 0) == b'-' { 1 } else { 0 }
}

fn number(text: &[u8]) -> Option<(Token, usize)>
    ensures value { result ≡ spec.number_at text.now }
    ensures within { IfSome result (λ t. (1 ≤ t.1) × (t.1 ≤ length text.now)) }
{
    let sign_len = sign_len(text);
    let (_, digits) = text.split_at(sign_len);
    let digits_len = digits_len(digits);
    if digits_len == 0 {
        return None;
    }
    let len = sign_len + digits_len;
    match int_of(&text[..len]) {
        Some(value) => Some((Token::Literal(Field::Int(value)), len)),
        None => None,
    }
}

fn int_of(text: &[u8]) -> Option<i64>
    requires numeral { IsNumeral 10 (without_leading_sign text.now) }
    requires utf8 { IsUtf8 text.now }
    ensures { result ≡ spec.int_of text.now }
{
    let Ok(text) = str::from_utf8(text) else {
        unreachable!()
    };
    text.parse::<i64>().ok()
}

fn quoted(alloc: Global, text: &[u8]) -> Result<Option<(Token, usize)>, Memory>
    requires { 0 < length text.now }
    ensures value { IfOk result (λ front. front ≡ spec.text_at text.now) }
    ensures within { IfOk result (λ front. IfSome front (λ t. (1 ≤ t.1) × (t.1 ≤ length text.now))) }
{
    let mut content = Vec::new(alloc);
    let mut is_escaped = false;
    for (i, b) in text[1..].iter().enumerate() {
        let b = *b;
        if is_escaped {
            if b != b'"' && b != b'\\' {
                return Ok(None);
            }
            content.push(b)?;
            is_escaped = false;
        } else if b == b'"' {
            return Ok(text_token(content, i + 2));
        } else if b == b'\\' {
            is_escaped = true;
        } else {
            content.push(b)?;
        }
    }
    Ok(None)
}

fn text_token(content: Vec<u8>, len: usize) -> Option<(Token, usize)>
    ensures value { result ≡ spec.text_token (Some (content.items, len)) }
    ensures same { IfSome result (λ t. t.1 ≡ len) }
{
    match String::from_utf8(content) {
        Ok(text) => Some((Token::Literal(Field::Text(Text::of(text))), len)),
        Err(_) => None,
    }
}

fn sign(b: u8, next: u8) -> Option<(Token, usize)>
    ensures value { result ≡ spec.sign_at b next }
    ensures within { IfSome result (λ t. (1 ≤ t.1) × (t.1 ≤ 2) × (b ≢ 0) × (next ≡ 0 → t.1 ≡ 1)) }
{
    match b {
        b'(' => Some((Token::Sign(Sign::Open), 1)),
        b')' => Some((Token::Sign(Sign::Close), 1)),
        b'[' => Some((Token::Sign(Sign::ListOpen), 1)),
        b']' => Some((Token::Sign(Sign::ListClose), 1)),
        b',' => Some((Token::Sign(Sign::Comma), 1)),
        b'=' if next == b'=' => Some((Token::Compare(CompareOp::Equal), 2)),
        b'!' if next == b'=' => Some((Token::Compare(CompareOp::NotEqual), 2)),
        b'!' => Some((Token::Sign(Sign::Not), 1)),
        b'<' if next == b'=' => Some((Token::Compare(CompareOp::LessEqual), 2)),
        b'<' => Some((Token::Compare(CompareOp::Less), 1)),
        b'>' if next == b'=' => Some((Token::Compare(CompareOp::GreaterEqual), 2)),
        b'>' => Some((Token::Compare(CompareOp::Greater), 1)),
        b'&' if next == b'&' => Some((Token::Sign(Sign::And), 2)),
        b'|' if next == b'|' => Some((Token::Sign(Sign::Or), 2)),
        _ => None,
    }
}
