//! Tokens as the reading sees them.
ghost use Rattle.std.specs.Prelude.{◌≡◌, ◌<◌, ◌≤◌, length, drop, IfOk};
ghost use Rattle.qm_lex.specs.Lexing.{token_list};
ghost use Rattle.qm_lex.specs.Spans.{LieIn};
ghost use Rattle.std.specs.List.{list_all};
ghost use Rattle.qm_parse.specs.Words.{reserved_of, value_of};
ghost use Rattle.qm_parse.specs.Signs.{mark_of, word_sign, sign, sign_of, version_of};
ghost use Rattle.qm_parse.specs.Looks.{is_outcome, is_bits, capped, look_of, looks_of, look_next, version_seen};

use crate::words::{Keyword, Mark, NEWEST, Reserved, Verb, Version, reserved_of};
use qm_lex::{Token, TokenKind, Tokens};
use qm_limits::LARGEST_VALUE;
use std::alloc::{AllocError, Global};

/// A token as the reading sees it.
#[derive(Clone, Copy)]
pub(crate) enum Look {
    /// A number with this value; any above [`LARGEST_VALUE`] is seen as the next one.
    Number(u32),
    Keyword(Keyword),
    Verb(Verb),
    /// A word that isn't reserved, and whether it is the letter b followed by digits 0 and 1 only.
    Name(bool),
    Mark(Mark),
    /// The end of the text.
    End,
}

/// The value of decimal digits, or the number after [`LARGEST_VALUE`] where it is larger.
fn value_of(digits: &[u8]) -> u32
    ensures { result ≡ capped (value_of digits.now) }
{
    let mut value = 0;
    for digit in digits {
        value = capped(10 * u64::from(value) + u64::from(digit.saturating_sub(b'0')));
    }
    value
}

/// The number, or the one after [`LARGEST_VALUE`] where it is larger.
fn capped(value: u64) -> u32
    ensures { result ≡ capped value }
{
    if value > u64::from(LARGEST_VALUE) {
        LARGEST_VALUE + 1
    } else {
        value as u32
    }
}

/// Whether the word is the letter b followed by digits 0 and 1 only.
fn is_bits(word: &[u8]) -> bool
    ensures { result ≡ is_bits word.now }
{
    !word.is_empty() && word[0] == b'b' && are_outcomes(&word[1..])
}

/// Whether each of them is 0 or 1.
fn are_outcomes(digits: &[u8]) -> bool
    ensures { result ≡ list_all is_outcome digits.now }
{
    digits.iter().all(|digit| is_outcome(*digit))
}

/// Whether the digit is 0 or 1.
fn is_outcome(digit: u8) -> bool
    ensures { result ≡ is_outcome digit }
{
    digit == b'0' || digit == b'1'
}

/// A symbol, by its first byte.
fn mark_of(byte: u8) -> Mark
    ensures { result ≡ mark_of byte }
{
    match byte {
        b'{' => Mark::OpenBrace,
        b'}' => Mark::CloseBrace,
        b'(' => Mark::OpenParenthesis,
        b')' => Mark::CloseParenthesis,
        b'+' => Mark::Plus,
        b'-' => Mark::Minus,
        b'*' => Mark::Times,
        b'/' => Mark::Over,
        b'%' => Mark::Rest,
        _ => Mark::Dots,
    }
}

/// A word with these bytes, in a text of a version.
fn word_look(version: Version, word: &[u8]) -> Look
    ensures { result ≡ look_of (word_sign word.now (reserved_of version word.now)) }
{
    match reserved_of(version, word) {
        Some(Reserved::Keyword(keyword)) => Look::Keyword(keyword),
        Some(Reserved::Verb(verb)) => Look::Verb(verb),
        None => Look::Name(is_bits(word)),
    }
}

/// A token of this kind with these bytes, of which there is one at least, in a text of a version.
fn look_of(version: Version, kind: TokenKind, bytes: &[u8]) -> Look
    requires { 0 < length bytes.now }
    ensures { result ≡ look_of (sign version kind bytes.now) }
{
    match kind {
        TokenKind::Word => word_look(version, bytes),
        TokenKind::Number => Look::Number(value_of(bytes)),
        TokenKind::Symbol => Look::Mark(mark_of(bytes[0])),
    }
}

/// A token of a text of a version.
fn look_of_token(version: Version, text: &[u8], token: Token) -> Look
    requires rising { token.start < token.stop }
    requires within { token.stop ≤ length text.now }
    ensures { result ≡ look_of (sign_of version text.now token) }
{
    look_of(
        version,
        token.kind,
        &text[token.start as usize..token.stop as usize],
    )
}

/// The version that a token names where a version stands: 2 by its number, and 1 by any other.
pub(crate) fn version_seen(look: Look) -> Version
    ensures { result ≡ version_seen look }
{
    match look {
        Look::Number(number) if number == NEWEST => Version::Two,
        _ => Version::One,
    }
}

/// The version of a text, which its second token names.
fn version_of(text: &[u8], tokens: &Tokens) -> Version
    requires { LieIn text.now (token_list tokens.now) }
    ensures { result ≡ version_of text.now (token_list tokens.now) }
{
    match tokens.token(1) {
        Some(token) => version_seen(look_of_token(Version::One, text, token)),
        None => Version::One,
    }
}

/// The tokens of a text, in their order.
pub(crate) fn looks_of(alloc: Global, text: &[u8], tokens: &Tokens) -> Result<Vec<Look>, AllocError>
    requires { LieIn text.now (token_list tokens.now) }
    ensures { IfOk result (λ looks. looks.items ≡ looks_of text.now (token_list tokens.now)) }
{
    let version = version_of(text, tokens);
    let mut looks = Vec::new(alloc);
    for token in tokens.as_slice() {
        looks.push(look_of_token(version, text, *token))?;
    }
    Ok(looks)
}

/// The token with this number.
pub(crate) fn look_at(looks: &[Look], at: u32) -> Look
    ensures { result ≡ look_next (drop at looks.now) }
{
    match looks.get(at as usize) {
        Some(look) => *look,
        None => Look::End,
    }
}
