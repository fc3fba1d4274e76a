//! Lexing: a text is read piece by piece.
ghost use Rattle.std.specs.Prelude.{◌≡◌, ◌<◌, ◌≤◌, length, IfOk};
ghost use Rattle.qm_lex.specs.declared.lexer.LexError.TheVariants.{Memory};
ghost use Rattle.qm_lex.specs.Lexing.{line_after, Lexes, token_list};
ghost use Rattle.qm_lex.specs.Pieces.{IsPiece, HasBytes};
ghost use Rattle.qm_lex.specs.Spans.{LieIn};

use crate::bytes::{comment_len, is_blank, is_digit, is_letter, is_symbol, number_len, word_len};
use crate::tokens::{Token, TokenKind, Tokens};
use qm_limits::MOST_BYTES;
use std::alloc::{AllocFailed, Global};
use thiserror::Error;

/// Why a text has no tokens.
#[derive(Clone, Copy, Debug, PartialEq, Eq, Error)]
pub enum LexError {
    /// The first bad byte is on this line, and stands in no comment.
    #[error("line {line}: a byte that may not stand there")]
    BadByte { line: u32 },
    /// The allocator has no memory left.
    #[error("out of memory")]
    Memory,
}

impl<T: Drop> From<AllocFailed<T>> for LexError {
    ghost from_gives = { λ _ e. e ≡ Memory };

    fn from(_error: AllocFailed<T>) -> LexError {
        LexError::Memory
    }
}

/// What stands at the front of a text. A text is read piece by piece, and each piece has at least one byte.
#[derive(Clone, Copy)]
pub enum Piece {
    /// A blank, or a comment up to its line feed, of so many bytes: no token.
    Gap(usize),
    /// A token of this kind, of so many bytes. Words and numbers are as long as possible.
    Part(TokenKind, usize),
    /// A byte with which no token begins: the text has no tokens.
    Bad,
}

/// What stands at the front of a text that isn't empty.
fn piece_at(rest: &[u8]) -> Piece
    requires { 0 < length rest.now }
    ensures piece { IsPiece rest.now result }
    ensures bytes { HasBytes result (length rest.now) }
{
    let first = rest[0];
    if is_blank(first) {
        Piece::Gap(1)
    } else if first == b'#' {
        Piece::Gap(comment_len(&rest[1..]) + 1)
    } else if is_letter(first) {
        Piece::Part(TokenKind::Word, word_len(&rest[1..]) + 1)
    } else if is_digit(first) {
        Piece::Part(TokenKind::Number, number_len(&rest[1..]) + 1)
    } else if is_symbol(first) {
        Piece::Part(TokenKind::Symbol, 1)
    } else if first == b'.' && rest.len() > 1 && rest[1] == b'.' {
        Piece::Part(TokenKind::Symbol, 2)
    } else {
        Piece::Bad
    }
}

/// The line behind a byte.
fn line_after(byte: u8, line: u32) -> u32
    requires { line < 4294967295 }
    ensures { result ≡ line_after byte line }
{
    if byte == b'\n' { line + 1 } else { line }
}

/// The tokens of a text of at most [`MOST_BYTES`] bytes. `BadByte` comes exactly where a byte outside comments begins no token, with the
/// line of the first such byte; `Memory` only where memory runs out.
pub fn lex(alloc: Global, text: &[u8]) -> Result<Tokens, LexError>
    requires { length text.now ≤ MOST_BYTES }
    ensures tokens { Lexes text.now result }
    ensures spans { IfOk result (λ tokens. LieIn text.now (token_list tokens)) }
{
    let mut items = Vec::new(alloc);
    let mut at = 0;
    let mut line = 1;
    while at < text.len() {
        match piece_at(&text[at..]) {
            Piece::Gap(len) => {
                line = line_after(text[at], line);
                at += len;
            }
            Piece::Part(kind, len) => {
                let token = Token {
                    kind,
                    start: at as u32,
                    stop: (at + len) as u32,
                    line,
                };
                items.push(token)?;
                at += len;
            }
            Piece::Bad => return Err(LexError::BadByte { line }),
        }
    }
    Ok(Tokens { items })
}
