//! Tokens of a program text: words, numbers and symbols, as slices of the text with their lines.
#![tactic(auto)]

mod bytes;
mod lexer;
mod tokens;

pub use lexer::{LexError, Piece, lex};
pub use tokens::{Token, TokenKind, Tokens};
