//! Tokens, and lists of them.
ghost use Rattle.std.specs.Prelude.{length, ◌≤◌};
ghost use Rattle.qm_limits.specs.declared.TheConstants.{MOST_BYTES};

/// The kinds of tokens.
#[derive(Clone, Copy, Debug, PartialEq, Eq)]
pub enum TokenKind {
    /// A letter, followed by letters, digits and `_`.
    Word,
    /// One or more digits.
    Number,
    /// One of `{`, `}`, `(`, `)`, `+`, `-`, `*`, `/`, `%` and `..`.
    Symbol,
}

/// A token: the bytes of the text from `start` up to `stop`, on the line `line`, where the first line is 1.
#[derive(Clone, Copy, Debug, PartialEq, Eq)]
pub struct Token {
    pub kind: TokenKind,
    pub start: u32,
    pub stop: u32,
    pub line: u32,
}

/// The tokens of a text, in their order. There are no more than a text has bytes.
#[derive(Drop)]
pub struct Tokens {
    pub(crate) items: Vec<Token>,
    ghost few: { length items.items ≤ MOST_BYTES },
}

impl Tokens {
    ghost use Rattle.std.specs.Prelude.{◌≡◌, slice_get};
    ghost use Rattle.qm_lex.specs.Lexing.{token_list};

    /// All of them, in their order.
    pub fn as_slice(&self) -> &[Token]
        ensures { result.now ≡ token_list self.now }
    {
        self.items.as_slice()
    }

    /// How many there are.
    pub fn len(&self) -> u32
        ensures { result ≡ length (token_list self.now) }
    {
        self.items.len() as u32
    }

    /// The token with this number, from 0 on; none where there are not as many.
    pub fn token(&self, j: u32) -> Option<Token>
        ensures { result ≡ slice_get (token_list self.now) j }
    {
        self.items.get(j as usize).copied()
    }
}
