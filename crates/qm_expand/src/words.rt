//! The words of a text, by the numbers of their tokens.

ghost use Rattle.std.specs.Prelude.{◌≡◌, ◌≤◌, length, slice_range};
ghost use Rattle.qm_expand.specs.Views.{AreWords, words_of};

use qm_lex::Tokens;
use qm_parse::Tree;

/// A text, its tokens and its source tree.
#[derive(Clone, Copy)]
pub(crate) struct Source<'a> {
    pub(crate) text: &'a [u8],
    pub(crate) tokens: &'a Tokens,
    pub(crate) tree: &'a Tree,
}

/// The bytes of a token; none where there are not as many tokens.
pub(crate) fn bytes<'a>(source: &Source<'a>, token: usize) -> &'a [u8]
    requires { AreWords source.now }
    ensures { result.now ≡ (words_of source.now).bytes token }
{
    if token >= source.tokens.len() as usize {
        return &source.text[..0];
    }
    match source.tokens.token(token as u32) {
        None => &source.text[..0],
        Some(found) => part(source.text, found.start as usize, found.stop as usize),
    }
}

/// The bytes of a text from a place up to another.
fn part(text: &[u8], start: usize, stop: usize) -> &[u8]
    requires rising { start ≤ stop }
    requires within { stop ≤ length text.now }
    ensures { result.now ≡ slice_range text.now start stop }
{
    &text[start..stop]
}

/// The line of a token; 0 where there are not as many tokens.
pub(crate) fn line(source: &Source<'_>, token: u32) -> u32
    ensures { result ≡ (words_of source.now).lines token }
{
    match source.tokens.token(token) {
        None => 0,
        Some(found) => found.line,
    }
}
