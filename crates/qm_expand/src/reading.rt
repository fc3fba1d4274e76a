//! Reading: a text to its tokens, to its source tree, to the programs of all ranks.

ghost use Rattle.std.specs.Prelude.{◌≡◌, ◌≤◌, length, Ok};
ghost use Rattle.qm_lex.specs.Lexing.{token_list, tokens_of};
ghost use Rattle.qm_lex.specs.Spans.{LieIn};
ghost use Rattle.qm_parse.specs.Signs.{signs_of, verbs_of};
ghost use Rattle.qm_parse.specs.Parsing.{IsTree, node_list, verb_list};
ghost use Rattle.qm_expand.specs.Reading.{Reads};
ghost use Rattle.qm_expand.specs.Views.{AreWords};

use crate::ReadError;
use crate::program::expand;
use crate::words::Source;
use qm_instr::Input;
use qm_lex::{LexError, Tokens, lex};
use qm_limits::MOST_BYTES;
use qm_parse::{ParseError, parse};
use std::alloc::Global;

/// The programs of all ranks that a text of at most [`MOST_BYTES`] bytes gives, or the first fault: of its bytes, then of its grammar,
/// then of its expansion. `Memory` comes only where memory runs out.
pub fn read(alloc: Global, text: &[u8]) -> Result<Input, ReadError>
    requires { length text.now ≤ MOST_BYTES }
    ensures { Reads text.now result }
{
    match lex(alloc, text) {
        Ok(tokens) => read_tokens(alloc, text, &tokens),
        Err(error) => match error {
            LexError::BadByte { line } => Err(ReadError::BadByte { line }),
            LexError::Memory => Err(ReadError::Memory),
        },
    }
}

/// The programs that the tokens of a text give.
fn read_tokens(alloc: Global, text: &[u8], tokens: &Tokens) -> Result<Input, ReadError>
    requires small { length text.now ≤ MOST_BYTES }
    requires are { tokens_of text.now ≡ Ok (token_list tokens.now) }
    requires lie { LieIn text.now (token_list tokens.now) }
    ensures { Reads text.now result }
{
    match parse(alloc, text, tokens) {
        Ok(tree) => {
            let source = Source {
                text,
                tokens,
                tree: &tree,
            };
            expand_tree(alloc, &source)
        }
        Err(error) => match error {
            ParseError::Unexpected { line } => Err(ReadError::Unexpected { line }),
            ParseError::NumberTooLarge { line } => Err(ReadError::NumberTooLarge { line }),
            ParseError::TooDeep { line } => Err(ReadError::TooDeep { line }),
            ParseError::Unended { line } => Err(ReadError::Unended { line }),
            ParseError::Memory => Err(ReadError::Memory),
        },
    }
}

/// The programs that a source tree gives.
fn expand_tree(alloc: Global, source: &Source<'_>) -> Result<Input, ReadError>
    requires small { length source.now.text.now ≤ MOST_BYTES }
    requires are { tokens_of source.now.text.now ≡ Ok (token_list source.now.tokens.now) }
    requires lie { AreWords source.now }
    requires tree { IsTree (signs_of source.now.text.now (token_list source.now.tokens.now))
        (node_list source.now.tree.now) }
    requires verbs { verb_list source.now.tree.now
        ≡ verbs_of source.now.text.now (token_list source.now.tokens.now) }
    ensures { Reads source.now.text.now result }
{
    expand(alloc, source)
}
