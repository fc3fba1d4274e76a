//! Reading a text, token by token, by the goals that are left.
ghost use Rattle.std.specs.Prelude.{◌≡◌, ◌+◌, ◌<◌, ◌≤◌, length, slice_get, option_map, OnOk, IfOk, Ok};
ghost use Rattle.qm_lex.specs.Lexing.{end_line, token_list, tokens_of};
ghost use Rattle.qm_parse.specs.Reaching.{depth_behind, with_stop};
ghost use Rattle.qm_parse.specs.Parsing.{Parses, verb_list};
ghost use Rattle.qm_parse.specs.Signs.{verbs_of};
ghost use Rattle.qm_parse.specs.Places.{error_of};

use crate::errors::ParseError;
use crate::goals::{Fixed, Goal, Stop, Verdict, leaf_of, verdict_of};
use crate::looks::{Look, look_at, looks_of};
use crate::stack::Goals;
use crate::tree::{Node, Tree};
use crate::words::Mark;
use qm_lex::Tokens;
use qm_limits::MOST_BYTES;
use std::alloc::{AllocError, Global};

/// How far a text was read.
#[derive(Drop)]
struct Reading {
    goals: Goals,
    nodes: Vec<Node>,
    /// The number of the next token.
    at: u32,
    /// How many braces and parentheses are open.
    depth: u32,
}

/// How many are open behind a token.
fn depth_behind(look: Look, depth: u32) -> u32
    requires { depth < 4294967295 }
    ensures { result ≡ depth_behind look depth }
{
    match look {
        Look::Mark(Mark::OpenBrace | Mark::OpenParenthesis) => depth + 1,
        Look::Mark(Mark::CloseBrace | Mark::CloseParenthesis) => depth.saturating_sub(1),
        _ => depth,
    }
}

impl Reading {
    ghost use Rattle.qm_parse.specs.Reaching.{start_place, moved, written};
    ghost use Rattle.qm_parse.specs.Places.{place_of};

    /// The start of a text.
    fn start(alloc: Global) -> Result<Reading, AllocError>
        ensures { IfOk result (λ r. place_of r ≡ start_place) }
    {
        let mut goals = Goals::new(alloc);
        goals.push_all(&[Goal::Fixed(Fixed::Qmpi), Goal::Version])?;
        Ok(Reading {
            goals,
            nodes: Vec::new(alloc),
            at: 0,
            depth: 0,
        })
    }

    /// Writes what a goal has to write.
    fn write(&mut self, goal: Goal, look: Look) -> Result<(), AllocError>
        requires { length self.old.nodes.items < 4294967295 }
        ensures nodes { OnOk result
            (self.new.nodes.items ≡ written goal look self.old.at self.old.nodes.items) }
        ensures goals { self.new.goals ≡ self.old.goals }
        ensures at { self.new.at ≡ self.old.at }
        ensures depth { self.new.depth ≡ self.old.depth }
    {
        let number = self.nodes.len() as u32;
        if let Some((what, token, value)) = leaf_of(goal, look, self.at) {
            self.nodes.push(Node {
                what,
                token,
                value,
                stop: number + 1,
            })?;
        }
        if let Goal::Close { node } = goal {
            close(&mut self.nodes, node as usize);
        }
        Ok(())
    }

    /// Meets a goal, by taking the next token or without.
    fn go_on(&mut self, goal: Goal, look: Look, takes: bool) -> Result<(), AllocError>
        requires nodes { length self.old.nodes.items < 4294967295 }
        requires at { self.old.at < 4294967295 }
        requires depth { self.old.depth < 4294967295 }
        ensures { OnOk result (place_of self.new ≡ moved goal look takes (place_of self.old)) }
    {
        let base = self.nodes.len() as u32;
        self.write(goal, look)?;
        self.goals.push_next(goal, look, self.at, base)?;
        if takes {
            self.at += 1;
            self.depth = depth_behind(look, self.depth);
        }
        Ok(())
    }
}

/// Sets the stop of a node to the number of nodes.
fn close(nodes: &mut Vec<Node>, node: usize)
    requires { length nodes.old.items < 4294967296 }
    ensures { nodes.new.items ≡ with_stop (length nodes.old.items) node nodes.old.items }
{
    if node < nodes.len() {
        let stop = nodes.len() as u32;
        let closed = Node {
            stop,
            ..nodes[node]
        };
        nodes[node] = closed;
    }
}

/// The line of a token.
fn line_of(tokens: &Tokens, at: u32) -> Option<u32>
    ensures { result ≡ option_map (λ t. t.line) (slice_get (token_list tokens.now) at) }
{
    tokens.token(at).map(|token| token.line)
}

/// The line of the end of a text.
fn end_line(text: &[u8]) -> u32
    requires { length text.now ≤ MOST_BYTES }
    ensures { result ≡ end_line text.now }
{
    text.iter().filter(|byte| **byte == b'\n').count() as u32 + 1
}

/// The error of a stop at a token; at the end of the text it is always that the text has ended.
fn error_at(text: &[u8], tokens: &Tokens, at: u32, stop: Stop) -> ParseError
    requires { length text.now ≤ MOST_BYTES }
    ensures { result ≡ error_of text.now (token_list tokens.now) at stop }
{
    match (line_of(tokens, at), stop) {
        (None, _) => ParseError::Unended {
            line: end_line(text),
        },
        (Some(line), Stop::Unexpected) => ParseError::Unexpected { line },
        (Some(line), Stop::NumberTooLarge) => ParseError::NumberTooLarge { line },
        (Some(line), Stop::TooDeep) => ParseError::TooDeep { line },
    }
}

/// The source tree of a text, of which these are the tokens. The first token at which no program goes on decides the error, and
/// where the text ends too early it is `Unended`; `Memory` comes only where memory runs out.
pub fn parse(alloc: Global, text: &[u8], tokens: &Tokens) -> Result<Tree, ParseError>
    requires small { length text.now ≤ MOST_BYTES }
    requires tokens { tokens_of text.now ≡ Ok (token_list tokens.now) }
    ensures tree { Parses text.now (token_list tokens.now) result }
    ensures verbs { IfOk result (λ tree. verb_list tree ≡ verbs_of text.now (token_list tokens.now)) }
{
    let looks = looks_of(alloc, text, tokens)?;
    let mut reading = Reading::start(alloc)?;
    while let Some(goal) = reading.goals.pop() {
        let look = look_at(looks.as_slice(), reading.at);
        let takes = match verdict_of(goal, look, reading.depth) {
            Verdict::Take => true,
            Verdict::Stay => false,
            Verdict::Stop(stop) => return Err(error_at(text, tokens, reading.at, stop)),
        };
        reading.go_on(goal, look, takes)?;
    }
    if reading.at < tokens.len() {
        return Err(error_at(text, tokens, reading.at, Stop::Unexpected));
    }
    Ok(Tree {
        items: reading.nodes,
        looks,
    })
}
