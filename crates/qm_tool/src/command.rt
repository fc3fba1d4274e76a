//! The commands, and the one reading of their words.
ghost use Rattle.std.specs.Prelude.{◌≡◌, ◌≤◌, map, None, Some, IfSome};
ghost use Rattle.std.specs.String.{string_bytes};
ghost use Rattle.qm_cost.specs.Reports.{AreFew};
ghost use Rattle.qm_gen.specs.Sizes.{IsSize};
ghost use Rattle.qm_tool.specs.Commands.{command_of, delay_of, delays_of, five_words, four_words, kind_of, number_of, one_word, plain_of, recipe_of, seed_of, size_of, threaded, threads_of, two_words, IsBounded, IsSized, made_of};

use qm_cost::{Delays, MOST_DELAY};
use qm_gen::GenKind;

/// Which rank has each turn of a run.
#[derive(Clone, Copy, PartialEq, Eq, Debug)]
pub enum Order {
    /// The lowest one that is neither ended nor blocked.
    Lowest,
    /// The one that a seed chooses.
    Seeded { seed: u64 },
    /// Any, as the threads of the ranks come.
    Any,
}

/// What is listed after a run.
#[derive(Clone, Copy, PartialEq, Eq, Debug)]
pub enum Listing {
    Nothing,
    /// The events of its turns.
    Trace,
    /// The ranks of its turns.
    Turns,
    /// The ranks of its turns, where it stops.
    TurnsOfStop,
}

/// How a program is run.
#[derive(Clone, Copy, PartialEq, Eq, Debug)]
pub struct Play {
    pub order: Order,
    pub listing: Listing,
}

/// How a made program is run.
pub(crate) const PLAIN: Play = Play {
    order: Order::Lowest,
    listing: Listing::Nothing,
};

/// A made program: its kind, its size, and the number from which the outcomes on its tapes are drawn.
#[derive(Clone, Copy, PartialEq, Eq, Debug)]
pub struct Recipe {
    pub kind: GenKind,
    /// A ring's size is 1 to 10,000, a GHZ state's 2 to 10, a parity's 1 to 9,000.
    pub size: u32,
    pub number: u64,
}

/// A command. All but the last two take their program from the source.
#[derive(Clone, Copy, PartialEq, Eq, Debug)]
pub enum Command {
    /// Runs the program.
    Run { play: Play },
    /// Writes its one circuit.
    Mono,
    /// Writes the amplitudes of its one circuit.
    MonoAmps,
    /// Writes its totals, and whether its rendezvous run ends.
    Check,
    /// Runs the program in the order that a seed chooses, and writes how long the run takes with these delays.
    Cost { seed: u64, delays: Delays },
    /// Writes the text of a made program.
    Gen { recipe: Recipe },
    /// Runs a made program, and writes a summary of the run.
    Job { recipe: Recipe },
}

impl Command {
    /// The made program that it is on. `None` where the source gives the program.
    pub fn recipe(self) -> Option<Recipe>
        ensures { result ≡ made_of self }
    {
        match self {
            Command::Gen { recipe } => Some(recipe),
            Command::Job { recipe } => Some(recipe),
            _ => None,
        }
    }

    /// How it runs its program, where each rank has a thread of its own. `None` for every other command.
    pub fn threads(self) -> Option<Play>
        ensures { result ≡ threads_of self }
    {
        match self {
            Command::Run { play } => match play.order {
                Order::Any => Some(play),
                Order::Lowest | Order::Seeded { .. } => None,
            },
            _ => None,
        }
    }
}

/// How many digits a seed may have, and the number that a program is made from.
const MOST_DIGITS: usize = 20;

/// The largest of them, 2^64 - 1.
const LARGEST_NUMBER: u64 = 18_446_744_073_709_551_615;

/// How many digits a size may have.
const MOST_SIZE_DIGITS: usize = 9;

/// The largest number of so many digits.
const LARGEST_SIZE: u64 = 999_999_999;

/// How many digits a delay may have.
const MOST_DELAY_DIGITS: usize = 7;

/// The number that a word of 1 to `most` decimal digits is, if its value is at most `largest`.
fn number_of(word: &[u8], most: usize, largest: u64) -> Option<u64>
    ensures number { result ≡ number_of most largest word.now }
    ensures small { IfSome result (λ n. n ≤ largest) }
{
    if word.is_empty() || word.len() > most {
        return None;
    }
    let mut number = 0u128;
    for byte in word {
        if !byte.is_ascii_digit() {
            return None;
        }
        number = 10 * number + u128::from(*byte - b'0');
        if number > u128::from(largest) {
            return None;
        }
    }
    Some(number as u64)
}

/// The number that a word of 1 to [`MOST_DIGITS`] decimal digits is, if its value is at most [`LARGEST_NUMBER`].
fn seed_of(word: &String) -> Option<u64>
    ensures { result ≡ seed_of (string_bytes word.now) }
{
    number_of(word.as_str().as_bytes(), MOST_DIGITS, LARGEST_NUMBER)
}

/// The command that one word is.
fn one_word(word: &String) -> Option<Command>
    ensures command { result ≡ one_word (string_bytes word.now) }
    ensures bounded { IfSome result IsBounded }
{
    if word.as_str() == "plain" {
        Some(Command::Run { play: PLAIN })
    } else if word.as_str() == "run" {
        let play = Play {
            order: Order::Any,
            listing: Listing::TurnsOfStop,
        };
        Some(Command::Run { play })
    } else if word.as_str() == "mono" {
        Some(Command::Mono)
    } else if word.as_str() == "check" {
        Some(Command::Check)
    } else {
        None
    }
}

/// The command that two words are.
fn two_words(name: &String, word: &String) -> Option<Command>
    ensures command { result ≡ two_words (string_bytes name.now) (string_bytes word.now) }
    ensures bounded { IfSome result IsBounded }
{
    if name.as_str() == "sched" {
        let seed = seed_of(word)?;
        let play = Play {
            order: Order::Seeded { seed },
            listing: Listing::Nothing,
        };
        Some(Command::Run { play })
    } else if name.as_str() == "trace" {
        let seed = seed_of(word)?;
        let play = Play {
            order: Order::Seeded { seed },
            listing: Listing::Trace,
        };
        Some(Command::Run { play })
    } else if name.as_str() == "run" && word.as_str() == "turns" {
        let play = Play {
            order: Order::Any,
            listing: Listing::Turns,
        };
        Some(Command::Run { play })
    } else if name.as_str() == "mono" && word.as_str() == "amps" {
        Some(Command::MonoAmps)
    } else {
        None
    }
}

/// The kind that a word is.
fn kind_of(word: &String) -> Option<GenKind>
    ensures { result ≡ kind_of (string_bytes word.now) }
{
    if word.as_str() == "ring" {
        Some(GenKind::Ring)
    } else if word.as_str() == "ghz" {
        Some(GenKind::Ghz)
    } else if word.as_str() == "parity" {
        Some(GenKind::Parity)
    } else {
        None
    }
}

/// The size that a word of 1 to 9 decimal digits is, if programs of this kind have it.
fn size_of(kind: GenKind, word: &String) -> Option<u32>
    ensures size { result ≡ size_of kind (string_bytes word.now) }
    ensures sized { IfSome result (IsSize kind) }
{
    let digits = word.as_str().as_bytes();
    let size = number_of(digits, MOST_SIZE_DIGITS, LARGEST_SIZE)? as u32;
    if kind.has_size(size) {
        Some(size)
    } else {
        None
    }
}

/// The made program that three words are.
fn recipe_of(kind: &String, size: &String, number: &String) -> Option<Recipe>
    ensures recipe { result ≡ recipe_of (string_bytes kind.now) (string_bytes size.now)
        (string_bytes number.now) }
    ensures sized { IfSome result IsSized }
{
    let kind = kind_of(kind)?;
    let size = size_of(kind, size)?;
    let number = seed_of(number)?;
    Some(Recipe { kind, size, number })
}

/// The command that four words are.
fn four_words(name: &String, kind: &String, size: &String, number: &String) -> Option<Command>
    ensures command { result ≡ four_words (string_bytes name.now) (string_bytes kind.now)
        (string_bytes size.now) (string_bytes number.now) }
    ensures bounded { IfSome result IsBounded }
{
    if name.as_str() == "gen" {
        let recipe = recipe_of(kind, size, number)?;
        Some(Command::Gen { recipe })
    } else if name.as_str() == "job" {
        let recipe = recipe_of(kind, size, number)?;
        Some(Command::Job { recipe })
    } else {
        None
    }
}

/// The delay that a word of 1 to [`MOST_DELAY_DIGITS`] decimal digits is, if its value is at most [`MOST_DELAY`].
fn delay_of(word: &String) -> Option<u32>
    ensures delay { result ≡ delay_of (string_bytes word.now) }
    ensures small { IfSome result (λ n. n ≤ MOST_DELAY) }
{
    let digits = word.as_str().as_bytes();
    let delay = number_of(digits, MOST_DELAY_DIGITS, u64::from(MOST_DELAY))? as u32;
    Some(delay)
}

/// The delays that three words are.
fn delays_of(local: &String, pair: &String, bits: &String) -> Option<Delays>
    ensures delays { result ≡ delays_of (string_bytes local.now) (string_bytes pair.now)
        (string_bytes bits.now) }
    ensures few { IfSome result AreFew }
{
    let local = delay_of(local)?;
    let pair = delay_of(pair)?;
    let bits = delay_of(bits)?;
    Some(Delays { local, pair, bits })
}

/// The command that five words are.
fn five_words(
    name: &String,
    seed: &String,
    local: &String,
    pair: &String,
    bits: &String,
) -> Option<Command>
    ensures command { result ≡ five_words (string_bytes name.now) (string_bytes seed.now)
        (string_bytes local.now) (string_bytes pair.now) (string_bytes bits.now) }
    ensures bounded { IfSome result IsBounded }
{
    if name.as_str() == "cost" {
        let seed = seed_of(seed)?;
        let delays = delays_of(local, pair, bits)?;
        Some(Command::Cost { seed, delays })
    } else {
        None
    }
}

/// The command that words are, matched exactly. `None` where they are none of the forms `plain`, `sched K`, `trace K`, `run`, `run turns`,
/// `mono`, `mono amps`, `check`, `cost K LOCAL PAIR BITS`, `gen KIND SIZE NUMBER` and `job KIND SIZE NUMBER`.
pub fn command_of(words: &[String]) -> Option<Command>
    ensures command { result ≡ command_of (map string_bytes words.now) }
    ensures bounded { IfSome result IsBounded }
{
    match words {
        [word] => one_word(word),
        [name, word] => two_words(name, word),
        [name, kind, size, number] => four_words(name, kind, size, number),
        [name, seed, local, pair, bits] => five_words(name, seed, local, pair, bits),
        _ => None,
    }
}

/// How words ask for a run in which each rank has a thread of its own. `None` where they ask for anything else, or for nothing.
pub(crate) fn threads_of(words: &[String]) -> Option<Play>
    ensures { result ≡ threaded (command_of (map string_bytes words.now)) }
{
    command_of(words)?.threads()
}

/// The command that words are to a call that starts no threads. `None` also where they ask for threads.
pub(crate) fn plain_of(words: &[String]) -> Option<Command>
    ensures command { result ≡ plain_of (command_of (map string_bytes words.now)) }
    ensures bounded { IfSome result IsBounded }
    ensures plain { IfSome result (λ c. threads_of c ≡ None) }
{
    let command = command_of(words)?;
    match command.threads() {
        Some(_) => None,
        None => Some(command),
    }
}
