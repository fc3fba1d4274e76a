//! The tapes of a made program, drawn from the words of a seed.

ghost use Rattle.std.specs.Prelude.{◌≡◌, ◌<◌, ◌++◌, OnOk};
ghost use Rattle.qm_seed.specs.Seeds.{words_of};
ghost use Rattle.qm_gen.specs.Outcomes.{words_past, outcome_of, outcomes, outcome_digit, outcome_digits};
ghost use Rattle.qm_gen.specs.Sizes.{IsSize, ranks_of};
ghost use Rattle.qm_gen.specs.Made.{Appends, tape_len, tape_word, tape_lines, rank_tapes, drawn_lines, words_left};

use crate::GenKind;
use crate::bodies::child_count;
use crate::lines::push_number;
use crate::program::rank_count;
use qm_seed::SeedWords;
use std::alloc::AllocError;

/// How many outcomes a rank's own tape has, or its protocol tape.
fn tape_len(kind: GenKind, size: u32, own: bool, rank: u32) -> u32
    requires sized { IsSize kind size }
    requires known { rank < ranks_of kind size }
    ensures { result ≡ tape_len kind size own rank }
{
    match (kind, own, rank) {
        (GenKind::Ring | GenKind::Ghz, true, _) => 0,
        (GenKind::Ring, false, _) => 2 * size,
        (GenKind::Ghz, false, _) => child_count(size, rank),
        (GenKind::Parity, true, 0) => size,
        (GenKind::Parity, true, _) => 0,
        (GenKind::Parity, false, 0) => 3 * size,
        (GenKind::Parity, false, _) => size,
    }
}

/// Appends the lines of all own tapes, or of all protocol tapes, by rank. `AllocError` comes from the allocator alone.
pub(crate) fn push_tapes(
    text: &mut Vec<u8>,
    kind: GenKind,
    size: u32,
    own: bool,
    words: &mut SeedWords,
) -> Result<(), AllocError>
    requires { IsSize kind size }
    ensures lines { OnOk result (Appends text.old.items text.new.items
        (drawn_lines (rank_tapes kind size own) (words_of words.old))) }
    ensures drawn { OnOk result (words_of words.new
        ≡ words_left (rank_tapes kind size own) (words_of words.old)) }
{
    for rank in 0..rank_count(kind, size) {
        let len = tape_len(kind, size, own, rank);
        push_tape(text, own, rank, len, words)?;
    }
    Ok(())
}

/// Appends the line of a tape; one of length 0 has none.
fn push_tape(
    text: &mut Vec<u8>,
    own: bool,
    rank: u32,
    len: u32,
    words: &mut SeedWords,
) -> Result<(), AllocError>
    ensures lines { OnOk result (Appends text.old.items text.new.items
        (tape_lines own rank (outcomes len (words_of words.old)))) }
    ensures drawn { OnOk result (words_of words.new ≡ words_past len (words_of words.old)) }
{
    if len == 0 {
        return Ok(());
    }
    push_tape_word(text, own)?;
    push_number(text, rank)?;
    text.extend_from_slice(b" b")?;
    push_outcomes(text, len, words)?;
    text.push(b'\n')?;
    Ok(())
}

/// Appends the word that begins the line of a tape, and a space.
fn push_tape_word(text: &mut Vec<u8>, own: bool) -> Result<(), AllocError>
    ensures { OnOk result (text.new.items ≡ text.old.items ++ tape_word own) }
{
    if own {
        text.extend_from_slice(b"own ")?;
    } else {
        text.extend_from_slice(b"protocol ")?;
    }
    Ok(())
}

/// The digit of the outcome that a word gives.
fn digit_of(word: u32) -> u8
    ensures { result ≡ outcome_digit (outcome_of word) }
{
    if word % 2 == 1 { b'1' } else { b'0' }
}

/// Appends so many outcomes, each the lowest bit of the next word.
fn push_outcomes(text: &mut Vec<u8>, len: u32, words: &mut SeedWords) -> Result<(), AllocError>
    ensures digits { OnOk result (text.new.items
        ≡ text.old.items ++ outcome_digits (outcomes len (words_of words.old))) }
    ensures drawn { OnOk result (words_of words.new ≡ words_past len (words_of words.old)) }
{
    for _ in 0..len {
        text.push(digit_of(words.draw()))?;
    }
    Ok(())
}
