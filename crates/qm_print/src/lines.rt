//! The line of a rank's classical bits, which stands in more than one text.
ghost use Rattle.std.specs.Prelude.{◌<◌, ◌≡◌};
ghost use Rattle.qm_print.specs.Bits.{bits_line, hex_digit, hex_text};
ghost use Rattle.qm_print.specs.Gathering.{Gathers};

use crate::page::{Page, Piece};
use qm_io::{Failed, Sink};

/// A lower-case hexadecimal digit.
fn hex_digit(n: u32) -> u8
    requires { n < 16 }
    ensures { result ≡ hex_digit n }
{
    if n < 10 {
        b'0' + n as u8
    } else {
        b'a' + (n as u8 - 10)
    }
}

/// Adds the last so many hexadecimal digits of a number.
fn add_hex<O: Sink>(page: &mut Page, sink: &mut O, number: u32, digits: u32) -> Result<(), Failed>
    ensures { Gathers (O.seen sink.old) (O.seen sink.new) page.old page.new
        (hex_text digits number) result }
{
    if digits == 0 {
        return Ok(());
    }
    add_hex(page, sink, number / 16, digits - 1)?;
    page.put(sink, &[hex_digit(number % 16)])
}

/// Adds the line of a rank's classical bits.
pub(crate) fn add_bits_line<O: Sink>(
    page: &mut Page,
    sink: &mut O,
    rank: u16,
    bits: u32,
) -> Result<(), Failed>
    ensures { Gathers (O.seen sink.old) (O.seen sink.new) page.old page.new
        (bits_line rank bits) result }
{
    page.put_all(
        sink,
        &[
            Piece::Text(b"bits "),
            Piece::Number(u64::from(rank)),
            Piece::Text(b" "),
        ],
    )?;
    add_hex(page, sink, bits, 8)?;
    page.put(sink, b"\n")
}
