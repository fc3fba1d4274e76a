//! A page: text that is gathered before a sink takes it.
ghost use Rattle.std.specs.Prelude.{◌≡◌, ◌+◌, ◌≤◌, ◌++◌, [], length};
ghost use Rattle.qm_print.specs.Slots.{wire_text};
ghost use Rattle.qm_io.specs.Ends.{Puts};
ghost use Rattle.qm_print.specs.Gathering.{Gathers};
ghost use Rattle.qm_print.specs.Pieces.{piece_text, pieces_text};

use itoa::{Buffer, Integer};
use qm_denot::Wire;
use qm_io::{Failed, Sink, put_bytes};
use std::marker::Model;

/// The most bytes that wait for the sink.
const SIZE: usize = 8_192;

/// A piece of a text.
#[derive(Clone, Copy)]
pub(crate) enum Piece<'a> {
    Text(&'a [u8]),
    Number(u64),
    Signed(i128),
    /// A wire, without which half of a pair it is.
    Wire(Wire),
}

/// Bytes of a text that the sink hasn't taken yet.
#[derive(Drop)]
pub(crate) struct Page {
    bytes: [u8; SIZE],
    filled: usize,
}

impl Model for Page {
    ghost use Rattle.std.specs.Prelude.{ℕ, ◌≤◌, List, take};
    ghost use Rattle.qm_print.specs.declared.page.TheConstants.{SIZE};

    ghost Value = { List ℕ };

    ghost view = { λ p. take p.filled p.bytes };

    ghost invariant = { λ p. p.filled ≤ SIZE };
}

impl Page {
    /// A page with nothing on it.
    pub(crate) fn blank() -> Page
        ensures { result ≡ [] }
    {
        Page {
            bytes: [0; SIZE],
            filled: 0,
        }
    }

    /// Has the sink take all that is on the page.
    pub(crate) fn write_out<O: Sink>(&mut self, sink: &mut O) -> Result<(), Failed>
        ensures puts { Puts (O.seen sink.old) (O.seen sink.new) self.old result }
        ensures blank { self.new ≡ [] }
    {
        let filled = self.filled;
        self.filled = 0;
        put_bytes(sink, &self.bytes[..filled])
    }

    /// Adds bytes that there is room for.
    fn push(&mut self, bytes: &[u8])
        requires { length self.old + length bytes.now ≤ SIZE }
        ensures { self.new ≡ self.old ++ bytes.now }
    {
        let end = self.filled + bytes.len();
        self.bytes[self.filled..end].copy_from_slice(bytes);
        self.filled = end;
    }

    /// Adds bytes. Where they don't fit behind what is on the page, the sink takes that first.
    pub(crate) fn put<O: Sink>(&mut self, sink: &mut O, bytes: &[u8]) -> Result<(), Failed>
        ensures { Gathers (O.seen sink.old) (O.seen sink.new) self.old self.new bytes.now result }
    {
        if bytes.len() <= SIZE - self.filled {
            self.push(bytes);
            return Ok(());
        }
        self.write_out(sink)?;
        if bytes.len() <= SIZE {
            self.push(bytes);
            return Ok(());
        }
        put_bytes(sink, bytes)
    }

    /// Adds a number in decimal digits.
    fn put_number<O: Sink, N: Integer>(&mut self, sink: &mut O, number: N) -> Result<(), Failed>
        ensures { Gathers (O.seen sink.old) (O.seen sink.new) self.old self.new
            (N.text number) result }
    {
        let mut buffer = Buffer::new();
        self.put(sink, buffer.format(number).as_bytes())
    }

    /// Adds a wire.
    fn put_wire<O: Sink>(&mut self, sink: &mut O, wire: Wire) -> Result<(), Failed>
        ensures { Gathers (O.seen sink.old) (O.seen sink.new) self.old self.new
            (wire_text wire) result }
    {
        self.put_number(sink, wire.rank)?;
        self.put(sink, b".")?;
        self.put_number(sink, wire.made)
    }

    /// Adds a piece.
    fn put_piece<O: Sink>(&mut self, sink: &mut O, piece: Piece<'_>) -> Result<(), Failed>
        ensures { Gathers (O.seen sink.old) (O.seen sink.new) self.old self.new
            (piece_text piece.entry) result }
    {
        match piece {
            Piece::Text(text) => self.put(sink, text),
            Piece::Number(number) => self.put_number(sink, number),
            Piece::Signed(number) => self.put_number(sink, number),
            Piece::Wire(wire) => self.put_wire(sink, wire),
        }
    }

    /// Adds pieces, one after the other.
    pub(crate) fn put_all<O: Sink>(
        &mut self,
        sink: &mut O,
        pieces: &[Piece<'_>],
    ) -> Result<(), Failed>
        ensures { Gathers (O.seen sink.old) (O.seen sink.new) self.old self.new
            (pieces_text pieces.now) result }
    {
        for piece in pieces {
            self.put_piece(sink, *piece)?;
        }
        Ok(())
    }
}
