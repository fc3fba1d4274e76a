//! Whole texts over ends that give little, take little, and fail.
use qm_io::{
    Drain, MemSink, MemSource, Sink, StdSink, StdSource, SureSource, TextError, put_bytes, read_all,
};
use qm_limits::MOST_BYTES;
use std::alloc::{AllocError, Global};
use std::io;
use std::io::{Cursor, Error, ErrorKind, Read, Write};
use std::test::Fail;

/// An end of std that fails at the call of one number, and else reads a dot or takes all. It counts its flushes.
#[derive(Drop)]
struct End<'a> {
    failing: u32,
    calls: u32,
    flushes: &'a mut u32,
}

impl End<'_> {
    fn call(&mut self) -> io::Result<()> {
        self.calls = self.calls.saturating_add(1);
        if self.calls == self.failing {
            return Err(Error::from(ErrorKind::BrokenPipe));
        }
        Ok(())
    }
}

impl Read for End<'_> {
    fn read(&mut self, buf: &mut [u8]) -> io::Result<usize> {
        self.call()?;
        if buf.is_empty() {
            return Ok(0);
        }
        buf[0] = b'.';
        Ok(1)
    }
}

impl Write for End<'_> {
    fn write(&mut self, buf: &[u8]) -> io::Result<usize> {
        self.call()?;
        Ok(buf.len())
    }

    fn flush(&mut self) -> io::Result<()> {
        *self.flushes = self.flushes.saturating_add(1);
        self.call()
    }
}

/// An end that counts its flushes here, and fails at one call.
fn failing_end(failing: u32, flushes: &mut u32) -> End<'_> {
    End {
        failing,
        calls: 0,
        flushes,
    }
}

/// The call of a writer that fails, and whether then a put, a flush and another flush succeed.
const WRITES: [(u32, [bool; 3]); 4] = [
    (0, [true, true, true]),
    (1, [false, true, true]),
    (2, [true, false, true]),
    (3, [true, true, false]),
];

// No failed call is tried again.
#[test]
fn a_writer_is_flushed_by_flush_alone(rt: HostRuntime) -> Result<(), Fail> {
    for (failing, due) in WRITES {
        let (mut none, mut two) = (0, 0);
        let is_put = put_bytes(
            &mut StdSink::start(failing_end(failing, &mut none)),
            &[b'.'; 20_000],
        )
        .is_ok();
        let mut sink = StdSink::start(failing_end(failing, &mut two));
        let found = [
            put_bytes(&mut sink, b"0123").is_ok(),
            sink.flush().is_ok(),
            sink.flush().is_ok(),
        ];
        assert!(rt; found == due && is_put == due[0], "at call {failing}");
        assert!(rt; none == 0 && two == 2, "at call {failing}");
    }
    Ok(())
}

#[test]
fn std_ends_give_and_take_what_those_of_std_do(rt: HostRuntime) -> Result<(), Fail> {
    let mut whole = StdSource::start(b"a text".as_slice());
    let text = read_all(rt.alloc(), &mut whole)?;
    let mut none = 0;
    let mut broken = StdSource::start(b"a text".as_slice().chain(failing_end(1, &mut none)));
    let is_fault = matches!(read_all(rt.alloc(), &mut broken), Err(TextError::ReadFault));
    assert!(rt; text.as_slice() == "a text".as_bytes() && is_fault);
    let mut room = [0; 4];
    let is_put = put_bytes(&mut StdSink::start(Cursor::new(&mut room[..])), b"abcdef").is_ok();
    assert!(rt; room == *b"abcd" && !is_put);
    Ok(())
}

/// The room of a sink that takes 4 bytes a call, the call that fails, what is taken of ten bytes, and whether they are put and flushed.
const PUTS: [(usize, u64, &str, bool, bool); 4] = [
    (10, 0, "0123456789", true, true),
    (10, 2, "0123", false, true),
    (6, 0, "012345", false, true),
    (10, 4, "0123456789", true, false),
];

#[test]
fn a_text_goes_to_memory_until_a_call_fails(rt: HostRuntime) -> Result<(), Fail> {
    for (room, failing, taken, is_put, is_flushed) in PUTS {
        let mut sink = MemSink::start(rt.alloc(), room, [failing].to_vec(rt.alloc())?, 4)?;
        let found = (
            put_bytes(&mut sink, b"0123456789").is_ok(),
            sink.flush().is_ok(),
        );
        assert!(rt;
            found == (is_put, is_flushed) && sink.taken() == taken.as_bytes(),
            "room {room}"
        );
    }
    let mut drain = Drain;
    assert!(rt; put_bytes(&mut drain, b"0123456789").is_ok() && drain.flush().is_ok());
    Ok(())
}

/// The calls that fail of a source of ten bytes that gives 4 a call, and what the first, second and third reading of a text find: a text,
/// or a failed read.
const READINGS: [(&[u64], [Option<&str>; 3]); 6] = [
    (&[], [Some("0123456789"), Some(""), Some("")]),
    (&[1], [None, Some("0123456789"), Some("")]),
    (&[2], [None, Some("456789"), Some("")]),
    (&[3, 4], [None, None, Some("89")]),
    (&[4], [None, Some(""), Some("")]),
    (&[5, 6, 9], [Some("0123456789"), None, None]),
];

// A failed read takes nothing of the source.
#[test]
fn a_text_comes_from_memory_until_a_call_fails(rt: HostRuntime) -> Result<(), Fail> {
    for (fails, readings) in READINGS {
        let bytes = b"0123456789".to_vec(rt.alloc())?;
        let mut source = MemSource::start(bytes, fails.to_vec(rt.alloc())?, 4);
        for due in readings {
            match (read_all(rt.alloc(), &mut source), due) {
                (Ok(text), Some(due)) => assert!(rt;
                    text.as_slice() == due.as_bytes(),
                    "{fails:?}"
                ),
                (Err(TextError::ReadFault), None) => {}
                _ => assert!(rt; false, "{fails:?}"),
            }
        }
    }
    Ok(())
}

/// A text of so many bytes, in which the bytes below 251 come again and again.
fn text_of(alloc: Global, len: usize) -> Result<Vec<u8>, AllocError> {
    let mut bytes = Vec::new(alloc);
    for k in 0..len {
        bytes.push((k % 251) as u8)?;
    }
    Ok(bytes)
}

#[test]
fn a_text_is_read_up_to_the_limit(rt: HostRuntime) -> Result<(), Fail> {
    for len in [0, 10, MOST_BYTES, MOST_BYTES + 1] {
        let bytes = text_of(rt.alloc(), len)?;
        let mut source = SureSource::start(text_of(rt.alloc(), len)?, 1_000);
        let is_right = match read_all(rt.alloc(), &mut source) {
            Ok(text) => len <= MOST_BYTES && text.as_slice() == bytes.as_slice(),
            Err(error) => len > MOST_BYTES && error == TextError::TooLong,
        };
        assert!(rt; is_right, "at {len}");
    }
    Ok(())
}
