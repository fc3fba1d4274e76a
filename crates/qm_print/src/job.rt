//! The job text, and bytes as they are.
ghost use Rattle.qm_io.specs.Ends.{Puts};
ghost use Rattle.qm_print.specs.Gathering.{Gathers};
ghost use Rattle.qm_print.specs.JobText.{job_text};

use crate::JobNumbers;
use crate::page::{Page, Piece};
use qm_io::{Failed, Sink};

/// Adds the job text.
fn add_job<O: Sink>(
    page: &mut Page,
    sink: &mut O,
    kind: &str,
    numbers: &JobNumbers,
) -> Result<(), Failed>
    ensures { Gathers (O.seen sink.old) (O.seen sink.new) page.old page.new
        (job_text kind.now numbers.now) result }
{
    page.put_all(
        sink,
        &[
            Piece::Text(b"job "),
            Piece::Text(kind.as_bytes()),
            Piece::Text(b" "),
            Piece::Number(u64::from(numbers.size)),
            Piece::Text(b" "),
            Piece::Number(numbers.number),
            Piece::Text(b"\nevents "),
            Piece::Number(numbers.events),
            Piece::Text(b"\nprotocol "),
            Piece::Number(numbers.protocol),
            Piece::Text(b"\nscale "),
            Piece::Number(numbers.scale),
            Piece::Text(b"\nlines "),
            Piece::Number(numbers.lines),
            Piece::Text(b"\nend\n"),
        ],
    )
}

/// Writes the job text of a kind.
pub fn put_job<O: Sink>(sink: &mut O, kind: &str, numbers: &JobNumbers) -> Result<(), Failed>
    ensures { Puts (O.seen sink.old) (O.seen sink.new) (job_text kind.now numbers.now) result }
{
    let mut page = Page::blank();
    add_job(&mut page, sink, kind, numbers)?;
    page.write_out(sink)
}

/// Writes these bytes.
pub fn put_bytes<O: Sink>(sink: &mut O, bytes: &[u8]) -> Result<(), Failed>
    ensures { Puts (O.seen sink.old) (O.seen sink.new) bytes.now result }
{
    qm_io::put_bytes(sink, bytes)
}
