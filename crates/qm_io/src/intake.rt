//! Reading a whole text from a source, up to a limit.
ghost use Rattle.qm_io.specs.Intake.{Takes};

use crate::ends::Source;
use qm_limits::MOST_BYTES;
use std::alloc::Global;

/// How many bytes are asked of a source at once.
const PIECE: usize = 4_096;

/// Why a text was not read.
#[derive(Clone, Copy, Debug, PartialEq, Eq)]
pub enum TextError {
    /// A read failed.
    ReadFault,
    /// The source gave more than [`MOST_BYTES`] bytes.
    TooLong,
    /// No memory was left for the text.
    Memory,
}

/// All bytes that the source has left, at most [`MOST_BYTES`].
/// `ReadFault` comes where a read failed, and `TooLong` where more bytes came and no read failed.
/// `Memory` comes from the allocator alone.
/// Each read but the last gives at least one byte, so there are at most [`MOST_BYTES`] + 1 of them.
pub fn read_all<I: Source>(alloc: Global, source: &mut I) -> Result<Vec<u8>, TextError>
    ensures { Takes (I.seen source.old) (I.seen source.new) result }
{
    let mut text = Vec::new(alloc);
    let mut piece = [0; PIECE];
    for _ in 0..=MOST_BYTES {
        let Ok(n) = source.read(&mut piece) else {
            return Err(TextError::ReadFault);
        };
        if n == 0 {
            return Ok(text);
        }
        if n > MOST_BYTES - text.len() {
            return Err(TextError::TooLong);
        }
        text.extend_from_slice(&piece[..n])
            .map_err(|_| TextError::Memory)?;
    }
    unreachable!()
}
