//! Writing all bytes of a piece to a sink.
ghost use Rattle.qm_io.specs.Ends.{Puts};

use crate::ends::{Failed, Sink};

/// Writes all of these bytes, piece by piece. After `Failed` the sink has taken a front of them.
pub fn put_bytes<O: Sink>(sink: &mut O, bytes: &[u8]) -> Result<(), Failed>
    ensures { Puts (O.seen sink.old) (O.seen sink.new) bytes.now result }
{
    let mut at = 0;
    while at < bytes.len() {
        at += sink.write(&bytes[at..])?;
    }
    Ok(())
}
