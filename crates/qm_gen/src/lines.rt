//! Lines of a text, with a number in them.

ghost use Rattle.std.specs.Prelude.{◌≡◌, ◌++◌, ◌∷◌, [], decimal, OnOk};
ghost use Rattle.qm_gen.specs.Made.{Appends, with_number};

use itoa::Buffer;
use std::alloc::AllocError;

/// Appends a number in decimal digits. `AllocError` comes from the allocator alone.
pub(crate) fn push_number(text: &mut Vec<u8>, number: u32) -> Result<(), AllocError>
    ensures { OnOk result (text.new.items ≡ text.old.items ++ decimal number) }
{
    let mut buffer = Buffer::new();
    text.extend_from_slice(buffer.format(number).as_bytes())?;
    Ok(())
}

/// Appends a line with a number between two texts. `AllocError` comes from the allocator alone.
pub(crate) fn push_numbered(
    text: &mut Vec<u8>,
    before: &[u8],
    number: u32,
    after: &[u8],
) -> Result<(), AllocError>
    ensures { OnOk result (Appends text.old.items text.new.items
        (with_number before.now number after.now ∷ [])) }
{
    text.extend_from_slice(before)?;
    push_number(text, number)?;
    text.extend_from_slice(after)?;
    text.push(b'\n')?;
    Ok(())
}
