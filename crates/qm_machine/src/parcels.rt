//! What a parcel carries.
ghost use Rattle.std.specs.Prelude.{◌≡◌};
ghost use Rattle.qm_proto.specs.Model.State.{wire_of, first_bit, second_bit};
ghost use Rattle.qm_proto.specs.Model.Rows.{half_parcel, bit_parcel};

use qm_denot::Wire;
use qm_proto::{NO_WIRE, Parcel};

/// The wire that a parcel carries.
pub(crate) fn wire_of(parcel: Parcel) -> Wire
    ensures { result ≡ wire_of parcel }
{
    match parcel.wire {
        Some(wire) => wire,
        None => NO_WIRE,
    }
}

/// A parcel's first bit.
pub(crate) fn first_bit(parcel: Parcel) -> bool
    ensures { result ≡ first_bit parcel }
{
    match parcel.bits {
        Some((first, _)) => first,
        None => false,
    }
}

/// A parcel's second bit.
pub(crate) fn second_bit(parcel: Parcel) -> bool
    ensures { result ≡ second_bit parcel }
{
    match parcel.bits {
        Some((_, second)) => second,
        None => false,
    }
}

/// A parcel that carries the half `f`.
pub(crate) fn half(f: Wire) -> Parcel
    ensures { result ≡ half_parcel f }
{
    Parcel {
        wire: Some(f),
        bits: None,
    }
}

/// A parcel that carries a bit.
pub(crate) fn told(m: bool) -> Parcel
    ensures { result ≡ bit_parcel m }
{
    Parcel {
        wire: None,
        bits: Some((m, false)),
    }
}
