//! Lanes that differ in their tags alone, and parcels that get their bits later.
ghost use Rattle.std.specs.Prelude.{◌≡◌, false};

use qm_denot::Wire;
use qm_instr::{Kind, Lane};
use qm_mail::{LaneCount, Mail, Parcel};
use std::test::Fail;

/// A lane of copies from rank 0 to rank 1.
const LOW: Lane = Lane {
    from: 0,
    to: 1,
    kind: Kind::Copy,
    tag: 3,
};

/// The same with a tag that nobody sends.
const UNKNOWN: Lane = Lane { tag: 4, ..LOW };

/// The same with the highest tag.
const HIGH: Lane = Lane { tag: 65_535, ..LOW };

/// A parcel with the far half that rank 0 made as number `made`, without bits.
fn half(made: u32) -> Parcel
    ensures { result ≡ record {
      wire = Some (record { rank = 0; made = made; near = false });
      bits = None;
    } }
{
    Parcel {
        wire: Some(Wire {
            rank: 0,
            made,
            near: false,
        }),
        bits: None,
    }
}

#[test]
fn parcels_stand_on_their_own_lanes(rt: HostRuntime) -> Result<(), Fail> {
    let lanes = [
        LaneCount {
            lane: LOW,
            sends: 2,
        },
        LaneCount {
            lane: HIGH,
            sends: 100_000,
        },
    ];
    let mut mail = Mail::start(rt.alloc(), &lanes)?;
    assert!(rt; mail.is_empty(LOW) && mail.is_empty(UNKNOWN) && mail.front(UNKNOWN).is_none());
    mail.post(LOW, half(0));
    assert!(rt; mail.is_empty(HIGH));
    mail.fill(LOW, (true, false));
    mail.post(LOW, half(1));
    mail.post(HIGH, half(2));
    mail.fill(LOW, (false, true));
    let (first, second) = (mail.take(LOW), mail.take(LOW));
    assert!(rt; first.wire == half(0).wire && first.bits == Some((true, false)));
    assert!(rt; second.wire == half(1).wire && second.bits == Some((false, true)));
    assert!(rt; mail.is_empty(LOW) && mail.front(HIGH) == Some(half(2)));
    Ok(())
}
