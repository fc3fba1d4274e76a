//! Wires that come, move and go, at the largest size too.
use qm_denot::Wire;
use qm_owner::{Place, Places};
use std::test::Fail;

/// A wire of an allocated qubit.
const FIRST: Wire = Wire {
    rank: 3,
    made: 0,
    near: false,
};

/// A far half that the same rank made next.
const SECOND: Wire = Wire { made: 1, ..FIRST };

/// The last slot of the last rank.
const LAST: Place = Place::Slot { rank: 15, q: 15 };

#[test]
#[tactic(auto, unfolding(qm_denot::specs::Wires::is_wire))]
fn wires_come_move_and_go(rt: HostRuntime) -> Result<(), Fail> {
    let mut places = Places::start(rt.alloc(), 16, 22)?;
    assert!(rt; places.place(FIRST).is_none() && places.slot(15, 15).is_none());
    places.put(FIRST, LAST);
    places.put(SECOND, Place::Far { rank: 15 });
    for (rank, q, wire) in [
        (15, 15, Some(FIRST)),
        (15, 14, None),
        (14, 15, None),
        (16, 0, None),
        (0, 16, None),
    ] {
        assert_eq!(rt; places.slot(rank, q), wire);
    }
    assert!(rt; places.place(SECOND) == Some(Place::Far { rank: 15 }));
    assert!(rt; places.take(FIRST) == LAST && places.slot(15, 15).is_none());
    places.shift(SECOND, LAST);
    assert!(rt; places.slot(15, 15) == Some(SECOND) && places.place(SECOND) == Some(LAST));
    assert!(rt; places.place(FIRST).is_none());
    Ok(())
}
