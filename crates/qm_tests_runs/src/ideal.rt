//! Tests of qm_ideal: one circuits that were worked out by hand.
use crate::fixtures::{qubits_of, ready_of};
use qm_denot::{Letter, Wire};
use qm_ideal::{Draw, DrawnError, MonoError, Stop, mono, mono_with, rendezvous};
use std::test::Fail;

/// The first four wires of rank 0, and the first one of rank 1.
const FIRST: Wire = Wire {
    rank: 0,
    made: 0,
    near: false,
};

const SECOND: Wire = Wire {
    rank: 0,
    made: 1,
    near: false,
};

const THIRD: Wire = Wire {
    rank: 0,
    made: 2,
    near: false,
};

const FOURTH: Wire = Wire {
    rank: 0,
    made: 3,
    near: false,
};

const OTHER: Wire = Wire {
    rank: 1,
    made: 0,
    near: false,
};

/// A text, and its one circuit.
#[derive(Clone, Copy)]
struct Row {
    text: &'static str,
    letters: &'static [Letter],
    /// The full slots.
    slots: &'static [(u16, u8, Wire)],
    /// The bits of ranks 0 and 1.
    bits: [u32; 2],
    width: u32,
}

/// Both copies are live before the first is taken back.
const LENT_TWICE: Row = Row {
    text: "qmpi 1 ranks 2 qubits 2 buffer 1 \
        rank 0 alloc 0 h 0 copyto 0 1 1 copyto 0 1 1 undofrom 0 1 2 undofrom 0 1 2 end \
        rank 1 copyfrom 0 0 1 copyfrom 1 0 1 undoto 0 0 2 undoto 1 0 2 end protocol 0 b10 protocol 1 b11",
    letters: &[
        Letter::Had { w: FIRST },
        Letter::Cx {
            c: FIRST,
            t: SECOND,
        },
        Letter::Cx { c: FIRST, t: THIRD },
        Letter::Cx {
            c: FIRST,
            t: SECOND,
        },
        Letter::Take {
            w: SECOND,
            m: false,
        },
        Letter::Cx { c: FIRST, t: THIRD },
        Letter::Take { w: THIRD, m: false },
    ],
    slots: &[(0, 0, FIRST)],
    bits: [0, 0],
    width: 3,
};

/// The second copy has the room of the first, which was taken back before.
const LENT_AGAIN: Row = Row {
    text: "qmpi 1 ranks 2 qubits 1 buffer 1 \
        rank 0 alloc 0 h 0 copyto 0 1 1 undofrom 0 1 2 copyto 0 1 1 undofrom 0 1 2 end \
        rank 1 copyfrom 0 0 1 undoto 0 0 2 copyfrom 0 0 1 undoto 0 0 2 end protocol 0 b10 protocol 1 b11",
    letters: &[
        Letter::Had { w: FIRST },
        Letter::Cx {
            c: FIRST,
            t: SECOND,
        },
        Letter::Cx {
            c: FIRST,
            t: SECOND,
        },
        Letter::Take {
            w: SECOND,
            m: false,
        },
        Letter::Cx { c: FIRST, t: THIRD },
        Letter::Cx { c: FIRST, t: THIRD },
        Letter::Take { w: THIRD, m: false },
    ],
    slots: &[(0, 0, FIRST)],
    bits: [0, 0],
    width: 2,
};

/// The run steps rank 0 to its end first, so all copies are live before the first is given up.
const THREE_COPIES: Row = Row {
    text: "qmpi 1 ranks 2 qubits 1 buffer 1 rank 0 alloc 0 for i in 0..3 { copyto 0 1 1 } end \
        rank 1 for i in 0..3 { copyfrom 0 0 1 free 0 } end protocol 0 b000",
    letters: &[
        Letter::Cx {
            c: FIRST,
            t: SECOND,
        },
        Letter::Cx { c: FIRST, t: THIRD },
        Letter::Cx {
            c: FIRST,
            t: FOURTH,
        },
        Letter::Take {
            w: SECOND,
            m: false,
        },
        Letter::Take { w: THIRD, m: false },
        Letter::Take {
            w: FOURTH,
            m: false,
        },
    ],
    slots: &[(0, 0, FIRST)],
    bits: [0, 0],
    width: 4,
};

/// A moved qubit takes a new name, and no more room.
const MOVED: Row = Row {
    text: "qmpi 1 ranks 2 qubits 1 buffer 1 rank 0 alloc 0 h 0 moveto 0 1 1 end rank 1 movefrom 0 0 1 end protocol 0 b11",
    letters: &[
        Letter::Had { w: FIRST },
        Letter::Rename {
            a: FIRST,
            b: SECOND,
        },
    ],
    slots: &[(1, 0, SECOND)],
    bits: [0, 0],
    width: 1,
};

/// Rank 0 waits with its target until rank 1 stands where it reaches for it.
const REACHED: Row = Row {
    text: "qmpi 1 ranks 2 qubits 1 buffer 1 rank 0 alloc 0 reachfrom 0 1 9 end \
        rank 1 alloc 0 h 0 reachto 0 0 9 end protocol 0 b1 protocol 1 b0",
    letters: &[Letter::Had { w: OTHER }, Letter::Cx { c: OTHER, t: FIRST }],
    slots: &[(0, 0, FIRST), (1, 0, OTHER)],
    bits: [0, 0],
    width: 2,
};

/// A bit that was measured is sent, and decides.
const SENT: Row = Row {
    text: "qmpi 1 ranks 2 qubits 1 buffer 1 rank 0 alloc 0 h 0 measure 0 2 sendbit 2 1 2 end \
        rank 1 recvbit 5 0 2 alloc 0 when 5 x 0 end own 0 b1",
    letters: &[
        Letter::Had { w: FIRST },
        Letter::Keep { w: FIRST, m: true },
        Letter::Flip { w: OTHER },
    ],
    slots: &[(0, 0, FIRST), (1, 0, OTHER)],
    bits: [0x4, 0x20],
    width: 2,
};

/// All of these.
fn rows() -> [Row; 6] {
    [LENT_TWICE, LENT_AGAIN, THREE_COPIES, MOVED, REACHED, SENT]
}

#[test]
fn programs_have_these_circuits(rt: HostRuntime) -> Result<(), Fail> {
    let alloc = rt.alloc();
    for row in rows() {
        let ready = ready_of(&rt, alloc, row.text)?;
        assert!(rt;
            ready.input().ranks() == 2 && rendezvous(alloc, &ready)?,
            "at {}",
            row.text
        );
        let circuit = mono(alloc, &ready)?;
        let qubits = qubits_of(alloc, |rank, slot| circuit.slot(rank, slot))?;
        assert!(rt;
            circuit.letters() == row.letters && qubits.len() == row.slots.len(),
            "at {}",
            row.text
        );
        for (rank, slot, wire) in row.slots {
            assert_eq!(rt; circuit.slot(*rank, *slot), Some(*wire), "at {}", row.text);
        }
        assert_eq!(rt;
            ([circuit.bits(0), circuit.bits(1)], circuit.width()),
            (row.bits, row.width),
            "at {}",
            row.text
        );
    }
    Ok(())
}

/// Each rank first receives what the other sends afterwards.
#[test]
fn ranks_that_wait_for_each_other_have_no_circuit(rt: HostRuntime) -> Result<(), Fail> {
    let text = "qmpi 1 ranks 2 qubits 1 buffer 1 rank 0 copyfrom 0 1 1 copyto 0 1 1 end \
        rank 1 copyfrom 0 0 1 copyto 0 0 1 end protocol 0 b0 protocol 1 b0";
    let ready = ready_of(&rt, rt.alloc(), text)?;
    assert_eq!(rt;
        mono(rt.alloc(), &ready).err(),
        Some(MonoError::Waits { ranks: 3 })
    );
    assert_eq!(rt; rendezvous(rt.alloc(), &ready)?, false);
    Ok(())
}

/// A call on a draw; that for an outcome has the one that is given.
#[derive(Clone, Copy, PartialEq)]
enum Call {
    Takes {
        letter: Letter,
    },
    Gives {
        rank: u16,
        wire: Wire,
        outcome: bool,
    },
}

/// A draw that expects these calls, and stops at the call behind them.
#[derive(Drop)]
struct Expected {
    calls: &'static [Call],
    next: usize,
    is_as_expected: bool,
}

impl Expected {
    /// The next call that is expected.
    fn call(&mut self) -> Result<Call, Stop> {
        match self.calls.get(self.next) {
            Some(call) => {
                self.next += 1;
                Ok(*call)
            }
            None => Err(Stop::Vanished),
        }
    }
}

impl Draw for Expected {
    ghost draws = { λ s d. Unit {0} };

    fn letter(&mut self, letter: Letter) -> Result<(), Stop> {
        if self.call()? != (Call::Takes { letter }) {
            self.is_as_expected = false;
        }
        Ok(())
    }

    fn outcome(&mut self, rank: u16, wire: Wire) -> Result<bool, Stop> {
        match self.call()? {
            Call::Gives {
                rank: r,
                wire: w,
                outcome,
            } if r == rank && w == wire => Ok(outcome),
            _ => {
                self.is_as_expected = false;
                Ok(false)
            }
        }
    }
}

/// Two ranks that measure in turn. Their own tapes have other outcomes than those that are drawn.
const IN_TURN: &str = "qmpi 1 ranks 2 qubits 1 buffer 1 \
    rank 0 alloc 0 h 0 measure 0 0 when 0 x 0 recvbit 1 1 1 when 1 x 0 measure 0 2 end \
    rank 1 alloc 0 h 0 measure 0 0 sendbit 0 0 1 end own 0 b01 own 1 b0";

/// The calls for it. The outcome is asked for before its Keep, and gives the bit.
const CALLS: [Call; 11] = [
    Call::Takes {
        letter: Letter::Had { w: FIRST },
    },
    Call::Gives {
        rank: 0,
        wire: FIRST,
        outcome: true,
    },
    Call::Takes {
        letter: Letter::Keep { w: FIRST, m: true },
    },
    Call::Takes {
        letter: Letter::Flip { w: FIRST },
    },
    Call::Takes {
        letter: Letter::Had { w: OTHER },
    },
    Call::Gives {
        rank: 1,
        wire: OTHER,
        outcome: true,
    },
    Call::Takes {
        letter: Letter::Keep { w: OTHER, m: true },
    },
    Call::Takes {
        letter: Letter::Flip { w: FIRST },
    },
    Call::Gives {
        rank: 0,
        wire: FIRST,
        outcome: false,
    },
    Call::Takes {
        letter: Letter::Keep { w: FIRST, m: false },
    },
    Call::Takes {
        letter: Letter::Flip { w: FIRST },
    },
];

/// After so many of the calls the next one is stopped, and no other is made.
#[test]
fn outcomes_are_asked_for_in_turn(rt: HostRuntime) -> Result<(), Fail> {
    let alloc = rt.alloc();
    let ready = ready_of(&rt, alloc, IN_TURN)?;
    mono(alloc, &ready)?;
    let mut taken = 0u32;
    for (n, call) in CALLS.iter().enumerate() {
        let mut draw = Expected {
            calls: &CALLS[..n],
            next: 0,
            is_as_expected: true,
        };
        let end = mono_with(alloc, &ready, &mut draw).err();
        assert!(rt; draw.is_as_expected && draw.next == n, "at {n}");
        if n == 10 {
            assert_eq!(rt; end, None);
        } else {
            let at = taken;
            assert_eq!(rt;
                end,
                Some(DrawnError::Stopped {
                    at,
                    why: Stop::Vanished
                }),
                "at {n}"
            );
        }
        if let Call::Takes { .. } = call {
            taken = taken.saturating_add(1);
        }
    }
    Ok(())
}
