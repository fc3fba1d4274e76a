//! Ranks that send and receive, runs that stop, traces, and the one circuit.
use super::calls::{Row, try_rows};
use super::texts::{
    ALL_WAIT, BOTH_WAIT, BROADCAST, BROADCAST_STATE, CHAIN, COPIED, COPIED_IN_TURN, COPY_AND_BACK,
    COPY_ONE, COPY_ZERO, GIVEN_BACK, IN_FLIGHT, LANDED, MANY_COPIES, ONE_COPY_MORE, ONE_WAY, PLUS,
    PLUS_STATE, SEVEN_WAIT, TURNED_OUT, TWO_COPIES, WENT_ONE_WAY, WIDEST_COPIES,
};
use std::test::Fail;

/// Ranks that come to their state.
pub(super) const STATES: [Row; 26] = [
    ("plain", PLUS, 0, PLUS_STATE),
    (
        "plain",
        "qmpi 1 ranks 2 qubits 9 buffer 1 all end",
        0,
        "state 1\nranks 2\nprotocol 0\nscale 0\nbits 0 00000000\nbits 1 00000000\nlive\n- 1 0 0 0\nend\n",
    ),
    ("plain", COPY_ONE, 0, COPIED),
    ("plain", COPY_ZERO, 0, COPIED),
    ("sched 1", COPY_ONE, 0, COPIED),
    ("sched 007", COPY_ONE, 0, COPIED),
    ("sched 18446744073709551615", COPY_ZERO, 0, COPIED),
    ("sched 00000000000000000002", COPY_ZERO, 0, COPIED),
    (
        "plain",
        "qmpi 1 ranks 2 qubits 1 buffer 1 rank 0 alloc 0 h 0 t 0 moveto 0 1 7 end rank 1 movefrom 0 0 7 end protocol 0 b11",
        0,
        "state 1\nranks 2\nprotocol 2\nscale 3\nbits 0 00000000\nbits 1 00000000\nlive 1.0\n0 1 0 0 0\n1 0 1 0 0\nend\n",
    ),
    ("plain", COPY_AND_BACK, 0, GIVEN_BACK),
    ("sched 5", COPY_AND_BACK, 0, GIVEN_BACK),
    ("plain", ONE_WAY, 0, WENT_ONE_WAY),
    (
        "plain",
        TWO_COPIES,
        0,
        "state 1\nranks 2\nprotocol 4\nscale 5\nbits 0 00000000\nbits 1 00000000\nlive 0.0\n0 1 0 0 0\n1 1 0 0 0\nend\n",
    ),
    ("plain", IN_FLIGHT, 0, LANDED),
    ("mono amps", IN_FLIGHT, 0, LANDED),
    (
        "plain",
        "qmpi 1 ranks 2 qubits 2 buffer 2 rank 0 alloc 0 copyto 0 1 1 copyfrom 1 1 1 end \
            rank 1 alloc 0 copyto 0 0 1 copyfrom 1 0 1 end protocol 0 b0 protocol 1 b1",
        0,
        "state 1\nranks 2\nprotocol 2\nscale 2\nbits 0 00000000\nbits 1 00000000\nlive 0.0 0.1 1.0 1.1\n0000 1 0 0 0\nend\n",
    ),
    (
        "plain",
        "qmpi 1 ranks 2 qubits 1 buffer 1 rank 0 alloc 0 x 0 reachto 0 1 9 end \
            rank 1 alloc 0 reachfrom 0 0 9 end protocol 0 b1 protocol 1 b1",
        0,
        "state 1\nranks 2\nprotocol 2\nscale 2\nbits 0 00000000\nbits 1 00000000\nlive 0.0 1.0\n11 1 0 0 0\nend\n",
    ),
    ("plain", BROADCAST, 0, BROADCAST_STATE),
    ("sched 1", BROADCAST, 0, BROADCAST_STATE),
    ("sched 2", BROADCAST, 0, BROADCAST_STATE),
    (
        "plain",
        "qmpi 1 ranks 2 qubits 1 buffer 1 rank 0 alloc 0 h 0 measure 0 0 sendbit 0 1 2 end \
            rank 1 recvbit 5 0 2 alloc 0 when 5 x 0 end own 0 b1",
        0,
        "state 1\nranks 2\nprotocol 0\nscale 1\nbits 0 00000001\nbits 1 00000020\nlive 0.0 1.0\n11 1 0 0 0\nend\n",
    ),
    (
        "plain",
        MANY_COPIES,
        0,
        "state 1\nranks 2\nprotocol 25\nscale 25\nbits 0 00000000\nbits 1 00000000\nlive 0.0\n0 1 0 0 0\nend\n",
    ),
    ("plain", BITS_SENT, 0, BITS_TAKEN),
    ("mono amps", BITS_SENT, 0, BITS_TAKEN),
    (
        "plain",
        "qmpi 1 ranks 2 qubits 1 buffer 1 rank 0 sendbit 9 1 4 end rank 1 set 7 1 recvbit 7 0 4 end",
        0,
        "state 1\nranks 2\nprotocol 0\nscale 0\nbits 0 00000000\nbits 1 00000000\nlive\n- 1 0 0 0\nend\n",
    ),
    (
        "mono amps",
        CHAIN,
        0,
        "state 1\nranks 10\nprotocol 18\nscale 19\nbits 0 00000000\nbits 1 00000000\nbits 2 00000000\n\
            bits 3 00000000\nbits 4 00000000\nbits 5 00000000\nbits 6 00000000\nbits 7 00000000\n\
            bits 8 00000000\nbits 9 00000000\nlive 9.0\n0 1 0 0 0\n1 1 0 0 0\nend\n",
    ),
];

/// Bit 1 is sent twice, a 1 between zeros and then a 0 between ones, and both are on their way before the first is taken.
const BITS_SENT: &str = "qmpi 1 ranks 2 qubits 1 buffer 1 \
        rank 0 set 1 1 sendbit 1 1 4 set 0 1 set 1 0 set 2 1 sendbit 1 1 4 end \
        rank 1 recvbit 7 0 4 set 8 1 recvbit 8 0 4 end";

/// What is taken of them.
const BITS_TAKEN: &str =
    "state 1\nranks 2\nprotocol 0\nscale 0\nbits 0 00000005\nbits 1 00000080\nlive\n- 1 0 0 0\nend\n";

/// Runs that stop.
pub(super) const STOPS: [Row; 8] = [
    (
        "plain",
        "qmpi 1 ranks 2 qubits 1 buffer 1 rank 0 alloc 0 copyto 0 1 1 undofrom 0 1 2 end \
            rank 1 copyfrom 0 0 1 x 0 undoto 0 0 2 end protocol 0 b0 protocol 1 b0",
        6,
        "stopped rank 1 turns 7 not-equal\n",
    ),
    (
        "plain",
        "qmpi 1 ranks 1 qubits 1 buffer 1 rank 0 alloc 0 measure 0 0 end own 0 b1",
        6,
        "stopped rank 0 turns 1 impossible\n",
    ),
    (
        "plain",
        "qmpi 1 ranks 1 qubits 1 buffer 1 rank 0 alloc 0 x 0 measure 0 0 end own 0 b0",
        6,
        "stopped rank 0 turns 2 impossible\n",
    ),
    (
        "plain",
        "qmpi 1 ranks 1 qubits 1 buffer 1 rank 0 alloc 0 x 0 free 0 end",
        6,
        "stopped rank 0 turns 2 not-zero\n",
    ),
    (
        "plain",
        "qmpi 1 ranks 2 qubits 2 buffer 1 rank 0 alloc 0 copyto 0 1 1 copyfrom 1 1 1 end \
            rank 1 alloc 0 copyto 0 0 1 copyfrom 1 0 1 end protocol 0 b0 protocol 1 b1",
        6,
        "stopped rank 0 turns 2 stuck\n",
    ),
    (
        "plain",
        TURNED_OUT,
        6,
        "stopped rank 0 turns 1015 overflow\n",
    ),
    ("plain", BOTH_WAIT, 6, "stopped rank 0 turns 0 stuck\n"),
    ("sched 9", BOTH_WAIT, 6, "stopped rank 0 turns 0 stuck\n"),
];

/// Runs of which the events are listed.
pub(super) const TRACES: [Row; 9] = [
    ("trace 1", COPY_ONE, 0, COPIED_IN_TURN),
    ("trace 77", COPY_ZERO, 0, COPIED_IN_TURN),
    (
        "trace 5",
        COPY_AND_BACK,
        0,
        "state 1\nranks 2\nprotocol 2\nscale 3\nbits 0 00000000\nbits 1 00000000\n\
            live 0.0\n0 1 0 0 0\n1 1 0 0 0\nend\n\
            turns 11\n0 alloc\n0 gate\n0 pair\n0 cx\n0 post\n1 deliver\n1 fix-x\n\
            1 test\n1 post\n0 deliver\n0 fix-z\nend\n",
    ),
    (
        "trace 3",
        ONE_WAY,
        0,
        "state 1\nranks 2\nprotocol 2\nscale 3\nbits 0 00000001\nbits 1 00000020\n\
            live 1.0\n0 1 0 0 0\n1 0 1 0 0\nend\n\
            turns 20\n0 alloc\n0 gate\n0 measure\n0 set\n0 xor\n0 when\n0 free\n\
            0 alloc\n0 gate\n0 gate\n0 sendbit\n0 pair\n0 cx\n0 had\n0 near\n0 post\n\
            1 deliver\n1 fix-x\n1 fix-z\n1 recvbit\nend\n",
    ),
    (
        "trace 9",
        BOTH_WAIT,
        6,
        "stopped rank 0 turns 0 stuck\nturns 0\nend\n",
    ),
    // Both copies are on their way before the first is delivered.
    (
        "trace 3",
        IN_FLIGHT,
        0,
        "state 1\nranks 2\nprotocol 2\nscale 2\nbits 0 00000000\nbits 1 00000000\n\
            live 0.0 0.1 1.0 1.1\n0101 1 0 0 0\nend\n\
            turns 13\n0 alloc\n0 alloc\n0 gate\n0 pair\n0 cx\n0 post\n0 pair\n0 cx\n0 post\n\
            1 deliver\n1 fix-x\n1 deliver\n1 fix-x\nend\n",
    ),
    // The second copy is begun before the first is delivered.
    (
        "trace 3",
        "qmpi 1 ranks 2 qubits 4 buffer 3 rank 0 alloc 0 h 0 copyto 0 1 1 copyto 0 1 2 copyto 0 1 3 end \
            rank 1 alloc 0 t 0 copyfrom 1 0 1 copyfrom 2 0 2 copyfrom 3 0 3 end protocol 0 b101",
        0,
        "state 1\nranks 2\nprotocol 3\nscale 4\nbits 0 00000000\nbits 1 00000000\n\
            live 0.0 1.0 1.1 1.2 1.3\n00000 1 0 0 0\n10111 1 0 0 0\nend\n\
            turns 19\n1 alloc\n1 gate\n0 alloc\n0 gate\n0 pair\n0 cx\n0 post\n0 pair\n0 cx\n1 deliver\n\
            0 post\n1 fix-x\n0 pair\n0 cx\n1 deliver\n0 post\n1 fix-x\n1 deliver\n1 fix-x\nend\n",
    ),
    // Two pairs that go against each other are held at once.
    (
        "trace 3",
        "qmpi 1 ranks 2 qubits 2 buffer 2 rank 0 alloc 0 copyto 0 1 1 copyfrom 1 1 1 end \
            rank 1 alloc 0 h 0 copyto 0 0 1 copyfrom 1 0 1 end protocol 0 b1 protocol 1 b0",
        0,
        "state 1\nranks 2\nprotocol 2\nscale 3\nbits 0 00000000\nbits 1 00000000\n\
            live 0.0 0.1 1.0 1.1\n0000 1 0 0 0\n0110 1 0 0 0\nend\n\
            turns 13\n1 alloc\n1 gate\n1 pair\n0 alloc\n1 cx\n1 post\n0 pair\n0 cx\n0 post\n\
            1 deliver\n0 deliver\n1 fix-x\n0 fix-x\nend\n",
    ),
    (
        "trace 2",
        "qmpi 1 ranks 1 qubits 1 buffer 1 rank 0 alloc 0 x 0 free 0 end",
        6,
        "stopped rank 0 turns 2 not-zero\nturns 2\n0 alloc\n0 gate\nend\n",
    ),
];

/// The one circuit of programs, and their check.
pub(super) const CIRCUITS: [Row; 18] = [
    (
        "mono",
        TWO_COPIES,
        0,
        "circuit 1\nranks 2\nprotocol 4\nbits 0 00000000\nbits 1 00000000\n\
            letters 7\nhad 0.0\ncx 0.0 0.1\ncx 0.0 0.2\ncx 0.0 0.1\ntake 0.1 0\ncx 0.0 0.2\n\
            take 0.2 0\nslot 0 0 0.0\nend\n",
    ),
    (
        "mono",
        ONE_WAY,
        0,
        "circuit 1\nranks 2\nprotocol 2\nbits 0 00000001\nbits 1 00000020\n\
            letters 7\nflip 0.0\nkeep 0.0 1\nflip 0.0\ntake 0.0 0\nhad 0.1\nphase 1 0.1\n\
            rename 0.1 0.2\nslot 1 0 0.2\nend\n",
    ),
    (
        "mono",
        "qmpi 1 ranks 1 qubits 2 buffer 1 rank 0 alloc 0 alloc 1 cz 1 0 end",
        0,
        "circuit 1\nranks 1\nprotocol 0\nbits 0 00000000\n\
            letters 1\ncz 0.1 0.0\nslot 0 0 0.0\nslot 0 1 0.1\nend\n",
    ),
    (
        "mono",
        CHAIN,
        0,
        "circuit 1\nranks 10\nprotocol 18\nbits 0 00000000\nbits 1 00000000\nbits 2 00000000\n\
            bits 3 00000000\nbits 4 00000000\nbits 5 00000000\nbits 6 00000000\nbits 7 00000000\n\
            bits 8 00000000\nbits 9 00000000\nletters 10\nhad 0.0\nrename 0.0 0.1\nrename 0.1 1.0\n\
            rename 1.0 2.0\nrename 2.0 3.0\nrename 3.0 4.0\nrename 4.0 5.0\nrename 5.0 6.0\n\
            rename 6.0 7.0\nrename 7.0 8.0\nslot 9 0 8.0\nend\n",
    ),
    ("mono", BOTH_WAIT, 9, "waits 0 1\n"),
    ("mono amps", BOTH_WAIT, 9, "waits 0 1\n"),
    ("mono", ALL_WAIT, 9, "waits 0 1 2 3 4 5 6 7 8 9\n"),
    ("mono", SEVEN_WAIT, 9, "waits 3 4 5 6 7 8 9\n"),
    ("mono amps", COPY_ONE, 0, COPIED),
    ("mono amps", BROADCAST, 0, BROADCAST_STATE),
    ("mono amps", MANY_COPIES, 10, "wide 26\n"),
    ("mono amps", ONE_COPY_MORE, 10, "wide 21\n"),
    ("mono amps", TURNED_OUT, 11, "overflow letter 1014\n"),
    (
        "check",
        COPY_ONE,
        0,
        "check 1\nranks 2\ncapacity 4\ninstructions 4\nevents 7\nown 0\nprotocol 1\nrendezvous yes\nend\n",
    ),
    (
        "check",
        BOTH_WAIT,
        0,
        "check 1\nranks 2\ncapacity 4\ninstructions 4\nevents 10\nown 0\nprotocol 2\nrendezvous no\nend\n",
    ),
    (
        "check",
        ALL_WAIT,
        0,
        "check 1\nranks 10\ncapacity 20\ninstructions 20\nevents 20\nown 0\nprotocol 0\nrendezvous no\nend\n",
    ),
    (
        "check",
        SEVEN_WAIT,
        0,
        "check 1\nranks 10\ncapacity 20\ninstructions 14\nevents 14\nown 0\nprotocol 0\nrendezvous no\nend\n",
    ),
    (
        "check",
        CHAIN,
        0,
        "check 1\nranks 10\ncapacity 20\ninstructions 20\nevents 74\nown 0\nprotocol 18\nrendezvous yes\nend\n",
    ),
];

/// A circuit that fills its store.
const WIDEST: [Row; 1] = [(
    "mono amps",
    WIDEST_COPIES,
    0,
    "state 1\nranks 2\nprotocol 19\nscale 19\nbits 0 00000000\nbits 1 00000000\nlive 0.0\n0 1 0 0 0\nend\n",
)];

#[test]
fn ranks_come_to_their_state(rt: HostRuntime) -> Result<(), Fail> {
    try_rows(&rt, rt.alloc(), &STATES)
}

#[test]
fn a_run_that_is_refused_an_event_stops(rt: HostRuntime) -> Result<(), Fail> {
    try_rows(&rt, rt.alloc(), &STOPS)
}

#[test]
fn events_are_listed_behind_the_state_or_the_stop(rt: HostRuntime) -> Result<(), Fail> {
    try_rows(&rt, rt.alloc(), &TRACES)
}

#[test]
fn the_one_circuit_is_written_and_evaluated(rt: HostRuntime) -> Result<(), Fail> {
    try_rows(&rt, rt.alloc(), &CIRCUITS)?;
    try_rows(&rt, rt.alloc(), &WIDEST)
}
