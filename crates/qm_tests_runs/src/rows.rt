//! Runs of programs: what each step answers, and what the machine shows at last. All of it was worked out by hand.

/// A program with several ends of its text, and how its machine goes.
#[derive(Clone, Copy)]
pub(crate) struct Run {
    /// The text, but for its end.
    pub(crate) text: &'static str,
    /// The ranks that are stepped, a digit for each; after that the lowest that goes on is, until none does.
    pub(crate) turns: &'static str,
    /// What these steps answer, each with how many halves rank 0 and rank 1 hold after it.
    pub(crate) answers: &'static str,
    /// Ends of the text, and what the machine shows at last.
    pub(crate) ends: &'static [(&'static str, &'static str)],
}

/// Every gate, on the first or on both of two qubits that are turned by `h t` and by `h s`: each leaves other amplitudes.
const GATES: Run = Run {
    text: "qmpi 1 ranks 1 qubits 2 buffer 1 rank 0 alloc 0 alloc 1 h 0 t 0 h 1 s 1 ",
    turns: "0000000",
    answers: "Alloc 00 Alloc 00 Gate 00 Gate 00 Gate 00 Gate 00 Gate 00 ",
    ends: &[
        (
            "x 0 end",
            "AllEnded; events 7; letters 5; paulis 1; bits 0; exponent 2; wires 2; 0.0 0.1; \
                |00> 0 1 0 0; |01> 0 0 0 1; |10> 1 0 0 0; |11> 0 0 1 0",
        ),
        (
            "z 0 end",
            "AllEnded; events 7; letters 5; paulis 1; bits 0; exponent 2; wires 2; 0.0 0.1; \
                |00> 1 0 0 0; |01> 0 0 1 0; |10> 0 -1 0 0; |11> 0 0 0 -1",
        ),
        (
            "h 0 end",
            "AllEnded; events 7; letters 5; paulis 0; bits 0; exponent 3; wires 2; 0.0 0.1; \
                |00> 1 1 0 0; |01> 0 0 1 1; |10> 1 -1 0 0; |11> 0 0 1 -1",
        ),
        (
            "s 0 end",
            "AllEnded; events 7; letters 5; paulis 0; bits 0; exponent 2; wires 2; 0.0 0.1; \
                |00> 1 0 0 0; |01> 0 0 1 0; |10> 0 0 0 1; |11> 0 -1 0 0",
        ),
        (
            "sdg 0 end",
            "AllEnded; events 7; letters 5; paulis 0; bits 0; exponent 2; wires 2; 0.0 0.1; \
                |00> 1 0 0 0; |01> 0 0 1 0; |10> 0 0 0 -1; |11> 0 1 0 0",
        ),
        (
            "t 0 end",
            "AllEnded; events 7; letters 5; paulis 0; bits 0; exponent 2; wires 2; 0.0 0.1; \
                |00> 1 0 0 0; |01> 0 0 1 0; |10> 0 0 1 0; |11> -1 0 0 0",
        ),
        (
            "tdg 0 end",
            "AllEnded; events 7; letters 5; paulis 0; bits 0; exponent 2; wires 2; 0.0 0.1; \
                |00> 1 0 0 0; |01> 0 0 1 0; |10> 1 0 0 0; |11> 0 0 1 0",
        ),
        (
            "cx 0 1 end",
            "AllEnded; events 7; letters 5; paulis 0; bits 0; exponent 2; wires 2; 0.0 0.1; \
                |00> 1 0 0 0; |01> 0 0 1 0; |10> 0 0 0 1; |11> 0 1 0 0",
        ),
        (
            "cx 1 0 end",
            "AllEnded; events 7; letters 5; paulis 0; bits 0; exponent 2; wires 2; 0.0 0.1; \
                |00> 1 0 0 0; |01> 0 0 0 1; |10> 0 1 0 0; |11> 0 0 1 0",
        ),
        (
            "cz 0 1 end",
            "AllEnded; events 7; letters 5; paulis 0; bits 0; exponent 2; wires 2; 0.0 0.1; \
                |00> 1 0 0 0; |01> 0 0 1 0; |10> 0 1 0 0; |11> 0 0 0 -1",
        ),
    ],
};

/// Rank 0 copies a qubit to rank 1.
const COPY_TEXT: &str =
    "qmpi 1 ranks 2 qubits 1 buffer 1 rank 0 alloc 0 h 0 copyto 0 1 7 end rank 1 copyfrom 0 0 7 end protocol 0 ";

/// It does so by either outcome.
const COPY: Run = Run {
    text: COPY_TEXT,
    turns: "000001101",
    answers: "Alloc 00 Gate 00 Pair 11 Cross 11 Post 01 Deliver 00 FixX 00 Ended 00 Ended 00 ",
    ends: &[
        (
            "b0",
            "AllEnded; events 7; letters 4; paulis 0; bits 0 0; exponent 2; wires 2; 0.0 1.0; |00> 1 0 0 0; |11> 1 0 0 0",
        ),
        (
            "b1",
            "AllEnded; events 7; letters 5; paulis 1; bits 0 0; exponent 2; wires 2; 0.0 1.0; |00> 1 0 0 0; |11> 1 0 0 0",
        ),
    ],
};

/// A receive waits for a parcel, and for the parcel's bits.
const EARLY_RECEIVE: Run = Run {
    text: COPY_TEXT,
    turns: "1000101001",
    answers: "LaneEmpty 00 Alloc 00 Gate 00 Pair 11 LaneEmpty 11 Cross 11 LaneEmpty 11 Post 01 Ended 01 Deliver 00 ",
    ends: &[(
        "b1",
        "AllEnded; events 7; letters 5; paulis 1; bits 0 0; exponent 2; wires 2; 0.0 1.0; |00> 1 0 0 0; |11> 1 0 0 0",
    )],
};

/// Rank 1 makes a qubit before it takes a copy: a buffer of one has no room but for a half that is wanted.
const LATE_COPY: Run = Run {
    text: "qmpi 1 ranks 2 qubits 2 buffer 1 rank 0 alloc 0 copyto 0 1 7 end \
        rank 1 alloc 0 copyfrom 1 0 7 end protocol 0 b0",
    turns: "00101",
    answers: "Alloc 00 NoRoom 00 Alloc 00 Pair 11 LaneEmpty 11 ",
    ends: &[(
        "",
        "AllEnded; events 7; letters 3; paulis 0; bits 0 0; exponent 1; wires 3; 0.0 1.0 1.1; |000> 1 0 0 0",
    )],
};

/// Two ranks copy to each other before they take the other's copy: a buffer of two holds a half of each kind.
const CROSSED: Run = Run {
    text: "qmpi 1 ranks 2 qubits 2 buffer 2 rank 0 alloc 0 copyto 0 1 7 copyfrom 1 1 7 end \
        rank 1 alloc 0 h 0 copyto 0 0 7 copyfrom 1 0 7 end protocol 0 b1 protocol 1 b0",
    turns: "0110001110011",
    answers: "Alloc 00 Alloc 00 Gate 00 Pair 11 Cross 11 Post 01 Pair 12 Cross 12 Post 11 \
        Deliver 01 FixX 01 Deliver 00 FixX 00 ",
    ends: &[(
        "",
        "AllEnded; events 13; letters 8; paulis 1; bits 0 0; exponent 3; wires 4; 0.0 0.1 1.0 1.1; \
                |0000> 1 0 0 0; |0110> 1 0 0 0",
    )],
};

/// Copies of a zero and of a one lie on one lane before the first is taken: they come in the order in which they went.
const TWO_ON_A_LANE: Run = Run {
    text: "qmpi 1 ranks 2 qubits 3 buffer 3 rank 0 alloc 0 alloc 1 x 1 copyto 0 1 7 copyto 1 1 7 end \
        rank 1 alloc 2 copyfrom 0 0 7 copyfrom 1 0 7 end protocol 0 b10",
    turns: "00000000011111",
    answers: "Alloc 00 Alloc 00 Gate 00 Pair 11 Cross 11 Post 01 Pair 12 Cross 12 Post 02 \
        Alloc 02 Deliver 01 FixX 01 Deliver 00 FixX 00 ",
    ends: &[(
        "",
        "AllEnded; events 14; letters 8; paulis 2; bits 0 0; exponent 2; wires 5; 0.0 0.1 1.0 1.1 1.2; |01010> 1 0 0 0",
    )],
};

/// Rank 0 copies a zero eight times to rank 1, which makes a qubit before it takes them and gives each up: seven halves fill a buffer of
/// eight, whose last place is kept for one that is wanted.
const EIGHT_COPIES: Run = Run {
    text: "qmpi 1 ranks 2 qubits 2 buffer 8 rank 0 alloc 0 for i in 0..8 { copyto 0 1 7 } end \
        rank 1 alloc 0 for i in 0..8 { copyfrom 1 0 7 free 1 } end protocol 0 b00000000",
    turns: "000000000000000000000001010",
    answers: "Alloc 00 Pair 11 Cross 11 Post 01 Pair 12 Cross 12 Post 02 Pair 13 Cross 13 Post 03 \
        Pair 14 Cross 14 Post 04 Pair 15 Cross 15 Post 05 Pair 16 Cross 16 Post 06 Pair 17 Cross 17 Post 07 \
        NoRoom 07 Alloc 07 NoRoom 07 Deliver 06 Pair 17 ",
    ends: &[(
        "",
        "AllEnded; events 50; letters 32; paulis 0; bits 0 0; exponent 8; wires 2; 0.0 1.0; |00> 1 0 0 0",
    )],
};

/// Rank 0 moves a turned qubit to rank 1, by every outcome.
const MOVE: Run = Run {
    text: "qmpi 1 ranks 2 qubits 1 buffer 1 rank 0 alloc 0 h 0 t 0 moveto 0 1 7 end \
        rank 1 movefrom 0 0 7 end protocol 0 ",
    turns: "00000000111",
    answers: "Alloc 00 Gate 00 Gate 00 Pair 11 Cross 11 Had 11 Near 01 Post 01 Deliver 00 FixX 00 FixZ 00 ",
    ends: &[
        (
            "b00",
            "AllEnded; events 11; letters 7; paulis 0; bits 0 0; exponent 3; wires 1; 1.0; |0> 1 0 0 0; |1> 0 1 0 0",
        ),
        (
            "b01",
            "AllEnded; events 11; letters 8; paulis 1; bits 0 0; exponent 3; wires 1; 1.0; |0> 1 0 0 0; |1> 0 1 0 0",
        ),
        (
            "b10",
            "AllEnded; events 11; letters 8; paulis 1; bits 0 0; exponent 3; wires 1; 1.0; |0> 1 0 0 0; |1> 0 1 0 0",
        ),
        (
            "b11",
            "AllEnded; events 11; letters 9; paulis 2; bits 0 0; exponent 3; wires 1; 1.0; |0> 1 0 0 0; |1> 0 1 0 0",
        ),
    ],
};

/// Rank 0 lends a copy of a turned qubit to rank 1, which turns it and gives it back, by every outcome.
const LOAN: Run = Run {
    text: "qmpi 1 ranks 2 qubits 1 buffer 1 rank 0 alloc 0 h 0 t 0 copyto 0 1 7 undofrom 0 1 8 end \
        rank 1 copyfrom 0 0 7 s 0 undoto 0 0 8 end ",
    turns: "0000001111100",
    answers: "Alloc 00 Gate 00 Gate 00 Pair 11 Cross 11 Post 01 Deliver 00 FixX 00 Gate 00 Test 00 Post 00 \
        Deliver 00 FixZ 00 ",
    ends: &[
        (
            "protocol 0 b0 protocol 1 b0",
            "AllEnded; events 13; letters 8; paulis 0; bits 0 0; exponent 3; wires 1; 0.0; |0> 1 0 0 0; |1> 0 0 0 1",
        ),
        (
            "protocol 0 b0 protocol 1 b1",
            "AllEnded; events 13; letters 9; paulis 1; bits 0 0; exponent 3; wires 1; 0.0; |0> 1 0 0 0; |1> 0 0 0 1",
        ),
        (
            "protocol 0 b1 protocol 1 b0",
            "AllEnded; events 13; letters 9; paulis 1; bits 0 0; exponent 3; wires 1; 0.0; |0> 1 0 0 0; |1> 0 0 0 1",
        ),
        (
            "protocol 0 b1 protocol 1 b1",
            "AllEnded; events 13; letters 10; paulis 2; bits 0 0; exponent 3; wires 1; 0.0; |0> 1 0 0 0; |1> 0 0 0 1",
        ),
    ],
};

/// Rank 0's qubit controls a flip of rank 1's, by every outcome.
const REACH: Run = Run {
    text: "qmpi 1 ranks 2 qubits 1 buffer 1 rank 0 alloc 0 h 0 s 0 reachto 0 1 9 h 0 end \
        rank 1 alloc 0 t 0 h 0 reachfrom 0 0 9 t 0 end ",
    turns: "111000000111111000",
    answers: "Alloc 00 Gate 00 Gate 00 Alloc 00 Gate 00 Gate 00 Pair 11 Cross 11 Post 01 \
        Deliver 01 FixX 01 Cross 01 Had 01 Post 00 Gate 00 Deliver 00 FixZ 00 Gate 00 ",
    ends: &[
        (
            "protocol 0 b0 protocol 1 b0",
            "AllEnded; events 18; letters 12; paulis 0; bits 0 0; exponent 4; wires 2; 0.0 1.0; \
                |00> 0 1 0 0; |01> 0 0 1 0; |10> 0 0 0 -1; |11> 1 0 0 0",
        ),
        (
            "protocol 0 b0 protocol 1 b1",
            "AllEnded; events 18; letters 13; paulis 1; bits 0 0; exponent 4; wires 2; 0.0 1.0; \
                |00> 0 1 0 0; |01> 0 0 1 0; |10> 0 0 0 -1; |11> 1 0 0 0",
        ),
        (
            "protocol 0 b1 protocol 1 b0",
            "AllEnded; events 18; letters 13; paulis 1; bits 0 0; exponent 4; wires 2; 0.0 1.0; \
                |00> 0 1 0 0; |01> 0 0 1 0; |10> 0 0 0 -1; |11> 1 0 0 0",
        ),
        (
            "protocol 0 b1 protocol 1 b1",
            "AllEnded; events 18; letters 14; paulis 2; bits 0 0; exponent 4; wires 2; 0.0 1.0; \
                |00> 0 1 0 0; |01> 0 0 1 0; |10> 0 0 0 -1; |11> 1 0 0 0",
        ),
    ],
};

/// Rank 0 lends copies of two qubits to rank 1, which gives them back on one lane: the second waits until the source of the first has
/// taken it back.
const TWO_LOANS: Run = Run {
    text: "qmpi 1 ranks 2 qubits 2 buffer 1 rank 0 alloc 0 alloc 1 h 0 h 1 t 1 \
        copyto 0 1 7 copyto 1 1 7 undofrom 0 1 8 undofrom 1 1 8 end \
        rank 1 copyfrom 0 0 7 copyfrom 1 0 7 undoto 0 0 8 undoto 1 0 8 end protocol 0 b10 protocol 1 b01",
    turns: "000000001100011111010",
    answers: "Alloc 00 Alloc 00 Gate 00 Gate 00 Gate 00 Pair 11 Cross 11 Post 01 Deliver 00 FixX 00 \
        Pair 11 Cross 11 Post 01 Deliver 00 FixX 00 \
        Test 00 Post 00 PartnerElsewhere 00 Deliver 00 PartnerElsewhere 00 FixZ 00 ",
    ends: &[(
        "",
        "AllEnded; events 23; letters 15; paulis 2; bits 0 0; exponent 6; wires 2; 0.0 0.1; \
                |00> 1 0 0 0; |01> 0 1 0 0; |10> 1 0 0 0; |11> 0 1 0 0",
    )],
};

/// A rank copies a turned qubit to its next one, measures it and gives the next one up.
const MEASURED: Run = Run {
    text: "qmpi 1 ranks 1 qubits 2 buffer 1 rank 0 alloc 0 h 0 alloc 1 cx 0 1 measure 0 0 free 1 end own 0 b0",
    turns: "000000",
    answers: "Alloc 00 Gate 00 Alloc 00 Gate 00 Measure 00 Free 00 ",
    ends: &[(
        "",
        "AllEnded; events 6; letters 4; paulis 0; bits 0; exponent 1; wires 1; 0.0; |0> 1 0 0 0",
    )],
};

/// Two qubits are measured into bits of other numbers than their slots, by both outcomes.
const TWO_MEASURED: Run = Run {
    text: "qmpi 1 ranks 1 qubits 2 buffer 1 rank 0 alloc 0 h 0 alloc 1 h 1 measure 1 3 measure 0 5 end own 0 ",
    turns: "000000",
    answers: "Alloc 00 Gate 00 Alloc 00 Gate 00 Measure 00 Measure 00 ",
    ends: &[
        (
            "b01",
            "AllEnded; events 6; letters 4; paulis 0; bits 20; exponent 2; wires 2; 0.0 0.1; |10> 1 0 0 0",
        ),
        (
            "b10",
            "AllEnded; events 6; letters 4; paulis 0; bits 8; exponent 2; wires 2; 0.0 0.1; |01> 1 0 0 0",
        ),
    ],
};

/// A bit is set and cleared again, another one set alone.
const CLEARED: Run = Run {
    text: "qmpi 1 ranks 1 qubits 1 buffer 1 rank 0 alloc 0 set 6 1 set 9 1 set 6 0 when 6 h 0 when 9 x 0 end",
    turns: "000000",
    answers: "Alloc 00 Set 00 Set 00 Set 00 When 00 When 00 ",
    ends: &[(
        "",
        "AllEnded; events 6; letters 1; paulis 1; bits 200; exponent 0; wires 1; 0.0; |1> 1 0 0 0",
    )],
};

/// What a measured bit and its opposite do to another qubit.
const OPPOSITES: Run = Run {
    text: "qmpi 1 ranks 1 qubits 2 buffer 1 rank 0 alloc 0 h 0 measure 0 3 alloc 1 when 3 h 1 \
        set 4 1 xor 3 4 when 3 x 1 xor 3 4 end own 0 ",
    turns: "000000000",
    answers: "Alloc 00 Gate 00 Measure 00 Alloc 00 When 00 Set 00 Xor 00 When 00 Xor 00 ",
    ends: &[
        (
            "b0",
            "AllEnded; events 9; letters 3; paulis 1; bits 10; exponent 1; wires 2; 0.0 0.1; |01> 1 0 0 0",
        ),
        (
            "b1",
            "AllEnded; events 9; letters 3; paulis 0; bits 18; exponent 2; wires 2; 0.0 0.1; |10> 1 0 0 0; |11> 1 0 0 0",
        ),
    ],
};

/// Rank 0 measures a qubit and sends the bit to rank 1, which flips a new qubit by it.
const SENT_BIT: Run = Run {
    text: "qmpi 1 ranks 2 qubits 1 buffer 1 rank 0 alloc 0 h 0 measure 0 0 sendbit 0 1 2 end \
        rank 1 recvbit 5 0 2 alloc 0 when 5 x 0 end own 0 b1",
    turns: "10000111",
    answers: "LaneEmpty 00 Alloc 00 Gate 00 Measure 00 SendBit 00 RecvBit 00 Alloc 00 When 00 ",
    ends: &[(
        "",
        "AllEnded; events 7; letters 3; paulis 1; bits 1 20; exponent 1; wires 2; 0.0 1.0; |11> 1 0 0 0",
    )],
};

/// The bit that is sent is neither bit 0 nor equal to it.
const SENT_OTHER_BIT: Run = Run {
    text: "qmpi 1 ranks 2 qubits 1 buffer 1 rank 0 alloc 0 h 0 measure 0 2 xor 0 2 set 3 1 xor 0 3 sendbit 2 1 2 end \
        rank 1 recvbit 5 0 2 alloc 0 when 5 x 0 end own 0 ",
    turns: "0000000111",
    answers: "Alloc 00 Gate 00 Measure 00 Xor 00 Set 00 Xor 00 SendBit 00 RecvBit 00 Alloc 00 When 00 ",
    ends: &[
        (
            "b0",
            "AllEnded; events 10; letters 2; paulis 0; bits 9 0; exponent 1; wires 2; 0.0 1.0; |00> 1 0 0 0",
        ),
        (
            "b1",
            "AllEnded; events 10; letters 3; paulis 1; bits c 20; exponent 1; wires 2; 0.0 1.0; |11> 1 0 0 0",
        ),
    ],
};

/// Rank 1 flips its copy, or turns it, before it gives it back: what differs is not given back.
const CHANGED_LOAN: Run = Run {
    text: "qmpi 1 ranks 2 qubits 1 buffer 1 rank 0 alloc 0 ",
    turns: "0",
    answers: "Alloc 00 ",
    ends: &[
        (
            "copyto 0 1 7 undofrom 0 1 8 end rank 1 copyfrom 0 0 7 x 0 undoto 0 0 8 end protocol 0 b1 protocol 1 b1",
            "Halted { halt: Halt { rank: 1, turns: 7, cause: NotEqual } }; events 7; letters 5; paulis 2; bits 0 0; \
                exponent 1; wires 2; 0.0 1.0; |01> 1 0 0 0",
        ),
        (
            "h 0 copyto 0 1 7 undofrom 0 1 8 end rank 1 copyfrom 0 0 7 h 0 undoto 0 0 8 end protocol 0 b1 protocol 1 b1",
            "Halted { halt: Halt { rank: 1, turns: 8, cause: NotEqual } }; events 8; letters 6; paulis 1; bits 0 0; \
                exponent 3; wires 2; 0.0 1.0; |00> 1 0 0 0; |01> 1 0 0 0; |10> 1 0 0 0; |11> -1 0 0 0",
        ),
    ],
};

/// A zero is not measured as one, nor a one as zero.
const IMPOSSIBLE: Run = Run {
    text: "qmpi 1 ranks 1 qubits 1 buffer 1 rank 0 alloc 0 ",
    turns: "0",
    answers: "Alloc 00 ",
    ends: &[
        (
            "measure 0 0 end own 0 b1",
            "Halted { halt: Halt { rank: 0, turns: 1, cause: Impossible } }; events 1; letters 0; paulis 0; bits 0; \
                exponent 0; wires 1; 0.0; |0> 1 0 0 0",
        ),
        (
            "x 0 measure 0 0 end own 0 b0",
            "Halted { halt: Halt { rank: 0, turns: 2, cause: Impossible } }; events 2; letters 1; paulis 1; bits 0; \
                exponent 0; wires 1; 0.0; |1> 1 0 0 0",
        ),
        (
            "x 0 measure 0 0 end own 0 b1",
            "AllEnded; events 3; letters 2; paulis 1; bits 1; exponent 0; wires 1; 0.0; |1> 1 0 0 0",
        ),
    ],
};

/// A rank gives up a one, and a qubit that is zero in one branch alone.
const NOT_ZERO: Run = Run {
    text: "qmpi 1 ranks 1 qubits 2 buffer 1 rank 0 alloc 0 ",
    turns: "0",
    answers: "Alloc 00 ",
    ends: &[
        (
            "x 0 free 0 end",
            "Halted { halt: Halt { rank: 0, turns: 2, cause: NotZero } }; events 2; letters 1; paulis 1; bits 0; \
                exponent 0; wires 1; 0.0; |1> 1 0 0 0",
        ),
        (
            "h 0 alloc 1 cx 0 1 free 1 end",
            "Halted { halt: Halt { rank: 0, turns: 4, cause: NotZero } }; events 4; letters 2; paulis 0; bits 0; \
                exponent 1; wires 2; 0.0 0.1; |00> 1 0 0 0; |11> 1 0 0 0",
        ),
    ],
};

/// Each of two ranks copies before it takes the other's copy: buffers of one have no room for the pairs.
const NO_ROOM: Run = Run {
    text: "qmpi 1 ranks 2 qubits 2 buffer 1 rank 0 alloc 0 copyto 0 1 7 copyfrom 1 1 7 end \
        rank 1 alloc 0 copyto 0 0 7 copyfrom 1 0 7 end protocol 0 b0 protocol 1 b1",
    turns: "0010",
    answers: "Alloc 00 NoRoom 00 Alloc 00 Halted 00 ",
    ends: &[(
        "",
        "Halted { halt: Halt { rank: 0, turns: 2, cause: Stuck } }; events 2; letters 0; paulis 0; bits 0 0; \
                exponent 0; wires 2; 0.0 1.0; |00> 1 0 0 0",
    )],
};

/// Each of two ranks waits for the other's copy before it copies: the lowest rank is named, whichever was stepped.
const BOTH_WAIT: Run = Run {
    text: "qmpi 1 ranks 2 qubits 1 buffer 1 rank 0 copyfrom 0 1 7 copyto 0 1 7 end \
        rank 1 copyfrom 0 0 7 copyto 0 0 7 end protocol 0 b0 protocol 1 b0",
    turns: "10",
    answers: "Halted 00 Halted 00 ",
    ends: &[(
        "",
        "Halted { halt: Halt { rank: 0, turns: 0, cause: Stuck } }; events 0; letters 0; paulis 0; bits 0 0; \
                exponent 0; wires 0;; |> 1 0 0 0",
    )],
};

/// A qubit that is turned again and again: after 507 turns by `h` and `t` a Hadamard leaves the range of the numbers.
const TURNED_OUT: Run = Run {
    text: "qmpi 1 ranks 2 qubits 1 buffer 1 rank 0 alloc 0 for i in 0..",
    turns: "01",
    answers: "Alloc 00 Ended 00 ",
    ends: &[
        (
            "507 { h 0 t 0 } end rank 1 end",
            "AllEnded; events 1015; letters 1014; paulis 0; bits 0 0; exponent 254; wires 1; 0.0; \
                |0> -51859242397211193115999174108272989609 -46218791473626433609317957079098668842 \
                -57603659887114578921737762514812886777 70807199753960797981779046425906919331; \
                |1> 0 18947957356749604865779872317633929722 -122770408717490617396835591911545485341 \
                18947957356749604865779872317633929722",
        ),
        (
            "508 { h 0 t 0 } end rank 1 end",
            "Halted { halt: Halt { rank: 0, turns: 1015, cause: Overflow } }; events 1015; letters 1014; paulis 0; bits 0 0; \
                exponent 254; wires 1; 0.0; \
                |0> -51859242397211193115999174108272989609 -46218791473626433609317957079098668842 \
                -57603659887114578921737762514812886777 70807199753960797981779046425906919331; \
                |1> 0 18947957356749604865779872317633929722 -122770408717490617396835591911545485341 \
                18947957356749604865779872317633929722",
        ),
    ],
};

/// All runs.
pub(crate) fn runs() -> [Run; 23] {
    [
        GATES,
        COPY,
        EARLY_RECEIVE,
        LATE_COPY,
        CROSSED,
        TWO_ON_A_LANE,
        EIGHT_COPIES,
        MOVE,
        LOAN,
        REACH,
        TWO_LOANS,
        MEASURED,
        TWO_MEASURED,
        CLEARED,
        OPPOSITES,
        SENT_BIT,
        SENT_OTHER_BIT,
        CHANGED_LOAN,
        IMPOSSIBLE,
        NOT_ZERO,
        NO_ROOM,
        BOTH_WAIT,
        TURNED_OUT,
    ]
}
