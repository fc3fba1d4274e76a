//! Programs that more than one table uses, and what they leave.

/// A qubit that is zero and one at once.
pub(super) const PLUS: &str = "qmpi 1 ranks 1 qubits 1 buffer 1 rank 0 alloc 0 h 0 end";

/// What it leaves.
pub(super) const PLUS_STATE: &str =
    "state 1\nranks 1\nprotocol 0\nscale 1\nbits 0 00000000\nlive 0.0\n0 1 0 0 0\n1 1 0 0 0\nend\n";

/// A copy from rank 0 to rank 1, whose tape says that the source's half is found to be 1, and the same with 0.
pub(super) const COPY_ONE: &str =
    "qmpi 1 ranks 2 qubits 1 buffer 1 rank 0 alloc 0 h 0 copyto 0 1 7 end rank 1 copyfrom 0 0 7 end protocol 0 b1";

pub(super) const COPY_ZERO: &str =
    "qmpi 1 ranks 2 qubits 1 buffer 1 rank 0 alloc 0 h 0 copyto 0 1 7 end rank 1 copyfrom 0 0 7 end protocol 0 b0";

/// What either copy leaves.
pub(super) const COPIED: &str =
    "state 1\nranks 2\nprotocol 1\nscale 2\nbits 0 00000000\nbits 1 00000000\nlive 0.0 1.0\n00 1 0 0 0\n11 1 0 0 0\nend\n";

/// The same, and the events of either copy, which have one order.
pub(super) const COPIED_IN_TURN: &str =
    "state 1\nranks 2\nprotocol 1\nscale 2\nbits 0 00000000\nbits 1 00000000\n\
        live 0.0 1.0\n00 1 0 0 0\n11 1 0 0 0\nend\n\
        turns 7\n0 alloc\n0 gate\n0 pair\n0 cx\n0 post\n1 deliver\n1 fix-x\nend\n";

/// Two ranks of eight events each, none of which waits.
pub(super) const EIGHT_EACH: &str =
    "qmpi 1 ranks 2 qubits 1 buffer 1 all for i in 0..8 { set 0 0 } end";

/// A copy that is given back to its source.
pub(super) const COPY_AND_BACK: &str =
    "qmpi 1 ranks 2 qubits 1 buffer 1 rank 0 alloc 0 h 0 copyto 0 1 7 undofrom 0 1 8 end \
        rank 1 copyfrom 0 0 7 undoto 0 0 8 end protocol 0 b1 protocol 1 b1";

/// What the copy that is given back leaves.
pub(super) const GIVEN_BACK: &str =
    "state 1\nranks 2\nprotocol 2\nscale 3\nbits 0 00000000\nbits 1 00000000\nlive 0.0\n0 1 0 0 0\n1 1 0 0 0\nend\n";

/// A bit and a qubit that go from rank 0 to rank 1, after a qubit that is measured, turned back and given up.
pub(super) const ONE_WAY: &str = "qmpi 1 ranks 2 qubits 1 buffer 1 \
        rank 0 alloc 0 x 0 measure 0 0 set 1 1 xor 1 0 when 0 x 0 free 0 \
        alloc 0 h 0 t 0 sendbit 0 1 2 moveto 0 1 1 end \
        rank 1 movefrom 0 0 1 recvbit 5 0 2 end own 0 b1 protocol 0 b11";

/// What they leave.
pub(super) const WENT_ONE_WAY: &str =
    "state 1\nranks 2\nprotocol 2\nscale 3\nbits 0 00000001\nbits 1 00000020\nlive 1.0\n0 1 0 0 0\n1 0 1 0 0\nend\n";

/// Two copies that are given back one after the other.
pub(super) const TWO_COPIES: &str = "qmpi 1 ranks 2 qubits 2 buffer 1 \
        rank 0 alloc 0 h 0 copyto 0 1 3 copyto 0 1 3 undofrom 0 1 4 undofrom 0 1 4 end \
        rank 1 copyfrom 0 0 3 copyfrom 1 0 3 undoto 0 0 4 undoto 1 0 4 end protocol 0 b10 protocol 1 b11";

/// A zero and a one that are copied from rank 0 to rank 1 on one lane, with room for both at once.
pub(super) const IN_FLIGHT: &str = "qmpi 1 ranks 2 qubits 2 buffer 3 \
        rank 0 alloc 0 alloc 1 x 1 copyto 0 1 3 copyto 1 1 3 end \
        rank 1 copyfrom 0 0 3 copyfrom 1 0 3 end protocol 0 b10";

/// What they leave.
pub(super) const LANDED: &str =
    "state 1\nranks 2\nprotocol 2\nscale 2\nbits 0 00000000\nbits 1 00000000\nlive 0.0 0.1 1.0 1.1\n0101 1 0 0 0\nend\n";

/// A state over four machines, by one broadcast.
pub(super) const BROADCAST: &str =
    "qmpi 1\nranks 4\nqubits 1\nbuffer 1\n# GHZ state over four machines\n\
        rank 0\n  alloc 0\n  h 0\n  bcast 0 0 5\nend\nrank 1\n  bcast 0 0 5\nend\n\
        rank 2\n  bcast 0 0 5\nend\nrank 3\n  bcast 0 0 5\nend\nprotocol 0 b101\n";

/// What the broadcast leaves.
pub(super) const BROADCAST_STATE: &str = "state 1\nranks 4\n\
        protocol 3\nscale 4\nbits 0 00000000\nbits 1 00000000\nbits 2 00000000\nbits 3 00000000\n\
        live 0.0 1.0 2.0 3.0\n0000 1 0 0 0\n1111 1 0 0 0\nend\n";

/// The same copies along a tree: rank 0 makes those of the ranks 1 and 2, and rank 1 that of rank 3.
pub(super) const TREE: &str = "qmpi 2 ranks 4 qubits 1 1 1 1 buffer 1 1 1 1 \
        rank 0 alloc 0 h 0 treecast 0 0 5 end rank 1 treecast 0 0 5 end \
        rank 2 treecast 0 0 5 end rank 3 treecast 0 0 5 end protocol 0 b10 protocol 1 b1";

/// Copies along a tree from rank 2, which go back.
pub(super) const TREE_UNDONE: &str = "qmpi 2 ranks 4 qubits 1 1 1 1 buffer 1 1 1 1 \
        rank 0 treecast 0 2 5 untreecast 0 2 6 end rank 1 treecast 0 2 5 untreecast 0 2 6 end \
        rank 2 alloc 0 h 0 treecast 0 2 5 untreecast 0 2 6 end rank 3 treecast 0 2 5 untreecast 0 2 6 end \
        protocol 0 b1 protocol 1 b0 protocol 2 b11 protocol 3 b01";

/// What they leave.
pub(super) const TREE_UNDONE_STATE: &str = "state 1\nranks 4\nprotocol 6\nscale 7\n\
        bits 0 00000000\nbits 1 00000000\nbits 2 00000000\nbits 3 00000000\n\
        live 2.0\n0 1 0 0 0\n1 1 0 0 0\nend\n";

/// Copies along a tree from rank 3, which each rank turns before they go back: by 1, 2, 4, 2, 7 and 1 eighths, 17 in all.
pub(super) const TREE_TURNED: &str = "qmpi 2 ranks 5 qubits 1 1 1 1 1 buffer 1 2 1 1 2 \
        rank 0 treecast 0 3 5 tdg 0 untreecast 0 3 6 end rank 1 treecast 0 3 5 s 0 untreecast 0 3 6 end \
        rank 2 treecast 0 3 5 t 0 untreecast 0 3 6 end rank 3 alloc 0 h 0 t 0 treecast 0 3 5 s 0 untreecast 0 3 6 end \
        rank 4 treecast 0 3 5 z 0 untreecast 0 3 6 end \
        protocol 0 b1 protocol 1 b0 protocol 2 b1 protocol 3 b01 protocol 4 b110";

/// What they leave: the qubit, turned by one eighth.
pub(super) const TREE_TURNED_STATE: &str = "state 1\nranks 5\nprotocol 8\nscale 9\n\
        bits 0 00000000\nbits 1 00000000\nbits 2 00000000\nbits 3 00000000\nbits 4 00000000\n\
        live 3.0\n0 1 0 0 0\n1 0 1 0 0\nend\n";

/// Two ranks that each wait for the other.
pub(super) const BOTH_WAIT: &str =
    "qmpi 1 ranks 2 qubits 1 buffer 1 rank 0 copyfrom 0 1 1 copyto 0 1 1 end \
        rank 1 copyfrom 0 0 1 copyto 0 0 1 end protocol 0 b0 protocol 1 b0";

/// Copies that are given up one after another.
pub(super) const MANY_COPIES: &str =
    "qmpi 1 ranks 2 qubits 1 buffer 1 rank 0 alloc 0 for i in 0..25 { copyto 0 1 1 } end \
        rank 1 for i in 0..25 { copyfrom 0 0 1 free 0 } end protocol 0 b0000000000000000000000000";

/// As many copies as the one circuit has room for beside their source, and one more.
pub(super) const WIDEST_COPIES: &str =
    "qmpi 1 ranks 2 qubits 1 buffer 1 rank 0 alloc 0 for i in 0..19 { copyto 0 1 1 } end \
        rank 1 for i in 0..19 { copyfrom 0 0 1 free 0 } end protocol 0 b0000000000000000000";

pub(super) const ONE_COPY_MORE: &str =
    "qmpi 1 ranks 2 qubits 1 buffer 1 rank 0 alloc 0 for i in 0..20 { copyto 0 1 1 } end \
        rank 1 for i in 0..20 { copyfrom 0 0 1 free 0 } end protocol 0 b00000000000000000000";

/// A qubit that is turned again and again, until a numerator is too large.
pub(super) const TURNED_OUT: &str =
    "qmpi 1 ranks 1 qubits 1 buffer 1 rank 0 alloc 0 for i in 0..2000 { h 0 t 0 } end";

/// Each of ten ranks, the most that a text may have, waits for the next one's bit before it sends its own.
pub(super) const ALL_WAIT: &str =
    "qmpi 1 ranks 10 qubits 1 buffer 1 all recvbit 0 (rank + 1) % 10 1 sendbit 0 (rank + 9) % 10 1 end";

/// The same in a ring of the last seven ranks; the others have no instruction.
pub(super) const SEVEN_WAIT: &str = "qmpi 1 ranks 10 qubits 1 buffer 1 \
        all for i in 0..(rank + 6) / 9 { \
        recvbit 0 3 + (rank - 2) % 7 1 sendbit 0 3 + (rank + 3) % 7 1 } end";

/// A qubit is moved from the first of ten ranks through all others to the last one.
pub(super) const CHAIN: &str = "qmpi 1 ranks 10 qubits 1 buffer 1 \
        all for i in rank..1 { alloc 0 h 0 } \
        for i in 0..(rank + 9) / 10 { movefrom 0 rank - 1 1 } \
        for i in 0..(18 - rank) / 10 { moveto 0 rank + 1 1 } end \
        protocol 0 b00 protocol 1 b00 protocol 2 b00 protocol 3 b00 protocol 4 b00 \
        protocol 5 b00 protocol 6 b00 protocol 7 b00 protocol 8 b00";
