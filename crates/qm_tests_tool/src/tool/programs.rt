//! Programs of every kind of message, whose measured bits can be, and whose uncopies and frees are lawful in every order.
use std::alloc::{AllocError, Global};

/// A program but for the size of its buffers and its protocol tapes.
pub(super) struct Program {
    /// How many ranks it has, and how many slots each.
    pub(super) sizes: (u8, u8),
    /// The ranks' blocks, and their own tapes.
    pub(super) body: &'static str,
    /// How many protocol outcomes each rank takes.
    pub(super) taken: [u8; 4],
    /// The narrowest buffers with which it ends, and the widest that it is given.
    pub(super) buffers: (u32, u32),
    /// Whether its rendezvous run ends, so that no order gets stuck with any buffers.
    pub(super) meets: bool,
    /// What it leaves, where that was worked out by hand.
    pub(super) due: Option<&'static str>,
}

impl Program {
    /// How many protocol outcomes there are.
    pub(super) fn outcomes(&self) -> u32 {
        let [first, second, third, fourth] = self.taken;
        u32::from(first) + u32::from(second) + u32::from(third) + u32::from(fourth)
    }

    /// The text with buffers of this size, and with the lowest bits of a number as its protocol tapes.
    pub(super) fn text(
        &self,
        alloc: Global,
        buffer: u32,
        number: u32,
    ) -> Result<String, AllocError> {
        let (ranks, qubits) = self.sizes;
        let mut text = format!(in alloc;
            "qmpi 1 ranks {ranks} qubits {qubits} buffer {buffer} {}",
            self.body
        )?;
        let mut left = number;
        for (rank, taken) in self.taken.iter().enumerate() {
            if *taken > 0 {
                text.push_str(format!(in alloc; " protocol {rank} b")?.as_str())?;
            }
            for _ in 0..*taken {
                text.push(if left % 2 == 1 { '1' } else { '0' })?;
                left /= 2;
            }
        }
        Ok(text)
    }
}

/// Three ranks with three slots leave buffers of 4 no room in a capacity of 20.
pub(super) const PROGRAMS: [Program; 26] = [
    Program {
        sizes: (4, 1),
        body: "rank 0 alloc 0 h 0 bcast 0 0 5 end rank 1 bcast 0 0 5 end rank 2 bcast 0 0 5 t 0 end rank 3 bcast 0 0 5 end",
        taken: [3, 0, 0, 0],
        buffers: (1, 4),
        meets: true,
        due: None,
    },
    Program {
        sizes: (3, 1),
        body: "rank 0 alloc 0 h 0 t 0 bcast 0 0 5 unbcast 0 0 6 h 0 end \
                rank 1 bcast 0 0 5 z 0 unbcast 0 0 6 end rank 2 bcast 0 0 5 s 0 unbcast 0 0 6 end",
        taken: [2, 1, 1, 0],
        buffers: (1, 4),
        meets: true,
        due: None,
    },
    Program {
        sizes: (3, 2),
        body: "rank 0 alloc 0 alloc 1 h 0 reduce 0 1 0 2 end \
                rank 1 alloc 0 h 0 t 0 reduce 0 0 0 2 h 0 end rank 2 alloc 0 x 0 reduce 0 0 0 2 end",
        taken: [2, 1, 1, 0],
        buffers: (1, 4),
        meets: true,
        due: None,
    },
    Program {
        sizes: (3, 1),
        body: "rank 0 alloc 0 h 0 t 0 moveto 0 1 1 movefrom 0 2 1 h 0 end \
                rank 1 movefrom 0 0 1 s 0 moveto 0 2 1 end rank 2 movefrom 0 1 1 x 0 moveto 0 0 1 end",
        taken: [2, 2, 2, 0],
        buffers: (1, 4),
        meets: true,
        due: None,
    },
    Program {
        sizes: (2, 1),
        body: "rank 0 alloc 0 h 0 t 0 reachto 0 1 9 h 0 end rank 1 alloc 0 h 0 s 0 h 0 reachfrom 0 0 9 t 0 h 0 end",
        taken: [1, 1, 0, 0],
        buffers: (1, 4),
        meets: true,
        due: None,
    },
    Program {
        sizes: (2, 1),
        body: "rank 0 alloc 0 h 0 measure 0 3 sendbit 3 1 2 copyto 0 1 4 end \
                rank 1 recvbit 5 0 2 copyfrom 0 0 4 when 5 h 0 t 0 end own 0 b1",
        taken: [1, 0, 0, 0],
        buffers: (1, 4),
        meets: true,
        due: None,
    },
    Program {
        sizes: (2, 1),
        body: "rank 0 alloc 0 h 0 copyto 0 1 7 undofrom 0 1 8 t 0 h 0 end rank 1 copyfrom 0 0 7 s 0 undoto 0 0 8 end",
        taken: [1, 1, 0, 0],
        buffers: (1, 4),
        meets: true,
        due: None,
    },
    Program {
        sizes: (2, 2),
        body: "rank 0 alloc 0 h 0 copyto 0 1 3 copyto 0 1 3 undofrom 0 1 4 undofrom 0 1 4 end \
                rank 1 copyfrom 0 0 3 copyfrom 1 0 3 t 1 undoto 0 0 4 undoto 1 0 4 end",
        taken: [2, 2, 0, 0],
        buffers: (1, 4),
        meets: true,
        due: None,
    },
    Program {
        sizes: (3, 3),
        body: "rank 0 alloc 0 alloc 1 alloc 2 h 0 h 1 cx 1 2 t 2 scatter 0 0 3 gather 0 0 4 h 2 end \
                rank 1 scatter 0 0 3 t 0 gather 0 0 4 end rank 2 scatter 0 0 3 h 0 gather 0 0 4 end",
        taken: [4, 2, 2, 0],
        buffers: (1, 3),
        meets: true,
        due: None,
    },
    Program {
        sizes: (2, 2),
        body: "rank 0 alloc 0 x 0 moveto 0 1 1 movefrom 1 1 2 h 1 end rank 1 alloc 0 h 0 t 0 movefrom 1 0 1 moveto 0 0 2 h 1 end",
        taken: [2, 2, 0, 0],
        buffers: (1, 4),
        meets: true,
        due: None,
    },
    Program {
        sizes: (4, 1),
        body: "all for i in rank..1 { alloc 0 h 0 t 0 } \
                for i in 0..(rank + size - 1) / size { movefrom 0 rank - 1 1 } s 0 h 0 \
                for i in 0..(2 * size - rank - 2) / size { moveto 0 rank + 1 1 } end",
        taken: [2, 2, 2, 0],
        buffers: (1, 4),
        meets: true,
        due: None,
    },
    Program {
        sizes: (2, 2),
        body: "rank 0 alloc 0 h 0 for i in 0..3 { t 0 reachto 0 1 i h 0 } end \
                rank 1 alloc 0 alloc 1 h 1 for i in 0..3 { reachfrom 0 0 i cx 1 0 } end",
        taken: [3, 3, 0, 0],
        buffers: (1, 4),
        meets: true,
        due: None,
    },
    Program {
        sizes: (4, 1),
        body: "all for i in 0..(1 - (rank - 2) * (rank - 2)) { alloc 0 h 0 t 0 } bcast 0 2 1 s 0 unbcast 0 2 2 end",
        taken: [1, 1, 3, 1],
        buffers: (2, 2),
        meets: true,
        due: Some(
            "state 1\nranks 4\nprotocol 6\nscale 7\nbits 0 00000000\nbits 1 00000000\nbits 2 00000000\n\
                bits 3 00000000\nlive 2.0\n0 1 0 0 0\n1 0 1 0 0\nend\n",
        ),
    },
    Program {
        sizes: (2, 1),
        body: "rank 0 set 2 1 sendbit 2 1 5 recvbit 7 1 6 end rank 1 recvbit 9 0 5 xor 1 9 sendbit 1 0 6 end",
        taken: [0, 0, 0, 0],
        buffers: (1, 1),
        meets: true,
        due: Some(
            "state 1\nranks 2\nprotocol 0\nscale 0\nbits 0 00000084\nbits 1 00000202\nlive\n- 1 0 0 0\nend\n",
        ),
    },
    Program {
        sizes: (2, 2),
        body: "rank 0 alloc 0 copyto 0 1 1 copyfrom 1 1 1 end rank 1 alloc 0 h 0 copyto 0 0 1 copyfrom 1 0 1 end",
        taken: [1, 1, 0, 0],
        buffers: (2, 2),
        meets: false,
        due: Some(
            "state 1\nranks 2\nprotocol 2\nscale 3\nbits 0 00000000\nbits 1 00000000\nlive 0.0 0.1 1.0 1.1\n\
                0000 1 0 0 0\n0110 1 0 0 0\nend\n",
        ),
    },
    Program {
        sizes: (2, 4),
        body: "rank 0 alloc 0 h 0 copyto 0 1 1 copyto 0 1 2 copyto 0 1 3 end \
                    rank 1 alloc 0 t 0 copyfrom 1 0 1 copyfrom 2 0 2 copyfrom 3 0 3 end",
        taken: [3, 0, 0, 0],
        buffers: (3, 3),
        meets: true,
        due: Some(
            "state 1\nranks 2\nprotocol 3\nscale 4\nbits 0 00000000\nbits 1 00000000\nlive 0.0 1.0 1.1 1.2 1.3\n\
                00000 1 0 0 0\n10111 1 0 0 0\nend\n",
        ),
    },
    Program {
        sizes: (1, 2),
        body: "rank 0 alloc 0 h 0 alloc 1 cx 0 1 measure 0 0 free 1 end own 0 b0",
        taken: [0, 0, 0, 0],
        buffers: (1, 1),
        meets: true,
        due: Some(
            "state 1\nranks 1\nprotocol 0\nscale 1\nbits 0 00000000\nlive 0.0\n0 1 0 0 0\nend\n",
        ),
    },
    Program {
        sizes: (2, 1),
        body: "rank 0 alloc 0 h 0 t 0 moveto 0 1 7 end rank 1 movefrom 0 0 7 end",
        taken: [2, 0, 0, 0],
        buffers: (1, 1),
        meets: true,
        due: Some(
            "state 1\nranks 2\nprotocol 2\nscale 3\nbits 0 00000000\nbits 1 00000000\nlive 1.0\n0 1 0 0 0\n1 0 1 0 0\n\
                end\n",
        ),
    },
    Program {
        sizes: (2, 1),
        body: "rank 0 alloc 0 h 0 s 0 reachto 0 1 9 h 0 end rank 1 alloc 0 t 0 h 0 reachfrom 0 0 9 t 0 end",
        taken: [1, 1, 0, 0],
        buffers: (1, 1),
        meets: true,
        due: Some(
            "state 1\nranks 2\nprotocol 2\nscale 4\nbits 0 00000000\nbits 1 00000000\nlive 0.0 1.0\n00 0 1 0 0\n\
                01 0 0 1 0\n10 0 0 0 -1\n11 1 0 0 0\nend\n",
        ),
    },
    Program {
        sizes: (2, 2),
        body: "rank 0 alloc 0 h 0 reachto 0 1 9 copyto 0 1 4 end rank 1 alloc 0 reachfrom 0 0 9 copyfrom 1 0 4 end",
        taken: [2, 1, 0, 0],
        buffers: (1, 1),
        meets: true,
        due: Some(
            "state 1\nranks 2\nprotocol 3\nscale 4\nbits 0 00000000\nbits 1 00000000\nlive 0.0 1.0 1.1\n000 1 0 0 0\n\
                111 1 0 0 0\nend\n",
        ),
    },
    Program {
        sizes: (3, 2),
        body: "all alloc 0 h 0 for i in 0..(1 - rank) { alloc 1 } reduce 0 1 0 4 unreduce 0 1 0 5 end",
        taken: [4, 2, 2, 0],
        buffers: (1, 1),
        meets: true,
        due: Some(
            "state 1\nranks 3\nprotocol 8\nscale 11\nbits 0 00000000\nbits 1 00000000\nbits 2 00000000\n\
                live 0.0 0.1 1.0 2.0\n0000 1 0 0 0\n0001 1 0 0 0\n0010 1 0 0 0\n0011 1 0 0 0\n1000 1 0 0 0\n\
                1001 1 0 0 0\n1010 1 0 0 0\n1011 1 0 0 0\nend\n",
        ),
    },
    Program {
        sizes: (3, 4),
        body: "all for i in 0..(1 - rank) { for k in 0..3 { alloc k h k } t 1 s 2 cx 0 1 } scatter 0 0 1 t 0 gather 0 0 2 end",
        taken: [4, 2, 2, 0],
        buffers: (1, 1),
        meets: true,
        due: Some(
            "state 1\nranks 3\nprotocol 8\nscale 11\nbits 0 00000000\nbits 1 00000000\nbits 2 00000000\n\
                live 0.0 0.1 0.2\n000 1 0 0 0\n001 0 0 0 1\n010 0 0 1 0\n011 0 -1 0 0\n100 0 0 1 0\n101 0 -1 0 0\n\
                110 0 0 1 0\n111 0 -1 0 0\nend\n",
        ),
    },
    Program {
        sizes: (3, 2),
        body: "rank 0 alloc 0 h 0 t 0 moveto 0 1 1 movefrom 1 2 1 end \
                    rank 1 alloc 0 x 0 moveto 0 2 1 movefrom 1 0 1 end \
                    rank 2 alloc 0 h 0 s 0 moveto 0 0 1 movefrom 1 1 1 end",
        taken: [2, 2, 2, 0],
        buffers: (2, 2),
        meets: false,
        due: Some(
            "state 1\nranks 3\nprotocol 6\nscale 8\nbits 0 00000000\nbits 1 00000000\nbits 2 00000000\n\
                live 0.1 1.1 2.1\n001 1 0 0 0\n011 0 1 0 0\n101 0 0 1 0\n111 0 0 0 1\nend\n",
        ),
    },
    Program {
        sizes: (2, 2),
        body: "rank 0 alloc 0 alloc 1 h 0 h 1 t 1 copyto 0 1 3 copyto 1 1 3 \
                    undofrom 0 1 4 undofrom 1 1 4 end \
                    rank 1 copyfrom 0 0 3 copyfrom 1 0 3 undoto 0 0 4 undoto 1 0 4 end",
        taken: [2, 2, 0, 0],
        buffers: (1, 1),
        meets: true,
        due: Some(
            "state 1\nranks 2\nprotocol 4\nscale 6\nbits 0 00000000\nbits 1 00000000\nlive 0.0 0.1\n00 1 0 0 0\n\
                01 0 1 0 0\n10 1 0 0 0\n11 0 1 0 0\nend\n",
        ),
    },
    Program {
        sizes: (2, 1),
        body: "rank 0 alloc 0 h 0 t 0 copyto 0 1 7 undofrom 0 1 8 end rank 1 copyfrom 0 0 7 s 0 undoto 0 0 8 end",
        taken: [1, 1, 0, 0],
        buffers: (1, 1),
        meets: true,
        due: Some(
            "state 1\nranks 2\nprotocol 2\nscale 3\nbits 0 00000000\nbits 1 00000000\nlive 0.0\n0 1 0 0 0\n1 0 0 0 1\n\
                end\n",
        ),
    },
    Program {
        sizes: (2, 1),
        body: "all set 0 1 sendbit 0 1 - rank 1 recvbit 1 1 - rank 1 end",
        taken: [0, 0, 0, 0],
        buffers: (1, 3),
        meets: true,
        due: None,
    },
];

/// Programs of which some order is stuck with buffers of one, and maybe with wider ones; 4 where it is so under `plain` up to 3.
pub(super) const CROSSED: [Program; 7] = [
    Program {
        sizes: (2, 2),
        body: "rank 0 alloc 0 copyto 0 1 1 copyfrom 1 1 1 end rank 1 alloc 0 copyto 0 0 1 copyfrom 1 0 1 end",
        taken: [1, 1, 0, 0],
        buffers: (2, 3),
        meets: false,
        due: None,
    },
    Program {
        sizes: (2, 2),
        body: "rank 0 alloc 0 moveto 0 1 1 movefrom 1 1 1 end rank 1 alloc 0 moveto 0 0 1 movefrom 1 0 1 end",
        taken: [2, 2, 0, 0],
        buffers: (2, 3),
        meets: false,
        due: None,
    },
    Program {
        sizes: (3, 2),
        body: "all alloc 0 copyto 0 (rank + 1) % size 1 copyfrom 1 (rank + 2) % size 1 end",
        taken: [1, 1, 1, 0],
        buffers: (2, 3),
        meets: false,
        due: None,
    },
    Program {
        sizes: (2, 1),
        body: "rank 0 copyfrom 0 1 1 copyto 0 1 1 end rank 1 copyfrom 0 0 1 copyto 0 0 1 end",
        taken: [1, 1, 0, 0],
        buffers: (4, 3),
        meets: false,
        due: None,
    },
    Program {
        sizes: (2, 2),
        body: "all alloc 0 alloc 1 reachto 0 1 - rank 1 reachfrom 1 1 - rank 1 end",
        taken: [2, 2, 0, 0],
        buffers: (4, 3),
        meets: false,
        due: None,
    },
    Program {
        sizes: (2, 1),
        body: "all recvbit 0 1 - rank 1 sendbit 0 1 - rank 1 end",
        taken: [0, 0, 0, 0],
        buffers: (4, 3),
        meets: false,
        due: None,
    },
    Program {
        sizes: (2, 2),
        body: "rank 0 alloc 0 copyto 0 1 1 copyfrom 1 1 1 undoto 1 1 2 undofrom 0 1 2 end \
            rank 1 alloc 0 copyfrom 1 0 1 copyto 0 0 1 undoto 1 0 2 undofrom 0 0 2 end",
        taken: [2, 2, 0, 0],
        buffers: (4, 3),
        meets: false,
        due: None,
    },
];

/// Two ranks send five copies each to the third, which measures each and gives it up. Its buffer fills up, whatever its size.
pub(super) const FILLING: Program = Program {
    sizes: (3, 2),
    body: "rank 0 alloc 0 h 0 for i in 0..5 { copyto 0 2 i } end \
        rank 1 alloc 0 h 0 for i in 0..5 { copyto 0 2 i } end \
        rank 2 for i in 0..5 { \
        copyfrom 0 0 i copyfrom 1 1 i measure 0 0 measure 1 1 free 0 free 1 } end own 2 b0000000000",
    taken: [5, 5, 0, 0],
    buffers: (1, 4),
    meets: true,
    due: None,
};
