//! The instructions of each collective, one by one.
ghost use Rattle.std.specs.Prelude.{◌<◌, All, IsTrue};
ghost use Rattle.qm_collect.specs.Table.{root_of, slots_of};

use qm_collect::{Collective, count, instr_at};
use qm_instr::{Gate, Instr};
use qm_limits::{MOST_RANKS, SLOTS};
use std::process::Abort;

/// Whether the root is one of so many ranks, and the slots are such as a rank may have.
fn fits(which: Collective, ranks: u16) -> bool
    ensures root { IsTrue result → root_of which < ranks }
    ensures slots { IsTrue result → All (λ q. q < SLOTS) (slots_of which) }
{
    match which {
        Collective::Bcast { q, root, .. }
        | Collective::Unbcast { q, root, .. }
        | Collective::Scatter { q, root, .. }
        | Collective::Gather { q, root, .. }
        | Collective::Unscatter { q, root, .. }
        | Collective::Ungather { q, root, .. } => root < ranks && q < SLOTS,
        Collective::Reduce { q, t, root, .. } | Collective::Unreduce { q, t, root, .. } => {
            root < ranks && q < SLOTS && t < SLOTS
        }
    }
}

/// A rank has just these instructions.
fn does(rt: &impl Abort, which: Collective, rank: u16, ranks: u16, wanted: &[Instr]) {
    assert!(rt; rank < ranks && ranks <= MOST_RANKS && fits(which, ranks) && wanted.len() < 100);
    for (j, i) in wanted.iter().enumerate() {
        assert!(rt; instr_at(which, rank, ranks, j as u32) == Some(*i), "{i:?}");
    }
    let long = wanted.len() as u32;
    assert!(rt; count(which, rank, ranks) == long, "rank {rank}");
    assert!(rt; instr_at(which, rank, ranks, long).is_none(), "rank {rank}");
}

#[test]
fn each_of_three_ranks_does_its_part(rt: HostRuntime) {
    let (q, t, root, tag) = (4, 5, 1, 9);
    let copies = [
        Instr::CopyTo { q, to: 0, tag },
        Instr::CopyTo { q, to: 2, tag },
    ];
    let taken = [
        Instr::UndoFrom { q, from: 0, tag },
        Instr::UndoFrom { q, from: 2, tag },
    ];
    let dealt = [
        Instr::MoveTo { q, to: 0, tag },
        Instr::MoveTo { q: 6, to: 2, tag },
    ];
    let gathered = [
        Instr::MoveFrom { q, from: 0, tag },
        Instr::MoveFrom { q: 6, from: 2, tag },
    ];
    let crossed = [
        Instr::Do {
            g: Gate::Cx { c: 4, t: 5 },
        },
        Instr::ReachFrom { t, from: 0, tag },
        Instr::ReachFrom { t, from: 2, tag },
    ];
    let copied = Instr::CopyFrom { q, from: 1, tag };
    let given_up = Instr::UndoTo { q, to: 1, tag };
    let received = Instr::MoveFrom { q, from: 1, tag };
    let sent = Instr::MoveTo { q, to: 1, tag };
    let lent = Instr::ReachTo { q, to: 1, tag };
    // what the root does, and what each other rank does
    let rows: [(Collective, &[Instr], Instr); 8] = [
        (Collective::Bcast { q, root, tag }, &copies, copied),
        (Collective::Unbcast { q, root, tag }, &taken, given_up),
        (Collective::Scatter { q, root, tag }, &dealt, received),
        (Collective::Ungather { q, root, tag }, &dealt, received),
        (Collective::Gather { q, root, tag }, &gathered, sent),
        (Collective::Unscatter { q, root, tag }, &gathered, sent),
        (Collective::Reduce { q, t, root, tag }, &crossed, lent),
        (Collective::Unreduce { q, t, root, tag }, &crossed, lent),
    ];
    for (which, at_root, elsewhere) in rows {
        does(&rt, which, 0, 3, &[elsewhere]);
        does(&rt, which, 1, 3, at_root);
        does(&rt, which, 2, 3, &[elsewhere]);
    }
}

#[test]
fn one_rank_has_no_messages_and_sixteen_have_fifteen(rt: HostRuntime) {
    let (q, root, tag) = (0, 0, 0);
    let own = Instr::Do {
        g: Gate::Cx { c: 0, t: 1 },
    };
    does(&rt, Collective::Bcast { q, root, tag }, 0, 1, &[]);
    does(&rt, Collective::Reduce { q, t: 1, root, tag }, 0, 1, &[own]);
    let (q, root, tag) = (15, 15, 65_535);
    let wide = Collective::Scatter { q, root, tag };
    let last = Instr::MoveTo { q: 29, to: 14, tag };
    assert!(rt; count(wide, 15, 16) == 15);
    assert!(rt; instr_at(wide, 15, 16, 14) == Some(last));
    for past in [15, 4_294_967_295] {
        assert!(rt; instr_at(wide, 15, 16, past).is_none());
        assert!(rt; instr_at(wide, 14, 16, past).is_none());
    }
}
