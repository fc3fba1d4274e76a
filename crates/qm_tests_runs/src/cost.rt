//! Tests of qm_cost: rows that were worked out by hand, and reports beside all chains of short schedules.
use crate::fixtures::machine_of;
use qm_cost::{Delays, Link, MOST_DELAY, Report, cost};
use qm_denot::PlainAmps;
use qm_instr::{Input, Instr, Kind, Lane, event_count, receive_lane, send_lane};
use qm_machine::Machine;
use qm_proto::{Event, next_event};
use qm_ranks::{play_order, play_seed};
use std::alloc::{AllocError, Global};
use std::process::Abort;
use std::test::Fail;

/// A copy of a qubit in superposition.
const COPY: &str = "qmpi 1 ranks 2 qubits 1 buffer 1 \
    rank 0 alloc 0 h 0 copyto 0 1 7 end rank 1 copyfrom 0 0 7 end protocol 0 b1";

/// A pair that may wait for the bits that its receiver sets before.
const BUSY: &str = "qmpi 1 ranks 2 qubits 1 buffer 2 \
    rank 0 alloc 0 copyto 0 1 7 end rank 1 set 1 1 set 2 1 set 3 1 copyfrom 0 0 7 end protocol 0 b1";

/// A bit that is received behind three bits that are set.
const SENT: &str = "qmpi 1 ranks 2 qubits 1 buffer 1 \
    rank 0 set 0 1 sendbit 0 1 2 end rank 1 set 1 1 set 2 1 set 3 1 recvbit 0 0 2 end";

/// Two bits on one lane, between a bit back.
const TURNED: &str = "qmpi 1 ranks 2 qubits 1 buffer 1 \
    rank 0 sendbit 0 1 2 sendbit 1 1 2 recvbit 2 1 2 end rank 1 recvbit 0 0 2 sendbit 0 0 2 recvbit 1 0 2 end";

/// A qubit that is moved.
const MOVED: &str = "qmpi 1 ranks 2 qubits 1 buffer 1 \
    rank 0 alloc 0 moveto 0 1 7 end rank 1 movefrom 0 0 7 end protocol 0 b10";

/// A copy that is taken back.
const UNDONE: &str = "qmpi 1 ranks 2 qubits 1 buffer 1 \
    rank 0 alloc 0 copyto 0 1 7 undofrom 0 1 8 end rank 1 copyfrom 0 0 7 undoto 0 0 8 end protocol 0 b0 protocol 1 b0";

const fn delays(local: u32, pair: u32, bits: u32) -> Delays {
    Delays { local, pair, bits }
}

/// An event of a schedule, as its instruction tells it.
#[derive(Clone, Copy, Drop)]
struct Seen {
    rank: u32,
    event: Event,
    partner: Option<u32>,
    given: Option<Lane>,
    taken: Option<Lane>,
}

/// A rank's event number `k`, with its instruction.
fn event_of(input: &Input, rank: u16, k: u32) -> Option<(Instr, Event)> {
    if rank >= input.ranks() {
        return None;
    }
    let mut left = k;
    for j in 0..input.count(rank) {
        if let Some(i) = input.instr(rank, j) {
            let events = event_count(i);
            if left < events {
                return next_event(i, left).map(|event| (i, event));
            }
            left -= events;
        }
    }
    None
}

/// The lane of the parcel that an instruction's last event gives its bits.
fn given(rank: u16, i: Instr) -> Option<Lane> {
    match i {
        Instr::ReachFrom { from, tag, .. } => Some(Lane::new(rank, from, Kind::Back, tag)),
        _ => send_lane(rank, i),
    }
}

/// What a rank's event number `k` is.
fn look_up(input: &Input, rank: u32, k: u32) -> Option<Seen> {
    let short = u16::try_from(rank).ok()?;
    let (i, event) = event_of(input, short, k)?;
    let receiver = send_lane(short, i).map(|lane| u32::from(lane.to));
    let none = Seen {
        rank,
        event,
        partner: None,
        given: None,
        taken: None,
    };
    Some(match event {
        Event::Pair | Event::Test => Seen {
            partner: receiver,
            ..none
        },
        Event::Post | Event::SendBit => Seen {
            given: given(short, i),
            ..none
        },
        Event::Deliver | Event::RecvBit => Seen {
            taken: receive_lane(short, i),
            ..none
        },
        _ => none,
    })
}

/// All events of a schedule.
fn all_seen(alloc: Global, input: &Input, schedule: &[u32]) -> Result<Vec<Seen>, AllocError> {
    let mut all: Vec<Seen> = Vec::new(alloc);
    for rank in schedule {
        let mut before = 0u32;
        for s in &all {
            if s.rank == *rank {
                before = before.saturating_add(1);
            }
        }
        if let Some(next) = look_up(input, *rank, before) {
            all.push(next)?;
        }
    }
    Ok(all)
}

/// Whether no event between two is of the first one's rank.
fn is_last(all: &[Seen], i: usize, j: usize, rank: u32) -> bool {
    !all.iter()
        .enumerate()
        .any(|(k, s)| i < k && k < j && s.rank == rank)
}

/// How many of the first `n` events give bits on a lane.
fn given_before(all: &[Seen], n: usize, lane: Lane) -> usize {
    all.iter().take(n).filter(|s| s.given == Some(lane)).count()
}

/// How many of them take a parcel from it.
fn taken_before(all: &[Seen], n: usize, lane: Lane) -> usize {
    all.iter().take(n).filter(|s| s.taken == Some(lane)).count()
}

/// The lag between two events where the first comes directly before the second. The bits given n-th on a lane are taken n-th.
fn lag(all: &[Seen], i: usize, j: usize, bits: u32) -> Option<u32> {
    let (a, b) = (*all.get(i)?, *all.get(j)?);
    if let Some(lane) = a.given {
        if b.taken == Some(lane) && given_before(all, i, lane) == taken_before(all, j, lane) {
            return Some(bits);
        }
    }
    let follows = a.rank == b.rank || b.partner == Some(a.rank);
    if follows && is_last(all, i, j, a.rank) {
        Some(0)
    } else {
        None
    }
}

/// Whether some event comes directly before this one.
fn has_before(all: &[Seen], j: usize) -> bool {
    (0..j).any(|i| lag(all, i, j, 0).is_some())
}

/// How long an event takes.
fn duration(event: Event, delays: Delays) -> u32 {
    if event == Event::Pair {
        delays.pair
    } else {
        delays.local
    }
}

/// The lag at which a chain goes on to an event. `None` where it can't, or where it could begin before this event.
fn lag_behind(all: &[Seen], before: Option<usize>, j: usize, bits: u32) -> Option<u32> {
    match before {
        Some(i) => lag(all, i, j, bits),
        None if has_before(all, j) => None,
        None => Some(0),
    }
}

/// The chain of the events whose bits in `mask` are ones, the lowest for the first. `None` where they are no chain, or where it could begin
/// earlier.
fn chain_of(
    alloc: Global,
    all: &[Seen],
    mask: u32,
    delays: Delays,
) -> Result<Option<Vec<Link>>, AllocError> {
    let mut chain: Vec<Link> = Vec::new(alloc);
    let mut rest = mask;
    let mut before = None;
    let mut finish = 0u64;
    for (j, s) in all.iter().enumerate() {
        let is_in = rest % 2 == 1;
        rest /= 2;
        let Ok(at) = u32::try_from(j) else {
            return Ok(None);
        };
        if !is_in {
            continue;
        }
        let Some(lag) = lag_behind(all, before, j, delays.bits) else {
            return Ok(None);
        };
        finish = finish.saturating_add(u64::from(lag) + u64::from(duration(s.event, delays)));
        chain.push(Link {
            at,
            rank: s.rank,
            event: s.event,
            finish,
        })?;
        before = Some(j);
    }
    Ok((rest == 0).then_some(chain))
}

/// The time of a chain.
fn time_of(chain: &[Link]) -> u64 {
    match chain.last() {
        Some(link) => link.finish,
        None => 0,
    }
}

/// The longest of all chains of at most ten events. Of those that are as long the first by their masks: it ends at the lowest event, and
/// goes back to the lowest.
fn longest(alloc: Global, all: &[Seen], delays: Delays) -> Result<Vec<Link>, AllocError> {
    let mut best: Vec<Link> = Vec::new(alloc);
    for mask in 1..1024u32 {
        if let Some(chain) = chain_of(alloc, all, mask, delays)? {
            if best.is_empty() || time_of(&best) < time_of(&chain) {
                best = chain;
            }
        }
    }
    Ok(best)
}

/// The report on a machine's schedule.
fn report_of(
    rt: &impl Abort,
    alloc: Global,
    machine: &Machine<PlainAmps>,
    delays: Delays,
) -> Result<Report, AllocError> {
    assert!(rt;
        delays.local <= MOST_DELAY && delays.pair <= MOST_DELAY && delays.bits <= MOST_DELAY
    );
    cost(alloc, machine.ready(), machine.schedule(), delays)
}

#[test]
fn no_chain_is_longer(rt: HostRuntime) -> Result<(), Fail> {
    for text in [COPY, BUSY, SENT, TURNED, MOVED, UNDONE] {
        for seed in 0..20u64 {
            let mut machine = machine_of(&rt, rt.alloc(), text)?;
            play_seed(&mut machine, seed);
            let all = all_seen(rt.alloc(), machine.ready().input(), machine.schedule())?;
            assert_eq!(rt; all.len(), machine.schedule().len());
            for delays in [
                delays(1, 10, 5),
                delays(1, 1, 1),
                delays(2, 0, 3),
                delays(0, 0, 0),
            ] {
                let report = report_of(&rt, rt.alloc(), &machine, delays)?;
                let due = longest(rt.alloc(), &all, delays)?;
                assert_eq!(rt; report.chain(), due.as_slice());
                assert_eq!(rt; report.time(), time_of(&due));
            }
        }
    }
    Ok(())
}

/// A text that is played by the lowest rank, delays, the time, and the events of the chain.
#[derive(Clone, Copy)]
struct Row {
    text: &'static str,
    delays: Delays,
    time: u64,
    chain: &'static [u32],
}

/// Times that were worked out by hand.
fn rows() -> [Row; 7] {
    let row = |text, delays, time, chain| Row {
        text,
        delays,
        time,
        chain,
    };
    [
        row(COPY, delays(1, 10, 5), 21, &[0, 1, 2, 3, 4, 5, 6]),
        row(
            COPY,
            delays(1_000_000, 1_000_000, 1_000_000),
            8_000_000,
            &[0, 1, 2, 3, 4, 5, 6],
        ),
        row(COPY, delays(0, 0, 0), 0, &[0]),
        row(COPY, delays(0, 0, 3), 3, &[0, 1, 2, 3, 4, 5]),
        row(SENT, delays(1, 10, 5), 8, &[0, 1, 5]),
        row(SENT, delays(1, 10, 0), 4, &[2, 3, 4, 5]),
        row(SENT, delays(1, 10, 1), 4, &[0, 1, 5]),
    ]
}

#[test]
fn a_schedule_takes_this_time(rt: HostRuntime) -> Result<(), Fail> {
    for row in rows() {
        let mut machine = machine_of(&rt, rt.alloc(), row.text)?;
        play_order(&mut machine);
        let report = report_of(&rt, rt.alloc(), &machine, row.delays)?;
        assert_eq!(rt; report.time(), row.time);
        let chain: Vec<u32> = report
            .chain()
            .iter()
            .map(|link| link.at)
            .collect(rt.alloc())?;
        assert_eq!(rt; chain.as_slice(), row.chain);
    }
    Ok(())
}
