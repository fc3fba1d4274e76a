//! The body of a machine: its books and its store, and one method for each act.
ghost use Rattle.std.specs.Prelude.{◌≡◌, ℕ, ◌<◌, ◌+◌, ◌^◌, ◌↔◌, true, [], ◌∷◌, ◌++◌, length, OnOk, OnErr, IsErr, IfOk};
ghost use Rattle.qm_denot.specs.Circuits.{Circuit};
ghost use Rattle.qm_denot.specs.Parcels.{IsFillable};
ghost use Rattle.qm_denot.specs.Stores.{StandsFor, Overflows, MayGrow, MayApply, live_after};
ghost use Rattle.qm_instr.specs.Programs.{IsInRange};
ghost use Rattle.qm_mail.specs.Mails.{sends_on};
ghost use Rattle.qm_proto.specs.declared.Act.TheVariants.{Fresh, Twin, Apply, SlotOut, NearOut, FarOut, Settle, Posts, Fills, Receives, OwnUsed, ProtocolUsed, FirstKept, BitSet};
ghost use Rattle.qm_machine.specs.Facts.{with_rank_moved, is_pauli, sizes_of, IsAtStart};
ghost use Rattle.qm_machine.specs.Tries.{MayGrowBy, AllOverflow};

use crate::books::Books;
use crate::rank::Rank;
use qm_buffers::Halves;
use qm_check::Ready;
use qm_denot::{Amps, Letter, Overflow, Wire};
use qm_instr::{Input, Lane};
use qm_mail::Mail;
use qm_owner::{Place, Places};
use qm_proto::{Act, Parcel};
use std::alloc::{AllocError, Global};

/// Books and store, and how many letters were done.
#[derive(Drop)]
pub(crate) struct Body<A: Amps> {
    pub(crate) books: Books,
    amps: A,
    letters: u64,
    paulis: u64,
}

/// Whether the letter is a correction: a `Flip`, or the `Phase` of a sign.
fn is_pauli(letter: Letter) -> bool
    ensures { result ≡ is_pauli letter }
{
    matches!(letter, Letter::Flip { .. } | Letter::Phase { k: 4, .. })
}

/// The sizes of the ranks' buffers, in the order of their numbers. `AllocError` comes from the allocator alone.
fn buffer_sizes(alloc: Global, input: &Input) -> Result<Vec<u8>, AllocError>
    ensures { IfOk result (λ v. v.items ≡ sizes_of input.now) }
{
    let mut sizes = Vec::with_capacity(alloc, usize::from(input.ranks()))?;
    for rank in 0..input.ranks() {
        sizes.push_reserved(input.buffer(rank));
    }
    Ok(sizes)
}

impl<A: Amps> Body<A> {
    ghost use Rattle.qm_machine.specs.Views.{facts, tables, rank_count, MayAct, Acted, IsUnchanged};

    /// The body of ready programs before their first event. All its memory is taken here; `AllocError` comes from the allocator alone.
    pub(crate) fn start(alloc: Global, ready: &Ready, amps: A) -> Result<Body<A>, AllocError>
        requires { (A.store amps).live ≡ [] }
        ensures start { IfOk result (λ b. IsAtStart ready.now (A.store amps) (facts A.store b)) }
        ensures in_range { OnOk result (IsInRange ready.now) }
        ensures kept { IfOk result (λ b. b.amps ≡ amps) }
    {
        let input = ready.input();
        let mut ranks = Vec::with_capacity(alloc, usize::from(input.ranks()))?;
        for rank in 0..input.ranks() {
            ranks.push_reserved(Rank::start(alloc, input.own(rank), input.protocol(rank))?);
        }
        let sizes = buffer_sizes(alloc, input)?;
        Ok(Body {
            books: Books {
                ranks,
                places: Places::start(alloc, input.ranks(), ready.capacity())?,
                halves: Halves::start(&sizes),
                mail: Mail::start(alloc, ready.lanes())?,
            },
            amps,
            letters: 0,
            paulis: 0,
        })
    }

    /// The store.
    pub(crate) fn amps(&self) -> &A
        ensures { result.now ≡ self.now.amps }
    {
        &self.amps
    }

    /// How many letters were done.
    pub(crate) fn letters(&self) -> u64
        ensures { result ≡ self.now.letters }
    {
        self.letters
    }

    /// How many of them were Pauli letters.
    pub(crate) fn paulis(&self) -> u64
        ensures { result ≡ self.now.paulis }
    {
        self.paulis
    }

    /// Puts a fresh wire into a rank's slot.
    fn fresh(&mut self, rank: u16, q: u8)
        requires able { A.able }
        requires can { MayAct A.store self.old rank (Fresh q) }
        ensures { Acted A.store self.old rank (Fresh q) self.new }
    {
        let w = self.books.far_made(rank);
        self.amps.fresh(w);
        self.books.places.put(w, Place::Slot { rank, q });
        self.books.ranks[usize::from(rank)].count_wire();
    }

    /// Prepares an EPR pair: the near half at a rank, the far half at another.
    fn twin(&mut self, rank: u16, to: u16)
        requires able { A.able }
        requires can { MayAct A.store self.old rank (Twin to) }
        requires grow { MayGrow (A.store self.old.amps) }
        ensures { Acted A.store self.old rank (Twin to) self.new }
    {
        let f = self.books.far_made(rank);
        let e = Wire { near: true, ..f };
        do_letter(&mut self.amps, Letter::Pair { a: e, b: f });
        self.books.places.put(e, Place::Near { rank });
        self.books.places.put(f, Place::Far { rank: to });
        self.books.halves.add(rank);
        self.books.halves.add(to);
        self.books.ranks[usize::from(rank)].count_wire();
        self.letters += 1;
    }

    /// Does a letter that moves no wire. `Overflow` comes exactly where a `Had` leaves the range; nothing is changed then.
    fn letter(&mut self, rank: u16, letter: Letter) -> Result<(), Overflow>
        requires able { A.able }
        requires can { MayAct A.store self.old rank (Apply letter) }
        requires grow { MayGrowBy (Apply letter) (A.store self.old.amps) }
        ensures ok { OnOk result (Acted A.store self.old rank (Apply letter) self.new) }
        ensures overflow { IsErr result ↔ Overflows letter (A.store self.old.amps) }
        ensures err { OnErr result (IsUnchanged A.store self.old self.new) }
    {
        match self.amps.apply(letter) {
            Ok(()) => {
                self.letters += 1;
                self.paulis += u64::from(is_pauli(letter));
                Ok(())
            }
            Err(refused) => Err(refused),
        }
    }

    /// Measures the near half that a rank made last away, with this outcome.
    fn near_out(&mut self, rank: u16, m: bool)
        requires able { A.able }
        requires can { MayAct A.store self.old rank (NearOut m) }
        ensures { Acted A.store self.old rank (NearOut m) self.new }
    {
        let w = self.books.near_last(rank);
        do_letter(&mut self.amps, Letter::Take { w, m });
        self.books.places.take(w);
        self.books.halves.drop_half(rank);
        self.letters += 1;
    }

    /// Measures the wire in a rank's slot away, with this outcome.
    fn slot_out(&mut self, rank: u16, q: u8, m: bool)
        requires able { A.able }
        requires can { MayAct A.store self.old rank (SlotOut q m) }
        ensures { Acted A.store self.old rank (SlotOut q m) self.new }
    {
        if let Some(w) = self.books.slot(rank, q) {
            do_letter(&mut self.amps, Letter::Take { w, m });
            self.books.places.take(w);
            self.letters += 1;
        }
    }

    /// Measures a rank's far half away, with this outcome.
    fn far_out(&mut self, rank: u16, f: Wire, m: bool)
        requires able { A.able }
        requires can { MayAct A.store self.old rank (FarOut f m) }
        ensures { Acted A.store self.old rank (FarOut f m) self.new }
    {
        do_letter(&mut self.amps, Letter::Take { w: f, m });
        self.books.places.take(f);
        self.books.halves.drop_half(rank);
        self.letters += 1;
    }

    /// Puts a rank's far half into its slot; it is no half any more.
    fn settle(&mut self, rank: u16, f: Wire, q: u8)
        requires { MayAct A.store self.old rank (Settle f q) }
        ensures { Acted A.store self.old rank (Settle f q) self.new }
    {
        self.books.places.shift(f, Place::Slot { rank, q });
        self.books.halves.drop_half(rank);
    }

    /// Puts a parcel at a lane's end.
    fn post(&mut self, lane: Lane, parcel: Parcel)
        requires { length ((tables self.old.books).lanes lane) < sends_on self.old.books.mail lane }
        ensures { let a = Posts lane parcel in
            (r : ℕ) → MayAct A.store self.old r a → Acted A.store self.old r a self.new }
    {
        self.books.mail.post(lane, parcel);
    }

    /// Gives a lane's last parcel its bits.
    fn fill(&mut self, lane: Lane, bits: (bool, bool))
        requires { IsFillable ((tables self.old.books).lanes lane) }
        ensures { let a = Fills lane bits in
            (r : ℕ) → MayAct A.store self.old r a → Acted A.store self.old r a self.new }
    {
        self.books.mail.fill(lane, bits);
    }

    /// Takes a lane's front parcel, which the rank keeps.
    fn receive(&mut self, rank: u16, lane: Lane)
        requires { MayAct A.store self.old rank (Receives lane) }
        ensures { Acted A.store self.old rank (Receives lane) self.new }
    {
        let parcel = self.books.mail.take(lane);
        self.books.ranks[usize::from(rank)].receive(parcel);
    }

    /// Uses the next outcome of a rank's protocol tape.
    fn use_protocol(&mut self, rank: u16)
        requires { MayAct A.store self.old rank ProtocolUsed }
        ensures { Acted A.store self.old rank ProtocolUsed self.new }
    {
        self.books.ranks[usize::from(rank)].use_protocol();
    }

    /// Uses the next outcome of a rank's own tape.
    fn use_own(&mut self, rank: u16)
        requires { MayAct A.store self.old rank OwnUsed }
        ensures { Acted A.store self.old rank OwnUsed self.new }
    {
        self.books.ranks[usize::from(rank)].use_own();
    }

    /// Keeps the first outcome of a rank's move.
    fn keep_first(&mut self, rank: u16, m: bool)
        requires { MayAct A.store self.old rank (FirstKept m) }
        ensures { Acted A.store self.old rank (FirstKept m) self.new }
    {
        self.books.ranks[usize::from(rank)].keep_first(m);
    }

    /// Sets a rank's bit.
    fn set_bit(&mut self, rank: u16, b: u8, v: bool)
        requires { MayAct A.store self.old rank (BitSet b v) }
        ensures { Acted A.store self.old rank (BitSet b v) self.new }
    {
        self.books.ranks[usize::from(rank)].set_bit(b, v);
    }

    /// Does an act. `Overflow` comes exactly where it is a `Had` that leaves the range; nothing is changed then.
    pub(crate) fn act(&mut self, rank: u16, act: Act) -> Result<(), Overflow>
        requires able { A.able }
        requires can { MayAct A.store self.old rank act }
        requires grow { MayGrowBy act (A.store self.old.amps) }
        ensures ok { OnOk result (Acted A.store self.old rank act self.new) }
        ensures overflow { IsErr result ↔ AllOverflow (act ∷ []) (A.store self.old.amps) }
        ensures err { OnErr result (IsUnchanged A.store self.old self.new) }
    {
        match act {
            Act::Apply { letter } => return self.letter(rank, letter),
            Act::Fresh { q } => self.fresh(rank, q),
            Act::Twin { to } => self.twin(rank, to),
            Act::SlotOut { q, m } => self.slot_out(rank, q, m),
            Act::NearOut { m } => self.near_out(rank, m),
            Act::FarOut { f, m } => self.far_out(rank, f, m),
            Act::Settle { f, q } => self.settle(rank, f, q),
            Act::Posts { lane, parcel } => self.post(lane, parcel),
            Act::Fills { lane, bits } => self.fill(lane, bits),
            Act::Receives { lane } => self.receive(rank, lane),
            Act::OwnUsed => self.use_own(rank),
            Act::ProtocolUsed => self.use_protocol(rank),
            Act::FirstKept { m } => self.keep_first(rank, m),
            Act::BitSet { b, v } => self.set_bit(rank, b, v),
        }
        Ok(())
    }

    /// A rank goes on to the next event of its instruction, which has so many.
    pub(crate) fn move_on(&mut self, rank: u16, events: u32)
        requires known { rank < rank_count self.old.books }
        requires at { ((tables self.old.books).parts rank).at + 1 < 2 ^ 32 }
        requires stage { ((tables self.old.books).parts rank).stage + 1 < 2 ^ 32 }
        ensures { facts A.store self.new ≡ with_rank_moved (facts A.store self.old) rank events }
    {
        self.books.ranks[usize::from(rank)].move_on(events);
    }
}

/// Does a letter that is never refused.
fn do_letter<A: Amps>(amps: &mut A, letter: Letter)
    requires able { A.able }
    requires may { MayApply letter (A.store amps.old) }
    requires never { ¬ (Overflows letter (A.store amps.old)) }
    ensures stands { (c : Circuit) → StandsFor (A.store amps.old) c
        → StandsFor (A.store amps.new) (c ++ letter ∷ []) }
    ensures live { (A.store amps.new).live ≡ live_after letter (A.store amps.old).live }
    ensures capacity { (A.store amps.new).capacity ≡ (A.store amps.old).capacity }
{
    match amps.apply(letter) {
        Ok(()) => {}
        Err(_) => unreachable!(),
    }
}
