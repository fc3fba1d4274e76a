//! The one circuit of programs, to which every complete schedule comes.

ghost use Rattle.qm_simulation.specs.Headline.{HeadlineLaw};

/// Whatever the order of the ranks, a complete schedule of programs without a fault comes to their one circuit, which knows no pairs, no
/// buffers and no protocol outcomes. The circuit of its letters equals that one, divided by root2 once for each outcome of the protocol
/// tapes; the same wires stand in slots, and the same bits are set. Neither circuit is zero, so the reduced form of the schedule's circuit
/// has the numbers of the one circuit's, and an exponent that is larger by the protocol total.
pub fn headline_law()
    ensures { HeadlineLaw }
{}
