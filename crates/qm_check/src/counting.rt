//! How many events there are, and how many outcomes are taken.
ghost use Rattle.std.specs.Prelude.{◌≡◌, ◌+◌, ◌<◌, ◌≤◌, ◌^◌};
ghost use Rattle.qm_instr.specs.Counts.{events_of, protocol_of, own_of};

use crate::Totals;
use qm_instr::{Instr, event_count, own_count, protocol_count};

impl Totals {
    /// Of no instructions.
    pub(crate) const NONE: Totals = Totals {
        events: 0,
        protocol: 0,
        own: 0,
    };

    /// Of one instruction.
    pub(crate) fn of(i: Instr) -> Totals
        ensures events { result.events ≡ events_of i }
        ensures protocol { result.protocol ≡ protocol_of i }
        ensures own { result.own ≡ own_of i }
    {
        Totals {
            events: u64::from(event_count(i)),
            protocol: u64::from(protocol_count(i)),
            own: u64::from(own_count(i)),
        }
    }

    /// Both together.
    pub(crate) fn plus(self, more: Totals) -> Totals
        requires events { self.events + more.events < 2 ^ 64 }
        requires protocol { self.protocol + more.protocol < 2 ^ 64 }
        requires own { self.own + more.own < 2 ^ 64 }
        ensures events { result.events ≡ self.events + more.events }
        ensures protocol { result.protocol ≡ self.protocol + more.protocol }
        ensures own { result.own ≡ self.own + more.own }
    {
        Totals {
            events: self.events + more.events,
            protocol: self.protocol + more.protocol,
            own: self.own + more.own,
        }
    }
}
