// What becomes of a request about a closure.
ghost use Rattle.std.specs.Prelude.{◌≡◌, true, false, Ok, Err};
ghost use Rattle.closures.specs.declared.faults.ClosureFault.TheVariants.{NoClosure};
ghost use Rattle.closures.specs.Ledger.{is_closure};
ghost use Rattle.closures.specs.Requests.{subject, Named, Refused, Decided};
ghost use Rattle.closures.specs.Views.{ledger};

use crate::faults::ClosureFault;
use crate::requests::{Request, Task};
use crate::states::State;
use crate::table::Closures;
use waits::slots::Slot;

impl Request {
    // The closure that a request is about.
    fn about(self) -> u16
        ensures { result ≡ subject self }
    {
        match self {
            Request::Depend(c, _) | Request::Preset(c, _) | Request::Analyse(c) => c,
        }
    }
}

impl Closures {
    // The place of a closure in the table.
    pub(crate) fn slot(&self, c: u16) -> Result<Slot, ClosureFault>
        ensures { elim result [ Ok s ↦ (s ≡ c) × (is_closure self.now.count c ≡ true) | Err f ↦ (f ≡ NoClosure c) × (is_closure self.now.count c ≡ false) ] }
    {
        if c == 0 || c > self.count as u16 {
            return Err(ClosureFault::NoClosure(c));
        }
        Ok(Slot(c as u8 - 1))
    }

    // The place of the closure that a request is about, where each of its numbers is a closure's.
    fn named(&self, request: Request) -> Result<Slot, ClosureFault>
        ensures { elim result [ Ok s ↦ (s ≡ subject request) × Named self.now.count request | Err f ↦ Refused self.now.count (ledger self.now) request f ] }
    {
        match request {
            Request::Depend(c, d) => {
                let at = self.slot(c)?;
                self.slot(d)?;
                Ok(at)
            }
            Request::Preset(c, _) | Request::Analyse(c) => self.slot(c),
        }
    }

    // Grants a request, or refuses it and changes nothing. Of an analysis that is granted, the task is still to be done.
    pub fn decide(&mut self, request: Request) -> Result<Option<Task>, ClosureFault>
        ensures decided { Decided self.old.count (ledger self.old) request result (ledger self.new) }
        ensures count { self.new.count ≡ self.old.count }
        ensures filled { self.new.filled ≡ self.old.filled }
    {
        let at = self.named(request)?;
        match (&mut self.states[at.0 as usize], request) {
            (State::Analysed(_), _) => Err(ClosureFault::Analysed(request.about())),
            (state, Request::Preset(_, kind)) => {
                *state = State::Preset(kind);
                Ok(None)
            }
            (_, Request::Depend(c, d)) => {
                self.waits
                    .add(at, Slot(d as u8 - 1))
                    .map_err(|_| ClosureFault::Circle(c))?;
                Ok(None)
            }
            (state, Request::Analyse(c)) => {
                let preset = state.preset();
                match self.first_left(at) {
                    Some(d) => Err(ClosureFault::Waits(d as u16)),
                    None => Ok(Some(Task {
                        closure: c as u8,
                        preset,
                    })),
                }
            }
        }
    }
}
