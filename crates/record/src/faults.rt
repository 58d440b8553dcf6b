// Why a call or a question is refused.
ghost use Rattle.std.specs.Prelude.{◌≡◌};
ghost use Rattle.record.specs.declared.faults.RecordFault.TheVariants.{Body, Closure};
ghost use Rattle.record.specs.Faults.{number, layer, place};

use closures::faults::ClosureFault;
use indexing::faults::{BodyFault, Layer};
use scene::faults::WalkFault;

#[derive(Clone, Copy, PartialEq, Eq, Debug)]
pub enum RecordFault {
    // the body is refused, by its own fault, carried whole
    Body(BodyFault),
    // a request or a question about a closure is refused
    Closure(ClosureFault),
    // met in the analysis of the closure
    Walk { closure: u8, fault: WalkFault },
    // the closure's captures outnumber the rows left in the capture table
    Full { closure: u8 },
    // the caller's buffer is short
    Short,
}

impl From<BodyFault> for RecordFault {
    ghost from_gives = { λ e r. r ≡ Body e };

    fn from(refused: BodyFault) -> RecordFault {
        RecordFault::Body(refused)
    }
}

impl From<ClosureFault> for RecordFault {
    ghost from_gives = { λ e r. r ≡ Closure e };

    fn from(refused: ClosureFault) -> RecordFault {
        RecordFault::Closure(refused)
    }
}

impl RecordFault {
    // The refusal's number.
    pub fn number(self) -> u8
        ensures { result ≡ number self }
    {
        match self {
            RecordFault::Body(fault) => fault.number(),
            RecordFault::Closure(fault) => fault.number(),
            RecordFault::Walk { fault, .. } => fault.number(),
            RecordFault::Full { .. } => 18,
            RecordFault::Short => 20,
        }
    }

    pub fn layer(self) -> Layer
        ensures { result ≡ layer self }
    {
        match self {
            RecordFault::Body(fault) => fault.layer(),
            _ => Layer::Record,
        }
    }

    // The offset of a record in fault, or the closure that is meant, 0 where none is.
    pub fn place(self) -> usize
        ensures { result ≡ place self }
    {
        match self {
            RecordFault::Body(fault) => fault.place(),
            RecordFault::Closure(fault) => fault.place() as usize,
            RecordFault::Walk { closure, .. } | RecordFault::Full { closure } => closure as usize,
            RecordFault::Short => 0,
        }
    }
}
