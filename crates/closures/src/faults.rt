// Why a request or a question about a closure is refused.
ghost use Rattle.std.specs.Prelude.{◌≡◌};
ghost use Rattle.closures.specs.Faults.{number, place};

#[derive(Clone, Copy, Debug, PartialEq, Eq)]
pub enum ClosureFault {
    // a number is no closure's
    NoClosure(u16),
    // the closure is analysed
    Analysed(u16),
    // it would close a circle of waits
    Circle(u16),
    // the closure waits on this one, which is not analysed
    Waits(u16),
    // the closure is not analysed
    NotAnalysed(u16),
}

impl ClosureFault {
    // The refusal's number.
    pub fn number(self) -> u8
        ensures { result ≡ number self }
    {
        match self {
            ClosureFault::NoClosure(_) => 10,
            ClosureFault::Analysed(_) => 11,
            ClosureFault::Circle(_) => 12,
            ClosureFault::Waits(_) => 14,
            ClosureFault::NotAnalysed(_) => 19,
        }
    }

    // The closure that is meant.
    pub fn place(self) -> u16
        ensures { result ≡ place self }
    {
        match self {
            ClosureFault::NoClosure(c)
            | ClosureFault::Analysed(c)
            | ClosureFault::Circle(c)
            | ClosureFault::Waits(c)
            | ClosureFault::NotAnalysed(c) => c,
        }
    }
}
