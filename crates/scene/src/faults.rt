// Why a walk is refused.
ghost use Rattle.std.specs.Prelude.{◌≡◌};
ghost use Rattle.scene.specs.Faults.{number_of};

#[derive(Clone, Copy, PartialEq, Eq, Debug)]
pub enum WalkFault {
    // a path passes 16 steps
    PathTooLong,
    // a use finds no row left
    NoRow,
    // a match binding's Copy is needed of a closure type that is not analysed
    NotAnalysed,
}

impl WalkFault {
    // The number of the refusal.
    pub fn number(self) -> u8
        ensures { result ≡ number_of self }
    {
        match self {
            WalkFault::PathTooLong => 15,
            WalkFault::NoRow => 16,
            WalkFault::NotAnalysed => 17,
        }
    }
}
