// Why a file is refused at a record, with the record's offset.
ghost use Rattle.std.specs.Prelude.{◌≡◌};
ghost use Rattle.reader.specs.Faults.{number, place};

#[derive(Clone, Copy, PartialEq, Eq, Debug)]
pub enum ReaderFault {
    PastEnd { offset: usize },
    Unknown { offset: usize },
    Misfit { offset: usize },
    TooMany { offset: usize },
}

impl ReaderFault {
    // The refusal's number.
    pub fn number(self) -> u8
        ensures { result ≡ number self }
    {
        match self {
            ReaderFault::PastEnd { .. } => 1,
            ReaderFault::Unknown { .. } => 2,
            ReaderFault::Misfit { .. } => 3,
            ReaderFault::TooMany { .. } => 4,
        }
    }

    // The offset of the record that is refused.
    pub fn place(self) -> usize
        ensures { result ≡ place self }
    {
        match self {
            ReaderFault::PastEnd { offset }
            | ReaderFault::Unknown { offset }
            | ReaderFault::Misfit { offset }
            | ReaderFault::TooMany { offset } => offset,
        }
    }
}
