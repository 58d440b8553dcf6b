// Why a body is refused: a fault of the reader, carried whole, or one of how the records fit together.
ghost use Rattle.std.specs.Prelude.{◌≡◌, Some};
ghost use Rattle.indexing.specs.declared.faults.BodyFault.TheVariants.{Reader};
ghost use Rattle.indexing.specs.Faults.{number, layer, place, layer_text, fault_text};

use reader::faults::ReaderFault;
use std::fmt;

// Each has the offset of the record in fault.
#[derive(Clone, Copy, PartialEq, Eq, Debug)]
pub enum BodyFault {
    Reader(ReaderFault),
    // an operand names no earlier node of its sort, no binding, or a bad step
    Operand { offset: usize },
    // a child has a parent
    Parent { offset: usize },
    // nesting passes 128
    Nesting { offset: usize },
    // a home or an owner misfits
    Home { offset: usize },
}

// Which layer refuses.
#[derive(Clone, Copy, PartialEq, Eq, Debug)]
pub enum Layer {
    Reader,
    Body,
    Record,
}

impl fmt::Display for Layer {
    ghost output = { λ l. Some (layer_text l) };

    fn fmt<W: fmt::Write>(&self, f: &mut fmt::Formatter<W>) -> fmt::Result {
        f.write_str(match self {
            Layer::Reader => "reader",
            Layer::Body => "body",
            Layer::Record => "record",
        })
    }
}

impl From<ReaderFault> for BodyFault {
    ghost from_gives = { λ e r. r ≡ Reader e };

    fn from(refused: ReaderFault) -> BodyFault {
        BodyFault::Reader(refused)
    }
}

impl BodyFault {
    // The refusal's number.
    pub fn number(self) -> u8
        ensures { result ≡ number self }
    {
        match self {
            BodyFault::Reader(fault) => fault.number(),
            BodyFault::Operand { .. } => 5,
            BodyFault::Parent { .. } => 6,
            BodyFault::Nesting { .. } => 7,
            BodyFault::Home { .. } => 8,
        }
    }

    pub fn layer(self) -> Layer
        ensures { result ≡ layer self }
    {
        match self {
            BodyFault::Reader(_) => Layer::Reader,
            _ => Layer::Body,
        }
    }

    // The offset of the record in fault.
    pub fn place(self) -> usize
        ensures { result ≡ place self }
    {
        match self {
            BodyFault::Reader(fault) => fault.place(),
            BodyFault::Operand { offset }
            | BodyFault::Parent { offset }
            | BodyFault::Nesting { offset }
            | BodyFault::Home { offset } => offset,
        }
    }
}

// The number, the layer and the place of a refusal.
impl fmt::Display for BodyFault {
    ghost output = { λ e. Some (fault_text e) };

    fn fmt<W: fmt::Write>(&self, f: &mut fmt::Formatter<W>) -> fmt::Result {
        let number = self.number();
        let layer = self.layer();
        let place = self.place();
        write!(f, "{number} {layer} {place}")
    }
}
