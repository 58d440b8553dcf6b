// What is called, and what came of it.
use crate::faults::RecordFault;
use closures::requests::Request;

#[derive(Clone, Copy, Debug, PartialEq, Eq)]
pub enum Call {
    // about one closure
    One(Request),
    // every closure is analysed, each when it waits on none left
    InferAll,
}

// A call with its answer.
#[derive(Clone, Copy, Debug, PartialEq, Eq)]
pub struct Asked {
    pub call: Call,
    pub answer: Result<(), RecordFault>,
}
