// The refusal of a cover.

// The captures outnumber the rows that the table has left: so many are needed.
#[derive(Clone, Copy, PartialEq, Eq, Debug)]
pub struct Full {
    pub needed: usize,
}
