// What the analysis of a closure finds.
use scale::modes::Kind;
use scale::sited::Sited;

// How many narrowed uses stand at the front of the use table, the closure's kind, and whether its type is Copy.
#[derive(Clone, Copy, PartialEq, Eq, Debug)]
pub struct Findings {
    pub uses: usize,
    pub kind: Sited<Kind>,
    pub copies: bool,
}
