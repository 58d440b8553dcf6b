// What is asked of one closure.
use scale::modes::Kind;

#[derive(Clone, Copy, Debug, PartialEq, Eq)]
pub enum Request {
    // the first closure waits on the second
    Depend(u16, u16),
    // the analysis of the closure is to report the kind
    Preset(u16, Kind),
    // the closure is analysed
    Analyse(u16),
}

// The analysis of a closure that is granted: it reports the preset kind if there is one.
#[derive(Clone, Copy, Debug, PartialEq, Eq)]
pub struct Task {
    pub closure: u8,
    pub preset: Option<Kind>,
}
