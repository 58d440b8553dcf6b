// The state of a closure.
ghost use Rattle.std.specs.Prelude.{◌≡◌};
ghost use Rattle.closures.specs.Ledger.{preset_in, analysis_in};
ghost use Rattle.closures.specs.Views.{stage_of};

use scale::modes::Kind;
use scale::sited::Sited;

// What the record keeps of an analysis: the kind with its site, where the captures stand in the capture table and how
// many there are, and whether the closure's type is Copy.
#[derive(Clone, Copy, Debug, PartialEq, Eq)]
pub struct Analysis {
    pub kind: Sited<Kind>,
    pub from: usize,
    pub count: usize,
    pub copies: bool,
}

#[derive(Clone, Copy, Debug, PartialEq, Eq)]
pub enum State {
    Open,
    // the kind that the analysis will report
    Preset(Kind),
    Analysed(Analysis),
}

impl State {
    // The kind that is preset, if one is.
    pub(crate) fn preset(self) -> Option<Kind>
        ensures { result ≡ preset_in (stage_of self) }
    {
        match self {
            State::Preset(kind) => Some(kind),
            State::Open | State::Analysed(_) => None,
        }
    }

    // What the analysis found, if there was one.
    pub(crate) fn analysis(self) -> Option<Analysis>
        ensures { result ≡ analysis_in (stage_of self) }
    {
        match self {
            State::Analysed(found) => Some(found),
            State::Open | State::Preset(_) => None,
        }
    }
}
