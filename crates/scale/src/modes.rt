// The two scales of captures: the mode of a capture, and the kind of a closure.
ghost use Rattle.scale.specs.Modes.{mode_leq, kind_leq, mode_is_scale, kind_is_scale};
ghost use Rattle.scale.specs.declared.modes.Mode.TheVariants.{Imm};
ghost use Rattle.scale.specs.declared.modes.Kind.TheVariants.{Fn};

use crate::order::Scale;

// How a place is used or captured: by shared borrow, by unique shared borrow, by mutable borrow,
// by value.
#[derive(Clone, Copy, PartialEq, Eq, PartialOrd, Ord, Debug)]
pub enum Mode {
    Imm,
    Unique,
    Mut,
    Move,
}

// What a closure can be called as: by reference, by mutable reference, once.
#[derive(Clone, Copy, PartialEq, Eq, PartialOrd, Ord, Debug)]
pub enum Kind {
    Fn,
    FnMut,
    FnOnce,
}

impl Scale for Mode {
    ghost low = { Imm };

    ghost leq = { mode_leq };

    ghost is_scale = { mode_is_scale };

    fn lowest() -> Mode {
        Mode::Imm
    }

    fn at_most(self, other: Mode) -> bool {
        self <= other
    }
}

impl Scale for Kind {
    ghost low = { Fn };

    ghost leq = { kind_leq };

    ghost is_scale = { kind_is_scale };

    fn lowest() -> Kind {
        Kind::Fn
    }

    fn at_most(self, other: Kind) -> bool {
        self <= other
    }
}
