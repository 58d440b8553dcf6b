// Rights to an object: a second scale, whose values no cut weakens.
ghost use Rattle.cover_tests.specs.Rights.{right_leq};
ghost use Rattle.cover_tests.specs.declared.rights.Right.TheVariants.{Look};
ghost use Rattle.std.proofs.Common.{rules};

use cover::cutting::Cutting;
use place::places::Place;
use scale::order::Scale;

#[derive(Clone, Copy, PartialEq, Eq, PartialOrd, Ord, Debug)]
pub enum Right {
    Look,
    Set,
    Take,
}

impl Scale for Right {
    ghost low = { Look };

    ghost leq = { right_leq };

    ghost is_scale = { Prim.search rules };

    fn lowest() -> Right {
        Right::Look
    }

    fn at_most(self, other: Right) -> bool {
        self <= other
    }
}

// The rule of a claim: a right is the same at every ancestor.
#[derive(Clone, Copy)]
pub struct Claims {}

impl Cutting for Claims {
    type Value = Right;

    ghost cuts = { λ _ _ _ x. x };

    ghost lawful = { Prim.search rules };

    fn cut(&self, from: &Place, to: &Place, value: Right) -> Right {
        value
    }
}
