// The parts of a node that are lists, read where they lie in the file.
ghost use Rattle.std.specs.Prelude.{◌≡◌};
ghost use Rattle.std.proofs.Common.{rules};
ghost use Rattle.reader.specs.Numbers.{numbers};
ghost use Rattle.node.specs.Lists.{adjust_of, adjustments, no_adjustment, pairs, no_field, triples, no_arm};
ghost use Rattle.node.specs.Lists.{some_adjustment, count_adjustments, step_adjustments, some_pair, count_pairs, step_pairs};
ghost use Rattle.node.specs.Lists.{some_triple, count_triples, step_triples};

use reader::entries::{Entries, Entry};
use reader::numbers::Numbers;
use reader::pieces::number_at;

#[derive(Clone, Copy, PartialEq, Eq, Debug, Default)]
pub enum Adjust {
    #[default]
    Never,
    BuiltinDeref,
    OverloadedShared,
    OverloadedMut,
    BorrowShared,
    BorrowMut,
    PointerCast,
}

// An adjustment of an expression, and the type that it leads to.
#[derive(Clone, Copy, PartialEq, Eq, Debug, Default)]
pub struct Adjustment {
    pub kind: Adjust,
    pub target: u16,
}

const ADJUSTS: [Adjust; 7] = [
    Adjust::Never,
    Adjust::BuiltinDeref,
    Adjust::OverloadedShared,
    Adjust::OverloadedMut,
    Adjust::BorrowShared,
    Adjust::BorrowMut,
    Adjust::PointerCast,
];

// The adjustment of a code byte.
impl From<u8> for Adjust {
    ghost from_gives = { λ code a. a ≡ adjust_of code };

    fn from(code: u8) -> Adjust {
        ADJUSTS.get(code as usize).copied().unwrap_or(Adjust::Never)
    }
}

// Past the end, none (a never) to type 0.
pub type Adjustments<'a> = Entries<'a, Adjustment>;

impl Entry for Adjustment {
    const SIZE: usize = 3;

    ghost SIZE = { 3 };

    ghost all = { adjustments };

    ghost past = { no_adjustment };

    fn first(bytes: &[u8]) -> Option<Adjustment> {
        let [code, _, _, ..] = bytes else {
            return None;
        };
        Some(Adjustment {
            kind: Adjust::from(*code),
            target: number_at(bytes, 1),
        })
    }

    ghost sized = { some_adjustment };

    ghost counts = { count_adjustments };

    ghost steps = { step_adjustments };

    ghost defaults = { Prim.search rules };
}

// A field of a pattern: the step to it, and the pattern there; past the end zeros.
#[derive(Clone, Copy, PartialEq, Eq, Debug, Default)]
pub struct FieldPat {
    pub step: u16,
    pub pat: u16,
}

pub type Fields<'a> = Entries<'a, FieldPat>;

impl Entry for FieldPat {
    const SIZE: usize = 4;

    ghost SIZE = { 4 };

    ghost all = { λ bs. pairs (numbers bs) };

    ghost past = { no_field };

    fn first(bytes: &[u8]) -> Option<FieldPat> {
        let mut numbers = Numbers::new(bytes);
        let step = numbers.next()?;
        let pat = numbers.next()?;
        Some(FieldPat { step, pat })
    }

    ghost sized = { some_pair };

    ghost counts = { count_pairs };

    ghost steps = { step_pairs };

    ghost defaults = { Prim.search rules };
}

// An arm of a match: its pattern, its guard (0: none) and its expression; past the end zeros.
#[derive(Clone, Copy, PartialEq, Eq, Debug, Default)]
pub struct Arm {
    pub pat: u16,
    pub guard: u16,
    pub body: u16,
}

pub type Arms<'a> = Entries<'a, Arm>;

impl Entry for Arm {
    const SIZE: usize = 6;

    ghost SIZE = { 6 };

    ghost all = { λ bs. triples (numbers bs) };

    ghost past = { no_arm };

    fn first(bytes: &[u8]) -> Option<Arm> {
        let mut numbers = Numbers::new(bytes);
        let pat = numbers.next()?;
        let guard = numbers.next()?;
        let body = numbers.next()?;
        Some(Arm { pat, guard, body })
    }

    ghost sized = { some_triple };

    ghost counts = { count_triples };

    ghost steps = { step_triples };

    ghost defaults = { Prim.search rules };
}
