// The kind of a closure, from its uses as they stand after the first three rules.
ghost use Rattle.std.specs.Prelude.{◌≡◌, map, filter_map};
ghost use Rattle.scale.specs.Highest.{Tops};
ghost use Rattle.scale.specs.Modes.{kind_leq};
ghost use Rattle.scale.specs.declared.modes.Kind.TheVariants.{Fn};
ghost use Rattle.narrow.specs.Kinds.{kind_of_mode, kind_entry, closure_kind};
ghost use Rattle.narrow.specs.Views.{view};

use place::uses::Use;
use scale::highest::{Grading, highest_by};
use scale::modes::{Kind, Mode};
use scale::sited::Sited;

// The kind that a use of a mode calls for.
pub fn called_for(mode: Mode) -> Kind
    ensures { result ≡ kind_of_mode mode }
{
    match mode {
        Mode::Imm => Kind::Fn,
        Mode::Unique | Mode::Mut => Kind::FnMut,
        Mode::Move => Kind::FnOnce,
    }
}

// Uses graded by the kind that each calls for, at its site.
#[derive(Clone, Copy)]
pub struct Kinds {}

impl Grading<Use<Mode>, Kind> for Kinds {
    ghost graded = { λ _ u. kind_entry (view u) };

    fn grade(&self, row: &Use<Mode>) -> Option<Sited<Kind>> {
        Some(Sited {
            value: called_for(row.mode.value),
            site: row.mode.site,
        })
    }
}

// The highest kind that the uses call for, with the site of the earliest that does; Fn at site 0 of none.
pub fn kind_of_closure(uses: &[Use<Mode>]) -> Sited<Kind>
    ensures is { result ≡ closure_kind (map view uses.now) }
    ensures tops { Tops Fn kind_leq (filter_map kind_entry (map view uses.now)) result }
{
    highest_by(&Kinds {}, uses)
}
