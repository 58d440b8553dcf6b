// The highest value of a table: one text for every scale.
ghost use Rattle.std.specs.Prelude.{◌≡◌, Option as Maybe, filter_map};
ghost use Rattle.scale.specs.declared.sited.Sited.{Sited as SitedOf};
ghost use Rattle.scale.specs.Highest.{higher, highest, Tops};

use crate::order::Scale;
use crate::sited::Sited;

// What a row of a table tells of a value on a scale: nothing, or a value at a site.
pub trait Grading<R, S: Scale> {
    ghost graded: { Self → R → Maybe (SitedOf S) };

    fn grade(&self, row: &R) -> Option<Sited<S>>
        ensures { result ≡ graded self.now row.now };
}

// An entry and the highest of those behind it: the entry, unless that is above it.
pub fn higher_of<S: Scale>(entry: Sited<S>, rest: Sited<S>) -> Sited<S>
    ensures { result ≡ higher S.Scale.low S.Scale.leq entry rest }
{
    if rest.value.at_most(entry.value) {
        entry
    } else {
        rest
    }
}

// The highest value of a table under a grading, with the site of the earliest entry that reaches it.
// The rows are gone through from the last, so that of equals the earliest stays.
pub fn highest_by<R, S: Scale, G: Grading<R, S>>(grading: &G, rows: &[R]) -> Sited<S>
    ensures is { result ≡ highest S.Scale.low S.Scale.leq (filter_map (G.Grading.graded grading.now) rows.now) }
    ensures tops { Tops S.Scale.low S.Scale.leq (filter_map (G.Grading.graded grading.now) rows.now) result }
{
    let none = Sited {
        value: S::lowest(),
        site: 0,
    };
    rows.iter()
        .rev()
        .filter_map(|row| grading.grade(row))
        .fold(none, |best, entry| higher_of(entry, best))
}
