// What the uses under a place tell of its mode.
ghost use Rattle.place.specs.Places.{spot, lies_under};
ghost use Rattle.cover.specs.Cover.{tells};
ghost use Rattle.cover.specs.Views.{used};

use crate::cutting::Cutting;
use place::places::Place;
use place::uses::Use;
use scale::highest::Grading;
use scale::sited::Sited;

// A place at which uses are told of, under a cutting rule.
#[derive(Drop)]
pub struct Telling<'a, C> {
    pub rule: &'a C,
    pub place: Place,
}

impl<C: Cutting> Grading<Use<C::Value>, C::Value> for Telling<'_, C> {
    ghost graded = { λ t row. tells lies_under (C.cuts t.rule.now) (spot t.place) (used row) };

    fn grade(&self, row: &Use<C::Value>) -> Option<Sited<C::Value>> {
        if row.place.lies_under(&self.place) {
            Some(Sited {
                value: self.rule.cut(&row.place, &self.place, row.mode.value),
                site: row.mode.site,
            })
        } else {
            None
        }
    }
}
