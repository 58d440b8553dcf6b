// The roots of a list of uses: the used places that no used place lies above.
ghost use Rattle.std.specs.Prelude.{◌≡◌, map, if◌then◌else◌};
ghost use Rattle.std.specs.Option.{option_map};
ghost use Rattle.place.specs.Places.{spot, lies_under};
ghost use Rattle.cover.specs.Cover.{root, some_under, opens};
ghost use Rattle.cover.specs.Views.{used};

use place::places::Place;
use place::uses::Use;

// One step up: to another place, if the first lies under it.
fn climb(top: Place, other: Place) -> Place
    ensures { spot result ≡ (if lies_under (spot top) (spot other) then spot other else spot top) }
{
    if top.lies_under(&other) { other } else { top }
}

// The highest used place that a place lies under, or the place itself.
fn root_of<S>(uses: &[Use<S>], place: Place) -> Place
    ensures { spot result ≡ root lies_under (map used uses.now) (spot place) }
{
    uses.iter()
        .fold(place, |top, other| climb(top, other.place))
}

// Whether one of the uses lies under a place.
fn is_reached<S>(uses: &[Use<S>], place: &Place) -> bool
    ensures { result ≡ some_under lies_under (map used uses.now) (spot place.now) }
{
    uses.iter().any(|other| other.place.lies_under(place))
}

// The place of the capture that a use opens: its root, if none of the uses seen before lies under that.
pub fn opened<S>(uses: &[Use<S>], seen: &[Use<S>], place: Place) -> Option<Place>
    ensures { option_map spot result ≡ opens lies_under (map used uses.now) (map used seen.now) (spot place) }
{
    let top = root_of(uses, place);
    (!is_reached(seen, &top)).then_some(top)
}
