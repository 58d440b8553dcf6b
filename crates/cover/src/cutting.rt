// What a cutting rule is: how a value of a scale changes when its place is cut to an ancestor.
ghost use Rattle.std.specs.Prelude.{◌≡◌};
ghost use Rattle.place.specs.Places.{Spot, spot, lies_under};
ghost use Rattle.cover.specs.Covering.{Cuts};

use place::places::Place;
use scale::order::Scale;

// Each rule shows that an empty cut does nothing, that two cuts are as one, and that a cut keeps
// the order.
pub trait Cutting {
    type Value: Scale;

    ghost cuts: { Self → Spot → Spot → Self.Value → Self.Value };

    // What a value at a place comes to at another, which the first lies under.
    fn cut(&self, from: &Place, to: &Place, value: Self::Value) -> Self::Value
        ensures { result ≡ cuts self.now (spot from.now) (spot to.now) value };

    ghost lawful: { (rule : Self) → Cuts lies_under (cuts rule) Self.Value.Scale.leq };
}
