// What a scale is: a total order with a lowest value.
ghost use Rattle.std.specs.Prelude.{◌≡◌, Bool};
ghost use Rattle.scale.specs.Scales.{IsScale};

// Each scale shows that its lowest value is below all, that its order is one, and that any two
// values stand one above the other.
pub trait Scale: Copy {
    ghost low: { Self };

    ghost leq: { Self → Self → Bool };

    fn lowest() -> Self
        ensures { result ≡ low };

    fn at_most(self, other: Self) -> bool
        ensures { result ≡ leq self other };

    ghost is_scale: { IsScale low leq };
}
