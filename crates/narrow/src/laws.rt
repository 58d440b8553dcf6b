// The laws of cuts and of narrowing, which the captures rest on.
ghost use Rattle.std.specs.Prelude.{◌≡◌, ℕ, Bool};
ghost use Rattle.scale.specs.declared.modes.Mode.{Mode};
ghost use Rattle.place.specs.declared.uses.Use.{Use};
ghost use Rattle.narrow.specs.Views.{view};
ghost use Rattle.world.specs.Meaning.{Meaning};
ghost use Rattle.narrow.specs.Narrowing.{Used};
ghost use Rattle.narrow.specs.Laws.{Cutting, CuttingPlaces, Narrowing};

// Of every cut, in every world.
pub fn cuts_stand()
    ensures uses { (m : Meaning) → Cutting m }
    ensures places { (m : Meaning) (types : ℕ → ℕ) → CuttingPlaces m types }
{}

// Of every narrowed use, in every world.
pub fn narrowing_stands()
    ensures { (m : Meaning) (t : ℕ) (copies : Bool) (u : Used) → Narrowing m t copies u }
{}

// Uses that the rules see as one are one value, so that what is shown of views holds of the uses.
pub fn views_stand()
    ensures { (u v : Use Mode) → view u ≡ view v → u ≡ v }
{}
