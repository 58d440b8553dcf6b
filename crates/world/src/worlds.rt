// What a type world is, by its meaning.
ghost use Rattle.std.specs.Prelude.{◌≡◌};
ghost use Rattle.world.specs.Meaning.{Meaning, Sound};

use crate::shapes::Shape;

// A world answers questions about types, which are numbers. Its meaning is the number of its error
// type and three functions; an implementation shows that each question, at every type and step,
// answers what its function gives, and that the error type has the shape error and steps only to
// itself. Nothing is refused, since every question returns its answer; and no question changes a later
// answer, since it only reads the world (`&self`).
pub trait World {
    // The number of the world's own error type.
    const ERROR: u16;

    ghost means: { Self → Meaning };

    ghost sound: { (w : Self) → Sound (means w) };

    // The error type's number, for code that takes any world.
    fn error_type(&self) -> u16
        ensures { result ≡ (means self.now).error };

    fn shape(&self, t: u16) -> Shape
        ensures { result ≡ (means self.now).shape t };

    // Whether values of the type are Copy. A closure type's answer is not used: that is settled by its captures.
    fn is_copy(&self, t: u16) -> bool
        ensures { result ≡ (means self.now).copies t };

    // The type that a step leads to: 0 dereferences, 2i + 1 takes field i of a tuple, 2i + 2 field i of
    // a struct or union.
    fn step(&self, t: u16, s: u16) -> u16
        ensures { result ≡ (means self.now).step t s };
}
