// The spelled world, in which a type's number spells it: 0 and 1 are other and Copy, 2 is other and not
// Copy, 3 is the error type and Copy. From 4 on the remainder by 4 tells the pointer, and the quotient
// less 1 is what it points to; of these, even numbers are Copy.
ghost use Rattle.std.specs.Prelude.{◌≡◌};
ghost use Rattle.world.specs.Spelled.{spelled_world, spelled_sound};

use crate::shapes::Shape;
use crate::worlds::World;

#[derive(Clone, Copy)]
pub struct Spelled {}

impl World for Spelled {
    const ERROR: u16 = 3;

    ghost means = { λ _. spelled_world };

    ghost sound = { λ _. spelled_sound };

    fn error_type(&self) -> u16 {
        Self::ERROR
    }

    fn shape(&self, t: u16) -> Shape {
        match t {
            0..=2 => Shape::Other,
            3 => Shape::Error,
            _ => match t % 4 {
                0 => Shape::Shared,
                1 => Shape::Mutable,
                2 => Shape::Raw,
                _ => Shape::Boxed,
            },
        }
    }

    fn is_copy(&self, t: u16) -> bool {
        if t < 4 { t != 2 } else { t % 2 == 0 }
    }

    fn step(&self, t: u16, s: u16) -> u16 {
        if t >= 4 && s == 0 {
            t / 4 - 1
        } else {
            Self::ERROR
        }
    }
}
