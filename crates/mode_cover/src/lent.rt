// A world, or the types of bindings, that is lent: it answers as its owner does.
use crate::bindings::BindingTypes;
use world::shapes::Shape;
use world::worlds::World;

#[derive(Drop)]
pub struct Lent<'a, T> {
    pub owner: &'a T,
}

impl<W: World> World for Lent<'_, W> {
    const ERROR: u16 = W::ERROR;

    ghost means = { λ l. W.means l.owner.now };

    ghost sound = { λ l. W.sound l.owner.now };

    fn error_type(&self) -> u16 {
        self.owner.error_type()
    }

    fn shape(&self, t: u16) -> Shape {
        self.owner.shape(t)
    }

    fn is_copy(&self, t: u16) -> bool {
        self.owner.is_copy(t)
    }

    fn step(&self, t: u16, s: u16) -> u16 {
        self.owner.step(t, s)
    }
}

impl<B: BindingTypes> BindingTypes for Lent<'_, B> {
    ghost types = { λ l. B.types l.owner.now };

    fn type_of(&self, binding: u16) -> u16 {
        self.owner.type_of(binding)
    }
}
