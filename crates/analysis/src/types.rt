// The types of a body's bindings.
ghost use Rattle.body.specs.Answers.{binding_in};
ghost use Rattle.body.specs.Bodies.{body_of};
ghost use Rattle.events.specs.Matches.{type_or};

use body::bodies::Body;
use events::matches::type_of_binding;
use mode_cover::bindings::BindingTypes;
use world::worlds::World;

// A body in a world of types. A number that is no binding's has the world's error type.
#[derive(Drop)]
pub struct BodyTypes<'a, W> {
    pub world: &'a W,
    pub body: &'a Body<'a>,
}

impl<W: World> BindingTypes for BodyTypes<'_, W> {
    ghost types = { λ b n. type_or (W.World.means b.world.now).error (binding_in (body_of b.body.now) n) };

    fn type_of(&self, binding: u16) -> u16 {
        type_of_binding(self.world, self.body, binding)
    }
}
