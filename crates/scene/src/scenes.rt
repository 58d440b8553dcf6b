// What a walk of one closure looks at: the type world, the body, the closure, and what is told of other closures.
use crate::inner::Inner;
use body::bodies::Body;
use world::worlds::World;

#[derive(Drop)]
pub struct Scene<'a, W, I> {
    pub world: &'a W,
    pub body: &'a Body<'a>,
    pub closure: u8,
    pub inner: &'a I,
}
