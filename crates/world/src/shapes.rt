// Shapes: what a type is, as far as paths and captures ask.
ghost use Rattle.std.specs.Prelude.{◌≡◌};
ghost use Rattle.world.specs.Shapes.{is_pointer, is_stop};

// A struct stands for an enum too. A closure has the number of its closure in the body.
#[derive(Clone, Copy, PartialEq, Eq, Debug)]
pub enum Shape {
    Error,
    Other,
    Shared,
    Mutable,
    Raw,
    Boxed,
    Union,
    Tuple,
    Struct,
    Closure(u16),
}

// A sort of pointer that the rules tell apart: a shared or mutable reference, or a raw pointer.
#[derive(Clone, Copy, PartialEq, Eq, Debug)]
pub enum Pointer {
    ToShared,
    ToMutable,
    ToRaw,
}

impl Shape {
    // Whether a type of this shape is a pointer of a sort.
    pub fn is_pointer(self, sort: Pointer) -> bool
        ensures { result ≡ is_pointer self sort }
    {
        matches!(
            (self, sort),
            (Shape::Shared, Pointer::ToShared)
                | (Shape::Mutable, Pointer::ToMutable)
                | (Shape::Raw, Pointer::ToRaw)
        )
    }

    // Whether a path stops at a type of this shape: a raw pointer or a union.
    pub fn is_stop(self) -> bool
        ensures { result ≡ is_stop self }
    {
        matches!(self, Shape::Raw | Shape::Union)
    }
}
