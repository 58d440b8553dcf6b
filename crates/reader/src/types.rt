// A type record: what a type is, whether it is Copy, and the numbers of the types or the closure that it names.
ghost use Rattle.std.specs.Prelude.{◌≡◌};
ghost use Rattle.reader.specs.Types.{shape_of, type_of, view_type};

use crate::numbers::Numbers;
use crate::pieces::{behind, byte_at};

#[derive(Clone, Copy, PartialEq, Eq, Debug)]
pub enum TypeShape {
    Other,
    Shared,
    Mutable,
    Raw,
    Boxed,
    Union,
    Tuple,
    Struct,
    Closure,
}

#[derive(Clone, Copy)]
pub struct TypeRecord<'a> {
    pub shape: TypeShape,
    pub copies: bool,
    pub numbers: Numbers<'a>,
}

const SHAPES: [TypeShape; 9] = [
    TypeShape::Other,
    TypeShape::Shared,
    TypeShape::Mutable,
    TypeShape::Raw,
    TypeShape::Boxed,
    TypeShape::Union,
    TypeShape::Tuple,
    TypeShape::Struct,
    TypeShape::Closure,
];

// The shape of a shape byte, from 1.
impl From<u8> for TypeShape {
    ghost from_gives = { λ byte shape. shape ≡ shape_of byte };

    fn from(byte: u8) -> TypeShape {
        let at = byte.saturating_sub(1) as usize;
        SHAPES.get(at).copied().unwrap_or(TypeShape::Other)
    }
}

impl<'a> TypeRecord<'a> {
    pub fn of(payload: &'a [u8]) -> TypeRecord<'a>
        ensures { view_type result ≡ type_of payload.now }
    {
        TypeRecord {
            shape: TypeShape::from(byte_at(payload, 0)),
            copies: byte_at(payload, 1) == 1,
            numbers: Numbers::new(behind(payload, 2)),
        }
    }
}
