// What the table world answers.
ghost use Rattle.std.specs.Prelude.{◌≡◌};
ghost use Rattle.reader.specs.Numbers.{numbered};
ghost use Rattle.reader.specs.Types.{view_type};
ghost use Rattle.table.specs.Entries.{types_in};
ghost use Rattle.table.specs.Table.{view_row, shape_with, number, step_by, table_world, table_sound};

use crate::tables::TableWorld;
use reader::pieces::payload_at;
use reader::types::{TypeRecord, TypeShape};
use world::shapes::Shape;
use world::worlds::World;

// The shape that a record gives its type.
fn shape_of(found: TypeRecord) -> Shape
    ensures { result ≡ shape_with (view_type found.entry).shape (number (view_type found.entry) 0) }
{
    match found.shape {
        TypeShape::Other => Shape::Other,
        TypeShape::Shared => Shape::Shared,
        TypeShape::Mutable => Shape::Mutable,
        TypeShape::Raw => Shape::Raw,
        TypeShape::Boxed => Shape::Boxed,
        TypeShape::Union => Shape::Union,
        TypeShape::Tuple => Shape::Tuple,
        TypeShape::Struct => Shape::Struct,
        TypeShape::Closure => Shape::Closure(found.numbers.get(0)),
    }
}

// Where a step leads from the type of a record, and 0 where it lacks the step.
fn step_from(found: TypeRecord, step: u16) -> u16
    ensures { result ≡ step_by (view_type found.entry).shape (view_type found.entry) step }
{
    let numbers = found.numbers;
    let half = step as usize / 2;
    match found.shape {
        TypeShape::Shared | TypeShape::Mutable | TypeShape::Raw | TypeShape::Boxed if step == 0 =>
            numbers.get(0),
        TypeShape::Tuple if step % 2 == 1 => numbers.get(half),
        TypeShape::Union | TypeShape::Struct if step > 0 && step % 2 == 0 => numbers.get(half - 1),
        _ => 0,
    }
}

impl<'a> TableWorld<'a> {
    // The record of a type, by its number from 1.
    fn row(&self, t: u16) -> Option<TypeRecord<'a>>
        ensures { view_row result ≡ numbered (types_in self.now) t }
    {
        let index = usize::from(t).checked_sub(1)?;
        let offset = self.offsets.get(index)?;
        Some(TypeRecord::of(payload_at(self.file, *offset)))
    }
}

impl World for TableWorld<'_> {
    const ERROR: u16 = 0;

    ghost means = { λ w. table_world (types_in w) };

    ghost sound = { λ w. table_sound (types_in w) };

    fn error_type(&self) -> u16 {
        Self::ERROR
    }

    fn shape(&self, t: u16) -> Shape {
        self.row(t).map_or(Shape::Error, shape_of)
    }

    fn is_copy(&self, t: u16) -> bool {
        self.row(t).map_or(true, |row| row.copies)
    }

    fn step(&self, t: u16, s: u16) -> u16 {
        self.row(t).map_or(Self::ERROR, |row| step_from(row, s))
    }
}
