// What the table world answers of each shape, and of what a file lacks.
use crate::files::*;
use std::test::Fail;
use table::tables::{TableWorld, read_types};
use world::shapes::Shape;
use world::worlds::World;

// The world of a file that is not refused.
fn world_of<'a>(file: &'a [u8], table: &'a mut [usize]) -> Result<TableWorld<'a>, Fail> {
    read_types(file, table).map_err(|fault| Fail::new(fault.number()))
}

#[test]
fn each_shape_is_told(rt: HostRuntime) -> Result<(), Fail> {
    let mut table = [0; RECORDS];
    let w = world_of(FILE, &mut table)?;
    assert!(rt; w.shape(INT) == Shape::Other && w.shape(STRING) == Shape::Other);
    assert!(rt; w.shape(SHARED) == Shape::Shared);
    assert!(rt; w.shape(MUTABLE) == Shape::Mutable);
    assert!(rt; w.shape(RAW) == Shape::Raw);
    assert!(rt; w.shape(BOXED) == Shape::Boxed);
    assert!(rt; w.shape(UNION) == Shape::Union);
    assert!(rt; w.shape(TUPLE) == Shape::Tuple && w.shape(UNIT) == Shape::Tuple);
    assert!(rt; w.shape(STRUCT) == Shape::Struct);
    assert!(rt; w.shape(CLOSURE) == Shape::Closure(259));
    Ok(())
}

#[test]
fn copy_is_the_copy_byte(rt: HostRuntime) -> Result<(), Fail> {
    let mut table = [0; RECORDS];
    let w = world_of(FILE, &mut table)?;
    assert!(rt; w.is_copy(INT) && w.is_copy(SHARED) && w.is_copy(RAW));
    assert!(rt; w.is_copy(UNION) && w.is_copy(UNIT));
    assert!(rt; !w.is_copy(STRING) && !w.is_copy(MUTABLE) && !w.is_copy(BOXED));
    assert!(rt; !w.is_copy(TUPLE) && !w.is_copy(STRUCT) && !w.is_copy(CLOSURE));
    Ok(())
}

#[test]
fn pointers_dereference(rt: HostRuntime) -> Result<(), Fail> {
    let mut table = [0; RECORDS];
    let w = world_of(FILE, &mut table)?;
    assert!(rt; w.step(SHARED, 0) == STRING);
    assert!(rt; w.step(MUTABLE, 0) == INT);
    assert!(rt; w.step(RAW, 0) == INT);
    assert!(rt; w.step(BOXED, 0) == STRING);
    Ok(())
}

#[test]
fn fields_are_taken(rt: HostRuntime) -> Result<(), Fail> {
    let mut table = [0; RECORDS];
    let w = world_of(FILE, &mut table)?;
    assert!(rt; w.step(TUPLE, 1) == STRING && w.step(TUPLE, 3) == INT);
    assert!(rt; w.step(UNION, 2) == INT && w.step(UNION, 4) == RAW);
    assert!(rt; w.step(STRUCT, 2) == TUPLE && w.step(STRUCT, 4) == ABSENT);
    Ok(())
}

#[test]
fn lacking_steps_lead_to_the_error_type(rt: HostRuntime) -> Result<(), Fail> {
    let mut table = [0; RECORDS];
    let w = world_of(FILE, &mut table)?;
    assert!(rt; w.step(INT, 0) == 0 && w.step(INT, 1) == 0);
    assert!(rt; w.step(SHARED, 1) == 0 && w.step(BOXED, 2) == 0);
    assert!(rt; w.step(TUPLE, 0) == 0 && w.step(TUPLE, 2) == 0 && w.step(TUPLE, 5) == 0);
    assert!(rt; w.step(STRUCT, 0) == 0 && w.step(STRUCT, 1) == 0 && w.step(STRUCT, 6) == 0);
    assert!(rt; w.step(UNION, 3) == 0 && w.step(UNIT, 1) == 0);
    assert!(rt; w.step(CLOSURE, 0) == 0 && w.step(CLOSURE, 1) == 0 && w.step(CLOSURE, 2) == 0);
    assert!(rt; w.step(TUPLE, 65535) == 0 && w.step(STRUCT, 65535) == 0);
    Ok(())
}

// Whether a world, of any sort, has no type of this number.
fn is_absent<W: World>(w: &W, t: u16) -> bool {
    w.shape(t) == Shape::Error && w.is_copy(t) && w.step(t, 0) == 0 && w.step(t, 1) == 0
}

#[test]
fn numbers_without_a_row_are_errors(rt: HostRuntime) -> Result<(), Fail> {
    let mut table = [0; RECORDS];
    let w = world_of(FILE, &mut table)?;
    assert!(rt; w.error_type() == 0 && is_absent(&w, 0));
    assert!(rt; is_absent(&w, UNIT + 1) && is_absent(&w, ABSENT) && is_absent(&w, 65535));
    let none = world_of(&[], &mut [])?;
    assert!(rt; is_absent(&none, 0) && is_absent(&none, 1));
    Ok(())
}
