// The narrowing of uses, by the examples of docs/RULES.md.
use crate::paths::path_of;
use crate::sample::{Row, Sample};
use narrow::kinds::kind_of_closure;
use narrow::rules::{cut_to, narrow, reach};
use narrow::walks::led;
use place::places::Place;
use place::uses::Use;
use scale::modes::{Kind, Mode};
use scale::sited::Sited;
use std::process::Abort;
use world::shapes::Shape;
use world::spelled::Spelled;
use world::worlds::World;

const INT: u16 = 1;

const STRING: u16 = 2;
// (String, i32), (i32, i32) and struct { (String, i32) }
const PAIR: u16 = 3;

const INTS: u16 = 4;

const NESTED: u16 = 5;
// &mut (i32, i32), &(String, i32), Box<(String, i32)> and *mut (i32, i32)
const MUT_INTS: u16 = 6;

const REF_PAIR: u16 = 7;

const BOX_PAIR: u16 = 8;

const RAW_INTS: u16 = 9;
// union { (i32, i32), i32 } and union { &mut (i32, i32) }
const UNION: u16 = 10;

const UNION_MUT: u16 = 11;
// struct Int { i32 }, &Int, struct Holder { &Int } and &Holder
const WRAPPED: u16 = 12;

const REF_WRAPPED: u16 = 13;

const HOLDER: u16 = 14;

const REF_HOLDER: u16 = 15;

fn row(shape: Shape, copies: bool, first: u16, second: u16) -> Row {
    Row {
        shape,
        copies,
        first,
        second,
    }
}

fn types() -> [Row; 15] {
    [
        row(Shape::Other, true, 0, 0),
        row(Shape::Other, false, 0, 0),
        row(Shape::Tuple, false, STRING, INT),
        row(Shape::Tuple, true, INT, INT),
        row(Shape::Struct, false, PAIR, 0),
        row(Shape::Mutable, false, INTS, 0),
        row(Shape::Shared, true, PAIR, 0),
        row(Shape::Boxed, false, PAIR, 0),
        row(Shape::Raw, true, INTS, 0),
        row(Shape::Union, true, INTS, INT),
        row(Shape::Union, false, MUT_INTS, 0),
        row(Shape::Struct, true, INT, 0),
        row(Shape::Shared, true, WRAPPED, 0),
        row(Shape::Struct, true, REF_WRAPPED, 0),
        row(Shape::Shared, true, HOLDER, 0),
    ]
}

fn sited<S>(value: S, site: u16) -> Sited<S> {
    Sited { value, site }
}

// A use of binding 4 at site 9.
fn use_of(steps: &[u16], value: Mode) -> Use<Mode> {
    Use {
        place: Place {
            binding: 4,
            path: path_of(steps),
        },
        mode: sited(value, 9),
    }
}

// Whether a use, in a closure that is move or not, narrows to these steps and this mode.
fn narrows<W: World>(
    w: &W,
    from: u16,
    used: (&[u16], Mode),
    by_move: bool,
    to: (&[u16], Mode),
) -> bool {
    let copies = w.is_copy(led(w, from, used.0));
    narrow(w, from, use_of(used.0, used.1), copies, by_move) == use_of(to.0, to.1)
}

// Whether a use of a closure that is not move narrows so, among the sample types.
fn so(rt: &impl Abort, from: u16, steps: &[u16], mode: Mode, kept: &[u16], to: Mode) {
    let rows = types();
    assert!(rt;
        narrows(
            &Sample { rows: &rows },
            from,
            (steps, mode),
            false,
            (kept, to),
        )
    );
}

// The same in a move closure, where every use ends as move.
fn so_in_move(rt: &impl Abort, from: u16, steps: &[u16], mode: Mode, kept: &[u16]) {
    let rows = types();
    assert!(rt;
        narrows(
            &Sample { rows: &rows },
            from,
            (steps, mode),
            true,
            (kept, Mode::Move),
        )
    );
}

#[test]
fn copies_are_read(rt: HostRuntime) {
    so(&rt, INTS, &[], Mode::Move, &[], Mode::Imm);
    so(&rt, PAIR, &[3], Mode::Move, &[3], Mode::Imm);
    so(&rt, NESTED, &[2, 3], Mode::Move, &[2, 3], Mode::Imm);
    so(&rt, PAIR, &[1], Mode::Move, &[1], Mode::Move);
    so(&rt, PAIR, &[3], Mode::Mut, &[3], Mode::Mut);
}

#[test]
fn raw_pointers_are_read(rt: HostRuntime) {
    so(&rt, RAW_INTS, &[0, 1], Mode::Imm, &[], Mode::Imm);
    so(&rt, RAW_INTS, &[0], Mode::Mut, &[], Mode::Imm);
    so(&rt, RAW_INTS, &[], Mode::Mut, &[], Mode::Mut);
}

#[test]
fn unions_are_taken_whole(rt: HostRuntime) {
    so(&rt, UNION, &[2, 1], Mode::Move, &[], Mode::Imm);
    so(&rt, UNION, &[4], Mode::Mut, &[], Mode::Mut);
    so(&rt, UNION_MUT, &[2, 0, 1], Mode::Mut, &[], Mode::Unique);
    so(&rt, UNION_MUT, &[2], Mode::Move, &[], Mode::Move);
}

#[test]
fn shared_references_are_reborrowed(rt: HostRuntime) {
    so(&rt, REF_PAIR, &[0, 1], Mode::Imm, &[0], Mode::Imm);
    so(
        &rt,
        REF_HOLDER,
        &[0, 2, 0, 2],
        Mode::Imm,
        &[0, 2, 0],
        Mode::Imm,
    );
    so(&rt, REF_HOLDER, &[0, 2], Mode::Imm, &[0], Mode::Imm);
    so(&rt, MUT_INTS, &[0, 1], Mode::Mut, &[0, 1], Mode::Mut);
}

#[test]
fn boxes_are_taken_precisely_or_moved_whole(rt: HostRuntime) {
    so(&rt, BOX_PAIR, &[0, 1], Mode::Imm, &[0, 1], Mode::Imm);
    so(&rt, BOX_PAIR, &[0, 1], Mode::Mut, &[0, 1], Mode::Mut);
    so(&rt, BOX_PAIR, &[0, 1], Mode::Move, &[], Mode::Move);
    so(&rt, BOX_PAIR, &[0, 3], Mode::Move, &[0, 3], Mode::Imm);
    so_in_move(&rt, BOX_PAIR, &[0, 1], Mode::Imm, &[]);
}

#[test]
fn move_closures_move(rt: HostRuntime) {
    so_in_move(&rt, MUT_INTS, &[0, 1], Mode::Mut, &[]);
    so_in_move(&rt, REF_PAIR, &[0, 1], Mode::Imm, &[]);
    so_in_move(&rt, RAW_INTS, &[0, 1], Mode::Imm, &[]);
    so_in_move(&rt, NESTED, &[2, 1], Mode::Imm, &[2, 1]);
    so_in_move(&rt, UNION, &[4], Mode::Mut, &[]);
}

// 5 is a mutable reference to 0, 8 a shared reference to 1, 6 a raw pointer to 0, 19 a Box of the error
// type 3, 45 a mutable reference to the raw pointer 10.
#[test]
fn the_spelled_world(rt: HostRuntime) {
    let w = Spelled {};
    assert!(rt; narrows(&w, 5, (&[0], Mode::Mut), false, (&[0], Mode::Mut)));
    assert!(rt; narrows(&w, 8, (&[0, 1, 3], Mode::Imm), false, (&[0], Mode::Imm)));
    assert!(rt; narrows(&w, 6, (&[0], Mode::Mut), false, (&[], Mode::Imm)));
    assert!(rt; narrows(&w, 19, (&[0], Mode::Move), false, (&[0], Mode::Imm)));
    assert!(rt; narrows(&w, 15, (&[0], Mode::Move), false, (&[], Mode::Move)));
    assert!(rt; narrows(&w, 45, (&[0, 0], Mode::Mut), false, (&[0], Mode::Imm)));
    assert!(rt; narrows(&w, 45, (&[0, 0], Mode::Mut), true, (&[], Mode::Move)));
}

// A mutable reference that is written through is only borrowed uniquely; a Box and a tuple are borrowed
// mutably.
#[test]
fn cuts_of_written_places(rt: HostRuntime) {
    let rows = types();
    let w = Sample { rows: &rows };
    let through_ref = use_of(&[0, 1], Mode::Mut);
    assert!(rt; cut_to(&w, MUT_INTS, through_ref, 0) == use_of(&[], Mode::Unique));
    assert!(rt; cut_to(&w, MUT_INTS, through_ref, 1) == use_of(&[0], Mode::Mut));
    assert!(rt; cut_to(&w, MUT_INTS, through_ref, 2) == use_of(&[0, 1], Mode::Mut));
    assert!(rt; cut_to(&w, BOX_PAIR, through_ref, 0) == use_of(&[], Mode::Mut));
    let field = use_of(&[1], Mode::Mut);
    assert!(rt; cut_to(&w, INTS, field, 0) == use_of(&[], Mode::Mut));
}

#[test]
fn kinds(rt: HostRuntime) {
    let read = use_of(&[], Mode::Imm);
    let written = Use {
        mode: sited(Mode::Mut, 12),
        ..read
    };
    let unique = Use {
        mode: sited(Mode::Unique, 10),
        ..read
    };
    let none = kind_of_closure(&[]);
    assert_eq!(rt; none, sited(Kind::Fn, 0));
    let reads = kind_of_closure(&[read, read]);
    assert_eq!(rt; reads, sited(Kind::Fn, 9));
    let writes = kind_of_closure(&[read, unique, written]);
    assert_eq!(rt; writes, sited(Kind::FnMut, 10));
    let moves = kind_of_closure(&[written, use_of(&[1], Mode::Move), unique]);
    assert_eq!(rt; moves, sited(Kind::FnOnce, 9));
}

// A move closure that only reads is Fn, since its kind is read before the last rule.
#[test]
fn move_does_not_change_the_kind(rt: HostRuntime) {
    let rows = types();
    let w = Sample { rows: &rows };
    let used = use_of(&[1], Mode::Imm);
    let kind = kind_of_closure(&[reach(&w, PAIR, used, false)]);
    assert!(rt; kind.value == Kind::Fn);
    assert!(rt; narrow(&w, PAIR, used, false, true) == use_of(&[1], Mode::Move));
}
