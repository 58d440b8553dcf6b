// The spelled world against a table that was written by hand from its rules.
use std::process::Abort;
use world::shapes::Shape;
use world::spelled::Spelled;
use world::worlds::World;

// The types from 0 to 70: o other, e error, & shared reference, m mutable reference, p raw pointer, b Box.
const SHAPES: [u8; 71] =
    *b"oooe&mpb&mpb&mpb&mpb&mpb&mpb&mpb&mpb&mpb&mpb&mpb&mpb&mpb&mpb&mpb&mpb&mp";

// Which of them are Copy.
const COPIES: [u8; 71] =
    *b"yynyynynynynynynynynynynynynynynynynynynynynynynynynynynynynynynynynyny";

// What each dereferences to.
const TARGETS: [u16; 71] = [
    3, 3, 3, 3, 0, 0, 0, 0, 1, 1, 1, 1, 2, 2, 2, 2, 3, 3, 3, 3, 4, 4, 4, 4, 5, 5, 5, 5, 6, 6, 6, 6,
    7, 7, 7, 7, 8, 8, 8, 8, 9, 9, 9, 9, 10, 10, 10, 10, 11, 11, 11, 11, 12, 12, 12, 12, 13, 13, 13,
    13, 14, 14, 14, 14, 15, 15, 15, 15, 16, 16, 16,
];

fn letter(shape: Shape) -> u8 {
    match shape {
        Shape::Other => b'o',
        Shape::Error => b'e',
        Shape::Shared => b'&',
        Shape::Mutable => b'm',
        Shape::Raw => b'p',
        Shape::Boxed => b'b',
        _ => b'?',
    }
}

fn yes_or_no(copies: bool) -> u8 {
    if copies { b'y' } else { b'n' }
}

#[test]
fn small_numbers(rt: HostRuntime) {
    let w = Spelled {};
    assert!(rt; w.error_type() == 3);
    for (((t, shape), copies), target) in (0..71).zip(SHAPES).zip(COPIES).zip(TARGETS) {
        spells(&rt, t, shape, copies, target);
        assert!(rt; w.step(t, 2) == 3);
        assert!(rt; w.step(t, 65535) == 3);
    }
}

fn spells(rt: &impl Abort, t: u16, shape: u8, copies: u8, target: u16) {
    let w = Spelled {};
    assert!(rt; letter(w.shape(t)) == shape);
    assert!(rt; yes_or_no(w.is_copy(t)) == copies);
    assert!(rt; w.step(t, 0) == target);
    assert!(rt; w.step(t, 1) == 3);
}

#[test]
fn large_numbers(rt: HostRuntime) {
    spells(&rt, 65526, b'p', b'y', 16380);
    spells(&rt, 65527, b'b', b'n', 16380);
    spells(&rt, 65528, b'&', b'y', 16381);
    spells(&rt, 65529, b'm', b'n', 16381);
    spells(&rt, 65530, b'p', b'y', 16381);
    spells(&rt, 65531, b'b', b'n', 16381);
    spells(&rt, 65532, b'&', b'y', 16382);
    spells(&rt, 65533, b'm', b'n', 16382);
    spells(&rt, 65534, b'p', b'y', 16382);
    spells(&rt, 65535, b'b', b'n', 16382);
}
