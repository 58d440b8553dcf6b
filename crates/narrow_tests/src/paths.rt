// Paths and places: their most steps, prefixes and ancestors.
use place::path::{EMPTY, Path};
use place::places::Place;

// The path of some steps, up to the sixteenth.
pub fn path_of(steps: &[u16]) -> Path {
    steps
        .iter()
        .fold(EMPTY, |path, s| path.extend(*s).unwrap_or(path))
}

fn place_of(binding: u16, steps: &[u16]) -> Place {
    Place {
        binding,
        path: path_of(steps),
    }
}

#[test]
fn sixteen_steps_pass(rt: HostRuntime) {
    let steps = [1, 0, 3, 0, 5, 0, 7, 0, 9, 0, 11, 0, 13, 0, 15, 65532];
    let path = path_of(&steps);
    assert!(rt; path.len() == 16);
    assert!(rt; path.steps() == steps.as_slice());
    assert!(rt; path.extend(0).is_none());
    assert!(rt; path.extend(1).is_none());
    assert!(rt; path.cut(15).extend(0).is_some());
    assert!(rt; path_of(&[0; 17]).len() == 16);
}

#[test]
fn cuts(rt: HostRuntime) {
    let path = path_of(&[1, 0, 4]);
    assert!(rt; path.cut(0).len() == 0);
    assert!(rt; path.cut(2).steps() == [1, 0].as_slice());
    assert!(rt; path.cut(3).steps() == path.steps());
    assert!(rt; path.cut(99).steps() == path.steps());
}

#[test]
fn ancestors(rt: HostRuntime) {
    let whole = Place::whole(7);
    let field = place_of(7, &[1]);
    let deep = place_of(7, &[1, 0]);
    let beside = place_of(7, &[3]);
    let other = place_of(8, &[1]);
    assert!(rt; field.lies_under(&whole));
    assert!(rt; deep.lies_under(&field));
    assert!(rt; deep.lies_under(&deep));
    assert!(rt; !field.lies_under(&deep));
    assert!(rt; !beside.lies_under(&field));
    assert!(rt; !other.lies_under(&whole));
    assert!(rt; whole.is_ancestor_of(&deep));
    assert!(rt; !deep.is_ancestor_of(&deep));
    assert!(rt; !field.is_ancestor_of(&other));
    assert!(rt; deep.is_same(&place_of(7, &[1, 0])));
    assert!(rt; !deep.is_same(&field));
    assert!(rt; !field.is_same(&other));
}
