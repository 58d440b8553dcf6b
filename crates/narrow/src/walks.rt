// Walks along a path from a type: the type that is reached, and where the path dereferences.
ghost use Rattle.std.specs.Prelude.{◌≡◌};
ghost use Rattle.narrow.specs.Walks.{type_after, derefs, meets, unsafe_at, until_deref, last_deref, until_shared};

use world::shapes::Pointer;
use world::worlds::World;

// The type to which a path leads.
pub fn led<W: World>(w: &W, from: u16, path: &[u16]) -> u16
    ensures { result ≡ type_after (W.World.means w.now) from path.now }
{
    path.iter().fold(from, |at, s| w.step(at, *s))
}

// Whether a step dereferences a pointer of a sort, from a type.
pub fn is_deref<W: World>(w: &W, t: u16, s: u16, sort: Pointer) -> bool
    ensures { result ≡ derefs (W.World.means w.now) sort t s }
{
    s == 0 && w.shape(t).is_pointer(sort)
}

// Whether a path dereferences a pointer of a sort.
pub fn has_deref<W: World>(w: &W, from: u16, path: &[u16], sort: Pointer) -> bool
    ensures { result ≡ meets (W.World.means w.now) sort from path.now }
{
    let mut t = from;
    for s in path {
        if is_deref(w, t, *s, sort) {
            return true;
        }
        t = w.step(t, *s);
    }
    false
}

// The length of the shortest prefix whose type is a raw pointer or a union.
pub fn to_unsafe<W: World>(w: &W, from: u16, path: &[u16]) -> usize
    ensures { result ≡ unsafe_at (W.World.means w.now) from path.now }
{
    let mut t = from;
    for (i, s) in path.iter().enumerate() {
        if w.shape(t).is_stop() {
            return i;
        }
        t = w.step(t, *s);
    }
    path.len()
}

// The number of steps before the first dereference.
pub fn to_deref(path: &[u16]) -> usize
    ensures { result ≡ until_deref path.now }
{
    path.iter().position(|s| *s == 0).unwrap_or(path.len())
}

// The index of the last dereference.
pub fn last_deref_of(path: &[u16]) -> Option<usize>
    ensures { result ≡ last_deref path.now }
{
    let last = path.iter().rposition(|s| *s == 0)?;
    Some(last)
}

// The number of steps up to and with the last dereference, if that is of a shared reference, else of all.
pub fn to_shared<W: World>(w: &W, from: u16, path: &[u16]) -> usize
    ensures { result ≡ until_shared (W.World.means w.now) from path.now }
{
    let Some(k) = last_deref_of(path) else {
        return path.len();
    };
    let behind = w.shape(led(w, from, &path[0..k]));
    if behind.is_pointer(Pointer::ToShared) {
        k + 1
    } else {
        path.len()
    }
}
