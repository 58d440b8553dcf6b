// The cut of a use to a prefix of its path, and the four rules that narrow a use, in their order.
// `from` is the type of the place's binding.
ghost use Rattle.std.specs.Prelude.{◌≡◌};
ghost use Rattle.narrow.specs.Views.{view};
ghost use Rattle.narrow.specs.Narrowing.{with_mode, kept, cuts_through, mode_cut, cut, copy_read, raw_read, stop_at_unsafe, behind_shared, before_dereference, reached, narrowed};

use crate::walks::{has_deref, led, to_deref, to_shared, to_unsafe};
use place::places::Place;
use place::uses::Use;
use scale::modes::Mode;
use scale::sited::Sited;
use world::shapes::Pointer;
use world::worlds::World;

// Whether the part of a path behind its first n steps dereferences a mutable reference.
pub fn cuts_through<W: World>(w: &W, from: u16, path: &[u16], n: usize) -> bool
    ensures { result ≡ cuts_through (W.World.means w.now) from path.now n }
{
    n < path.len() && has_deref(w, led(w, from, &path[0..n]), &path[n..], Pointer::ToMutable)
}

// The mode of a use whose path is cut to its first n steps.
pub fn cut_mode_of<W: World>(w: &W, from: u16, path: &[u16], n: usize, mode: Mode) -> Mode
    ensures { result ≡ mode_cut (W.World.means w.now) from path.now n mode }
{
    let through = cuts_through(w, from, path, n);
    match mode {
        Mode::Mut if through => Mode::Unique,
        _ => mode,
    }
}

// A use with another mode.
pub fn with_mode_of(used: Use<Mode>, value: Mode) -> Use<Mode>
    ensures { view result ≡ with_mode (view used) value }
{
    Use {
        mode: Sited { value, ..used.mode },
        ..used
    }
}

// The first n steps of a use, with a mode.
pub fn keep(used: Use<Mode>, n: usize, value: Mode) -> Use<Mode>
    ensures { view result ≡ kept (view used) n value }
{
    let place = Place {
        path: used.place.path.cut(n),
        ..used.place
    };
    with_mode_of(Use { place, ..used }, value)
}

// A use cut to its first n steps.
pub fn cut_to<W: World>(w: &W, from: u16, used: Use<Mode>, n: usize) -> Use<Mode>
    ensures { view result ≡ cut (W.World.means w.now) from (view used) n }
{
    let value = cut_mode_of(w, from, used.place.path.steps(), n, used.mode.value);
    keep(used, n, value)
}

// The first rule: a move of what is Copy is a read. Whether the place's type is Copy is asked outside,
// since a closure's own type is Copy as its captures say.
pub fn copy_read(used: Use<Mode>, copies: bool) -> Use<Mode>
    ensures { view result ≡ copy_read copies (view used) }
{
    match used.mode.value {
        Mode::Move if copies => with_mode_of(used, Mode::Imm),
        _ => used,
    }
}

// What lies behind a raw pointer is reached by reading the pointer.
pub fn read_raw<W: World>(w: &W, from: u16, used: Use<Mode>) -> Use<Mode>
    ensures { view result ≡ raw_read (W.World.means w.now) from (view used) }
{
    if has_deref(w, from, used.place.path.steps(), Pointer::ToRaw) {
        with_mode_of(used, Mode::Imm)
    } else {
        used
    }
}

// The second rule: the path ends at the first raw pointer or union.
pub fn stop_at_unsafe<W: World>(w: &W, from: u16, used: Use<Mode>) -> Use<Mode>
    ensures { view result ≡ stop_at_unsafe (W.World.means w.now) from (view used) }
{
    let n = to_unsafe(w, from, used.place.path.steps());
    cut_to(w, from, read_raw(w, from, used), n)
}

// The third rule: the path ends behind its last dereference, if that is of a shared reference.
pub fn behind_shared<W: World>(w: &W, from: u16, used: Use<Mode>) -> Use<Mode>
    ensures { view result ≡ behind_shared (W.World.means w.now) from (view used) }
{
    let n = to_shared(w, from, used.place.path.steps());
    cut_to(w, from, used, n)
}

// The fourth rule: a move ends before the first dereference; in a move closure every use is a move.
pub fn before_dereference(used: Use<Mode>, by_move: bool) -> Use<Mode>
    ensures { view result ≡ before_dereference by_move (view used) }
{
    if by_move || used.mode.value == Mode::Move {
        keep(used, to_deref(used.place.path.steps()), Mode::Move)
    } else {
        used
    }
}

// A use after the first three rules, where the closure's kind is read.
pub fn reach<W: World>(w: &W, from: u16, used: Use<Mode>, copies: bool) -> Use<Mode>
    ensures { view result ≡ reached copies (W.World.means w.now) from (view used) }
{
    let read = copy_read(used, copies);
    behind_shared(w, from, stop_at_unsafe(w, from, read))
}

// A use after all four rules.
pub fn narrow<W: World>(w: &W, from: u16, used: Use<Mode>, copies: bool, by_move: bool) -> Use<Mode>
    ensures { view result ≡ narrowed by_move copies (W.World.means w.now) from (view used) }
{
    before_dereference(reach(w, from, used, copies), by_move)
}
