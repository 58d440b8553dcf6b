// A path: the steps from a binding to a part of it. A step is 0 for a dereference, 2i + 1 for field i
// of a tuple and 2i + 2 for field i of a struct or union.
ghost use Rattle.std.specs.Prelude.{◌≡◌, ℕ, ◌≤◌, length, slice_index};

mod methods;

// The most steps that a path may have.
pub const MOST: usize = 16;

// Zeros stand behind the end, so that two paths with the same steps are the same value.
#[derive(Clone, Copy, PartialEq, Eq, Debug)]
pub struct Path {
    steps: [u16; MOST],
    len: usize,
    ghost whole: { length steps ≡ 16 },
    ghost short: { len ≤ 16 },
    ghost clear: { (k : ℕ) → len ≤ k → slice_index steps k ≡ 0 },
}

// The path of a binding itself.
pub const EMPTY: Path = Path {
    steps: [0; MOST],
    len: 0,
};
