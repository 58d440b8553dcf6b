// What can be asked of a path, and the paths that are made of one.
ghost use Rattle.std.specs.Prelude.{◌≡◌, length, take};
ghost use Rattle.std.specs.Option.{option_map};
ghost use Rattle.place.specs.Places.{steps_of, extended, begins};

use crate::path::{MOST, Path};

impl Path {
    pub fn len(&self) -> usize
        ensures { result ≡ length (steps_of self.now) }
    {
        self.len
    }

    pub fn steps(&self) -> &[u16]
        ensures { result.now ≡ steps_of self.now }
    {
        &self.steps[0..self.len]
    }

    // The path with one step more; none where it has 16.
    pub fn extend(&self, step: u16) -> Option<Path>
        ensures { option_map steps_of result ≡ extended (steps_of self.now) step }
    {
        if self.len < MOST {
            let mut steps = self.steps;
            steps[self.len] = step;
            Some(Path {
                steps,
                len: self.len + 1,
            })
        } else {
            None
        }
    }

    // The first n steps of the path, which are all where it has no more.
    pub fn cut(self, n: usize) -> Path
        ensures { steps_of result ≡ take n (steps_of self) }
    {
        if n >= self.len {
            return self;
        }
        let mut steps = self.steps;
        steps[n..self.len].fill(0);
        Path { steps, len: n }
    }

    // Whether another path begins with this one.
    pub fn is_prefix_of(&self, other: &Path) -> bool
        ensures { result ≡ begins (steps_of self.now) (steps_of other.now) }
    {
        other.steps().starts_with(self.steps())
    }
}
