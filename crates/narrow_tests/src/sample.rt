// The sample world: a list of types, numbered from 1, each with what at most two steps lead to.
ghost use Rattle.std.specs.Prelude.{◌≡◌};
ghost use Rattle.narrow_tests.specs.Sample.{sample_world, sample_sound, row_of};

use world::shapes::Shape;
use world::worlds::World;

// `first` is what a dereference or the first field leads to, `second` what the second field leads to.
#[derive(Clone, Copy)]
pub struct Row {
    pub shape: Shape,
    pub copies: bool,
    pub first: u16,
    pub second: u16,
}

#[derive(Clone, Copy)]
pub struct Sample<'a> {
    pub rows: &'a [Row],
}

impl Sample<'_> {
    pub fn row(&self, t: u16) -> Option<Row>
        ensures { result ≡ row_of self.now.rows.now t }
    {
        let index = usize::from(t).checked_sub(1)?;
        Some(*self.rows.get(index)?)
    }
}

impl World for Sample<'_> {
    const ERROR: u16 = 0;

    ghost means = { λ w. sample_world w.rows.now };

    ghost sound = { λ w. sample_sound w.rows.now };

    fn error_type(&self) -> u16 {
        Self::ERROR
    }

    fn shape(&self, t: u16) -> Shape {
        self.row(t).map_or(Shape::Error, |row| row.shape)
    }

    fn is_copy(&self, t: u16) -> bool {
        self.row(t).map_or(true, |row| row.copies)
    }

    fn step(&self, t: u16, s: u16) -> u16 {
        match self.row(t) {
            Some(row) if s < 3 => row.first,
            Some(row) if s < 5 => row.second,
            _ => Self::ERROR,
        }
    }
}
