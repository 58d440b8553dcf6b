// A row of numbers of two bytes each, high byte first; past the end of it they are 0.
ghost use Rattle.reader.specs.Numbers.{numbers, some_bytes, count_numbers, step_numbers};

use crate::entries::{Entries, Entry};

pub type Numbers<'a> = Entries<'a, u16>;

impl Entry for u16 {
    const SIZE: usize = 2;

    ghost SIZE = { 2 };

    ghost all = { numbers };

    ghost past = { 0 };

    fn first(bytes: &[u8]) -> Option<u16> {
        let [high, low, ..] = bytes else {
            return None;
        };
        Some(*high as u16 * 256 + *low as u16)
    }

    ghost sized = { some_bytes };

    ghost counts = { count_numbers };

    ghost steps = { step_numbers };

    ghost defaults = { λ x d. d };
}
