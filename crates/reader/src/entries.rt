// Entries of one size that stand one behind the other, read where they lie in the file.
ghost use Rattle.std.specs.Prelude.{◌≡◌, ℕ, ◌/◌, ◌<◌, List, length, drop, slice_get, slice_index_or};
ghost use Rattle.std.specs.Iterator.{YieldsFirst, item_count};

use crate::pieces::behind;
use std::marker::PhantomData;

// What can stand in such a row: its size in bytes, the list that bytes spell, and what stands past the end of it.
pub trait Entry: Copy + Default {
    const SIZE: usize;

    ghost SIZE: { ℕ };

    ghost all: { List ℕ → List Self };

    ghost past: { Self };

    // The first entry of some bytes; none where there are too few.
    fn first(bytes: &[u8]) -> Option<Self>
        ensures { result ≡ slice_get (all bytes.now) 0 };

    ghost sized: { 0 < SIZE };

    // bytes that do not fill an entry are left out
    ghost counts: { (bs : List ℕ) → length (all bs) ≡ length bs / SIZE };

    ghost steps: { (bs : List ℕ) → drop 1 (all bs) ≡ all (drop SIZE bs) };

    ghost defaults: { (x : Self) → Self.is_default x → x ≡ past };
}

// As an iterator it gives the entries in their order.
#[derive(Clone, Copy)]
pub struct Entries<'a, T> {
    pub bytes: &'a [u8],
    pub of: PhantomData<T>,
}

impl<'a, T: Entry> Entries<'a, T> {
    pub fn new(bytes: &'a [u8]) -> Entries<'a, T>
        ensures { result.bytes.now ≡ bytes.now }
    {
        Entries {
            bytes,
            of: PhantomData,
        }
    }

    pub fn len(self) -> usize
        ensures { result ≡ length (T.all self.entry.bytes.now) }
    {
        self.bytes.len() / T::SIZE
    }

    // The entry at a place from 0; past the end, the one that stands there.
    pub fn get(self, at: usize) -> T
        ensures { result ≡ slice_index_or (T.all self.entry.bytes.now) at T.past }
    {
        T::first(behind(self.bytes, at.saturating_mul(T::SIZE))).unwrap_or_default()
    }
}

impl<T: Entry> Iterator for Entries<'_, T> {
    type Item = T;

    ghost next_gives = { YieldsFirst (λ s. T.all s.bytes.now) };

    ghost remaining = { item_count (λ s. T.all s.bytes.now) };

    fn next(&mut self) -> Option<T> {
        let entry = T::first(self.bytes)?;
        self.bytes = behind(self.bytes, T::SIZE);
        Some(entry)
    }
}
