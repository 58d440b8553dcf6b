// A reader's place in a file, and what it gives.
ghost use Rattle.std.specs.Prelude.{◌+◌, ◌^◌, ◌<◌, length};

use crate::counts::Counts;
use crate::payload::Item;

// Where a reader stands: what is left of the file, the offset of that, the tag before it and the records so far.
#[derive(Clone, Copy)]
pub struct Reader<'a> {
    pub(crate) rest: &'a [u8],
    pub(crate) offset: usize,
    pub(crate) last: u8,
    pub(crate) counts: Counts,
    ghost within: { offset + length rest.now < 2 ^ 64 },
}

// A record that stands by itself: where it begins, what it counts as, and its payload.
#[derive(Clone, Copy)]
pub struct Record<'a> {
    pub offset: usize,
    pub item: Item,
    pub payload: &'a [u8],
}
