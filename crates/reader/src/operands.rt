// The operands of a node, read one by one by the sorts of its class.
ghost use Rattle.std.specs.Prelude.{◌≡◌, IfNone, is_some};
ghost use Rattle.std.specs.Iterator.{YieldsFirst, item_count};
ghost use Rattle.reader.specs.Operands.{all, next, read, spelled, turn, view_left};

use crate::class::Sort;

#[derive(Clone, Copy, PartialEq, Eq, Debug)]
pub struct Operand {
    pub sort: Sort,
    pub number: u16,
}

// What is left to read: the bytes, the sorts that come next, and those that then come over and over.
// As an iterator it gives the operands up to the end, or to where the bytes do not fit the sorts.
#[derive(Clone, Copy)]
pub struct Operands<'a> {
    pub bytes: &'a [u8],
    pub sorts: &'a [Sort],
    pub again: &'a [Sort],
}

impl<'a> Operands<'a> {
    // The sorts that come next: where they are used up, those that repeat begin over.
    fn turn(self) -> &'a [Sort]
        ensures { result.now ≡ turn self.entry.again.now self.entry.sorts.now }
    {
        if self.sorts.is_empty() {
            self.again
        } else {
            self.sorts
        }
    }

    // Reads the next operand; none, and nothing is read, at the end or where the bytes do not fit the sorts.
    pub fn read(&mut self) -> Option<Operand>
        ensures reads { read result (view_left self.new) ≡ next (view_left self.old) }
        ensures stays { IfNone result (view_left self.new ≡ view_left self.old) }
    {
        let [sort, sorts @ ..] = self.turn() else {
            return None;
        };
        let (number, bytes) = match (*sort, self.bytes) {
            (Sort::Flag(most), [flag, bytes @ ..]) if *flag <= most => (*flag as u16, bytes),
            (Sort::Flag(_), _) => return None,
            (_, [high, low, bytes @ ..]) => (*high as u16 * 256 + *low as u16, bytes),
            _ => return None,
        };
        self.bytes = bytes;
        self.sorts = sorts;
        Some(Operand {
            sort: *sort,
            number,
        })
    }

    // Whether the bytes end where the sorts do, with every flag in its bounds.
    pub(crate) fn fit(mut self) -> bool
        ensures { result ≡ is_some (all (view_left self.entry)) }
    {
        while self.read().is_some() {}
        self.bytes.is_empty() && self.sorts.is_empty()
    }
}

impl Iterator for Operands<'_> {
    type Item = Operand;

    ghost next_gives = { YieldsFirst (λ s. spelled (view_left s)) };

    ghost remaining = { item_count (λ s. spelled (view_left s)) };

    fn next(&mut self) -> Option<Operand> {
        self.read()
    }
}
