// A reader steps through a file record by record, and refuses what one record can be refused for.
ghost use Rattle.std.specs.Prelude.{◌≡◌, ℕ, ◌+◌, ◌^◌, ◌<◌, length};
ghost use Rattle.reader.specs.Reading.{view_answer, state, start, reads, checks, blamed};

use crate::counts::Counts;
use crate::faults::ReaderFault;
use crate::payload::{Item, Wrong, item_of};
use crate::pieces::{Piece, first_record};
use crate::records::{Reader, Record};

impl<'a> Reader<'a> {
    pub fn new(file: &'a [u8]) -> Reader<'a>
        ensures { state result ≡ start file.now }
    {
        Reader {
            rest: file,
            offset: 0,
            last: 0,
            counts: Counts::default(),
        }
    }

    // The records passed so far.
    pub fn counts(&self) -> Counts
        ensures { result ≡ (state self.now).counts }
    {
        self.counts
    }

    // The next record, where so many index rows are left for it and those behind it; none at the end of the file.
    // The reader moves behind the record that it gives, and else stays.
    pub fn next(&mut self, rows_left: usize) -> Result<Option<Record<'a>>, ReaderFault>
        ensures answer { view_answer result ≡ (reads rows_left (state self.old)).answer }
        ensures moves { state self.new ≡ (reads rows_left (state self.old)).state }
    {
        let offset = self.offset;
        if self.rest.is_empty() {
            return Ok(None);
        }
        let piece = first_record(self.rest).ok_or(ReaderFault::PastEnd { offset })?;
        let (item, counts) = self.check(piece, rows_left)?;
        self.rest = piece.rest;
        self.offset = offset + 3 + piece.payload.len();
        self.last = piece.tag;
        self.counts = counts;
        Ok(Some(Record {
            offset,
            item,
            payload: piece.payload,
        }))
    }

    // What a record is and the counts with it, or why it is refused.
    fn check(&self, piece: Piece<'a>, rows_left: usize) -> Result<(Item, Counts), ReaderFault>
        ensures { result ≡ checks rows_left (state self.now) piece.entry.tag piece.entry.payload.now }
    {
        let offset = self.offset;
        if piece.tag < self.last {
            return Err(ReaderFault::Unknown { offset });
        }
        let item = item_of(piece.tag, piece.payload).map_err(|wrong| blame(wrong, offset))?;
        match self.counts.one_more(item) {
            Some(counts) if rows_left > 0 => Ok((item, counts)),
            _ => Err(ReaderFault::TooMany { offset }),
        }
    }
}

// A payload's fault at a record.
fn blame(wrong: Wrong, offset: usize) -> ReaderFault
    ensures { result ≡ blamed wrong offset }
{
    match wrong {
        Wrong::Unknown => ReaderFault::Unknown { offset },
        Wrong::Misfit => ReaderFault::Misfit { offset },
    }
}
