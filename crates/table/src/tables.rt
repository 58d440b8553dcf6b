// The table world over a file, and the one pass over the file that makes it.
ghost use Rattle.std.specs.Prelude.{◌≡◌, length};
ghost use Rattle.table.specs.Entries.{type_entries, view_world};

use reader::faults::ReaderFault;
use reader::records::Reader;

// The types of a file: its bytes, and where its type records begin, in their order.
#[derive(Clone, Copy)]
pub struct TableWorld<'a> {
    pub(crate) file: &'a [u8],
    pub(crate) offsets: &'a [usize],
}

// Reads a file with the caller's index table: every record, not the types alone, is checked and has its row there. Since
// types come first, theirs are the first rows.
pub fn read_types<'a>(
    file: &'a [u8],
    offsets: &'a mut [usize],
) -> Result<TableWorld<'a>, ReaderFault>
    ensures { view_world result ≡ type_entries (length offsets.old) file.now }
{
    let mut reader = Reader::new(file);
    let mut count = 0;
    while let Some(found) = reader.next(offsets.len() - count)? {
        offsets[count] = found.offset;
        count += 1;
    }
    let types = reader.counts().types as usize;
    Ok(TableWorld {
        file,
        offsets: &offsets[0..types],
    })
}
