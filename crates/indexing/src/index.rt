// The one pass over a file that opens it: each record is read, looked at and given its row.
ghost use Rattle.std.specs.Prelude.{◌≡◌, ℕ, ◌+◌, ◌≤◌, true, false, length, drop, is_some, slice_index_or};
ghost use Rattle.reader.specs.Operands.{all};
ghost use Rattle.reader.specs.Reading.{view_record};
ghost use Rattle.indexing.specs.Checks.{operands_left, entered};
ghost use Rattle.indexing.specs.Opening.{misowned, has_strayed, astray, opened};
ghost use Rattle.indexing.specs.Indexing.{Fitting, row_for, noted, ended, Indexes};

use crate::check::enter;
use crate::faults::BodyFault;
use crate::rows::{Row, RowSort};
use reader::counts::Counts;
use reader::payload::Item;
use reader::pieces::byte_at;
use reader::records::{Reader, Record};

// What an index needs beside its rows: how many records there are of each sort, and the node of each closure, by its
// number from 1.
#[derive(Clone, Copy)]
pub struct Core {
    pub counts: Counts,
    pub closures: [u16; 65],
}

fn is_marked(marks: &[bool], node: usize) -> bool
    ensures { result ≡ slice_index_or marks.now node false }
{
    marks.get(node).copied().unwrap_or(false)
}

// Whether a node has a home but no parent.
fn is_astray(row: Row, marks: &[bool], node: usize) -> bool
    ensures { result ≡ has_strayed marks.now node row }
{
    row.home != 0 && !is_marked(marks, node)
}

// The first binding whose owner is above the closure count: where its record begins.
fn misowned(bindings: &[Row], closures: u8) -> Option<usize>
    ensures { result ≡ misowned closures bindings.now }
{
    let row = bindings.iter().find(|row| row.home > closures)?;
    Some(row.offset)
}

// The first node that has a home but no parent: where its record begins.
fn astray(nodes: &[Row], marks: &[bool]) -> Option<usize>
    ensures { result ≡ astray marks.now 1 nodes.now }
{
    let (_, row) = nodes
        .iter()
        .enumerate()
        .find(|(i, row)| is_astray(**row, marks, i + 1))?;
    Some(row.offset)
}

// The rows of the nodes, behind those of the types and bindings.
fn nodes_in<'a>(rows: &'a [Row], counts: Counts) -> &'a [Row]
    ensures { result.now ≡ drop (counts.types + counts.bindings) rows.now }
{
    let from = counts.types as usize + counts.bindings as usize;
    rows.get(from..).unwrap_or(&[])
}

// The row of a record, behind those of the records before it; the counts have the record in.
fn row_for(
    rows: &[Row],
    counts: Counts,
    marks: &mut [bool],
    found: Record,
) -> Result<Row, BodyFault>
    requires { Fitting found.item found.payload.now }
    ensures { row_for rows.now counts marks.old (view_record found.entry) ≡ entered result marks.new }
{
    let offset = found.offset;
    let nodes = nodes_in(rows, counts);
    let bindings = counts.bindings as usize;
    match found.item {
        Item::Type => Ok(Row {
            offset,
            sort: RowSort::Type,
            home: 0,
            depth: 0,
        }),
        Item::Binding => Ok(Row {
            offset,
            sort: RowSort::Binding,
            home: byte_at(found.payload, 2),
            depth: 0,
        }),
        Item::Node => enter(nodes, bindings, marks, None, offset, found.payload),
        Item::Closure => enter(
            nodes,
            bindings,
            marks,
            Some(counts.closures),
            offset,
            found.payload,
        ),
    }
}

// Notes the node of a closure under its number.
fn note(closures: &mut [u16], counts: Counts, item: Item)
    ensures { closures.new ≡ noted closures.old counts item }
{
    let at = counts.closures as usize;
    if item == Item::Closure && at < closures.len() {
        closures[at] = counts.nodes;
    }
}

// After the last record: owners, and homes of nodes without a parent.
fn check_end(rows: &[Row], counts: Counts, marks: &[bool]) -> Result<(), BodyFault>
    requires { counts.types + counts.bindings ≤ length rows.now }
    ensures { result ≡ ended rows.now counts marks.now }
{
    let types = counts.types as usize;
    let bindings = types + counts.bindings as usize;
    let misowned = misowned(&rows[types..bindings], counts.closures);
    match misowned.or_else(|| astray(&rows[bindings..], marks)) {
        Some(offset) => Err(BodyFault::Home { offset }),
        None => Ok(()),
    }
}

// Fills the index table, or says why the file is refused.
pub fn index(file: &[u8], rows: &mut [Row]) -> Result<Core, BodyFault>
    ensures { Indexes (opened (length rows.old) file.now) result rows.new }
{
    let mut reader = Reader::new(file);
    let mut marks = [false; 2049];
    let mut closures = [0; 65];
    let mut count = 0;
    while let Some(found) = reader.next(rows.len() - count)? {
        let counts = reader.counts();
        let row = row_for(&rows[0..count], counts, &mut marks, found)?;
        note(&mut closures, counts, found.item);
        rows[count] = row;
        count += 1;
    }
    let counts = reader.counts();
    check_end(&rows[0..count], counts, &marks)?;
    Ok(Core { counts, closures })
}
