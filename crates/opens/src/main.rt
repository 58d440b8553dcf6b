// Replays a list of files: a line is a number of index rows and a file in hex, and the answer to it is a line: the counts
// and closures of the body that it opens as, or the refusal.

#![tactic(auto)]

ghost use Rattle.std.specs.Prelude.{◌≤◌};

use body::bodies::{Body, ClosureNode};
use body::open::open;
use indexing::rows::Row;
use std::alloc::{AllocError, Global};
use std::io;
use std::io::{BufRead, BufReader};

const INDEX_ROWS: usize = 4096;

fn digit(byte: u8) -> Option<u8> {
    match byte {
        b'0'..=b'9' => Some(byte - b'0'),
        b'a'..=b'f' => Some(byte - b'a' + 10),
        _ => None,
    }
}

// The bytes that a text spells, two digits each; what is no pair of digits is passed over.
fn bytes_of(heap: Global, text: &[u8]) -> Result<Vec<u8>, AllocError> {
    let mut bytes = Vec::new(heap);
    let mut high = None;
    for low in text.iter().filter_map(|c| digit(*c)) {
        match high.take() {
            Some(first) => bytes.push((first & 15) << 4 | low)?,
            None => high = Some(low),
        }
    }
    Ok(bytes)
}

fn print_body(rt: &impl Print, body: &Body) -> io::Result<()> {
    let types = body.type_count();
    let bindings = body.binding_count();
    let nodes = body.node_count();
    print!(rt; "ok {types} {bindings} {nodes}")?;
    for closure in (1..=body.closure_count()).filter_map(|k| body.closure(k)) {
        let ClosureNode {
            node,
            body,
            by_move,
            home,
        } = closure;
        let clause = if by_move { "move" } else { "-" };
        print!(rt; " {node}:{body}:{clause}:{home}")?;
    }
    println!(rt; "")
}

// One line: the rows, a space, and the file.
fn replay(rt: &(impl Print + AllocGlobal), line: &str) -> io::Result<()> {
    let heap = rt.alloc();
    let Some((rows, hex)) = line.split_once(' ') else {
        return println!(rt; "no file");
    };
    let count = rows
        .parse::<usize>()
        .map_or(0, |count| count.min(INDEX_ROWS));
    let mut table = vec![in heap; Row::default(); count]?;
    let file = bytes_of(heap, hex.as_bytes())?;
    match open(file.as_slice(), table.as_mut_slice()) {
        Ok(body) => print_body(rt, &body),
        Err(fault) => println!(rt; "refused {fault}"),
    }
}

fn main(rt: HostRuntime) -> io::Result<()> {
    for line in BufReader::new(rt.alloc(), rt.stdin())?.lines(rt.alloc()) {
        let line = line?;
        replay(&rt, line.as_str())?;
    }
    Ok(())
}
