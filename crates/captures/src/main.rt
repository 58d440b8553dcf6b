// Reads the first 65,535 bytes of standard input as a body file, and lists its closures, or the refusal.

#![tactic(auto)]

use body::open::open;
use indexing::rows::Row;
use input::{INDEX_ROWS, MOST_BYTES, read_some};
use std::io;

fn main(rt: HostRuntime) -> io::Result<()> {
    let mut buffer = vec![in rt.alloc(); 0; MOST_BYTES]?;
    let mut rows = vec![in rt.alloc(); Row::default(); INDEX_ROWS]?;
    let len = read_some(&mut rt.stdin(), buffer.as_mut_slice())?;
    match open(&buffer.as_slice()[0..len], rows.as_mut_slice()) {
        Ok(body) => {
            for number in 1..=body.closure_count() {
                println!(rt; "closure {number} -")?;
            }
            Ok(())
        }
        Err(fault) => println!(rt; "refused {}", fault.number()),
    }
}
