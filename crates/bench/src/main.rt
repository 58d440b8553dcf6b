// Times open on the file at standard input: `bench RUNS` prints the best of so many runs. Without a number it times nothing.

#![tactic(auto)]

use body::open::open;
use indexing::rows::Row;
use input::{INDEX_ROWS, MOST_BYTES, read_some};
use std::{env, io};
use timing::best;

fn main(rt: HostRuntime) -> io::Result<()> {
    let words = env::args(&rt)?.skip(1);
    let runs = words
        .filter_map(|word| word.as_str().parse().ok())
        .last()
        .unwrap_or(0);
    let mut buffer = vec![in rt.alloc(); 0; MOST_BYTES]?;
    let mut rows = vec![in rt.alloc(); Row::default(); INDEX_ROWS]?;
    let len = read_some(&mut rt.stdin(), buffer.as_mut_slice())?;
    if runs > 0 {
        let file = &buffer.as_slice()[0..len];
        let nanos = best(&rt, runs, || open(file, rows.as_mut_slice()).is_ok())?;
        println!(rt; "{len} bytes opened in {nanos} ns")?;
    }
    Ok(())
}
