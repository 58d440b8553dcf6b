// Times the cover by modes on lists of uses: `bench_cover RUNS` prints the best of so many runs of each list. Without a
// number it times nothing, and prints how many captures each list has.

#![tactic(auto)]

mod lists;

use crate::lists::{Sort, fill};
use mode_cover::by_mode::cover_by_mode;
use mode_cover::one_type::OneType;
use place::places::Place;
use place::uses::{Capture, Use};
use scale::modes::Mode;
use scale::sited::Sited;
use std::rt::Clock;
use std::{env, io};
use timing::best;
use world::spelled::Spelled;

// A reference to a mutable reference, in the spelled world.
const BINDING: OneType = OneType { each: 17 };

fn count(uses: &[Use<Mode>], table: &mut [Capture<Mode>]) -> usize {
    cover_by_mode(&Spelled {}, &BINDING, uses, table, 0).unwrap_or(0)
}

// One list: how many captures it has, and the time where runs are asked for.
fn report(
    rt: &(impl Print + Clock + AllocGlobal),
    sort: Sort,
    size: usize,
    runs: u32,
) -> io::Result<()> {
    let place = Place::whole(1);
    let mode = Sited {
        value: Mode::Imm,
        site: 0,
    };
    let mut uses = vec![in rt.alloc(); Use { place, mode }; size]?;
    let mut table = vec![in rt.alloc(); Capture {
        place,
        mode,
        first: 0
    }; size]?;
    fill(sort, uses.as_mut_slice());
    let captures = count(uses.as_slice(), table.as_mut_slice());
    let name = sort.name();
    if runs == 0 {
        return println!(rt; "{name}, {size} uses: {captures} captures");
    }
    let nanos = best(rt, runs, || {
        count(uses.as_slice(), table.as_mut_slice());
        true
    })?;
    println!(rt; "{name}, {size} uses: {captures} captures in {nanos} ns")
}

fn main(rt: HostRuntime) -> io::Result<()> {
    let words = env::args(&rt)?.skip(1);
    let runs = words
        .filter_map(|word| word.as_str().parse().ok())
        .last()
        .unwrap_or(0);
    for sort in [Sort::OnePlace, Sort::Siblings, Sort::Chains, Sort::Random] {
        for size in [10, 100, 1000, 8000] {
            report(&rt, sort, size, runs)?;
        }
    }
    Ok(())
}
