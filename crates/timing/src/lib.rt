// Timing, for the benchmarks.

#![tactic(auto)]

ghost use Rattle.std.specs.Prelude.{◌≡◌, ◌-◌, ◌^◌, Bool, false, List, length, IfOk};
ghost use Rattle.std.specs.List.{FoldsTo, list_any};

use std::io;
use std::rt::Clock;
use std::time::Instant;

// The shortest of so many runs, in nanoseconds, among those that answer that they count; the highest number where none does.
pub fn best<F: FnMut() -> bool + Drop>(rt: &impl Clock, runs: u32, mut run: F) -> io::Result<u128>
    requires { F.IsAlwaysCallable run }
    ensures { IfOk result (λ n. (last : F) × (answers : List Bool) × FoldsTo F.step run answers last × (length answers ≡ runs) × (list_any (λ b. b) answers ≡ false → n ≡ 2 ^ 128 - 1)) }
{
    let mut least = u128::MAX;
    for _turn in 0..runs {
        let start = Instant::now(rt)?;
        let counts = run();
        let taken = start.elapsed(rt)?.as_nanos();
        if counts {
            least = least.min(taken);
        }
    }
    Ok(least)
}
