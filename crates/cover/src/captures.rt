// The cover of a list of uses, written into the caller's table.
ghost use Rattle.std.specs.Prelude.{◌≡◌, ◌-◌, map, length};
ghost use Rattle.std.specs.Option.{option_map};
ghost use Rattle.place.specs.Places.{lies_under};
ghost use Rattle.cover.specs.Covering.{Covers};
ghost use Rattle.cover.specs.Tables.{answer, Leaves};
ghost use Rattle.cover.specs.Views.{used, captured, captures_of, opened_of};

use crate::covering::Covering;
use crate::cutting::Cutting;
use crate::full::Full;
use place::uses::{Capture, Use};

// Writes the captures of the uses behind the filled rows of a table: how many there are. Where they
// outnumber the rows left it refuses, and the table is as it was.
pub fn cover<C: Cutting>(
    rule: &C,
    uses: &[Use<C::Value>],
    table: &mut [Capture<C::Value>],
    filled: usize,
) -> Result<usize, Full>
    ensures answers { result ≡ answer (length (captures_of (C.cuts rule.now) C.Value.low C.Value.leq uses.now)) (length table.old - filled) }
    ensures leaves { Leaves (captures_of (C.cuts rule.now) C.Value.low C.Value.leq uses.now) filled table.old table.new result }
    ensures covers { Covers lies_under (C.cuts rule.now) C.Value.low C.Value.leq (map used uses.now) (captures_of (C.cuts rule.now) C.Value.low C.Value.leq uses.now) }
{
    let covering = Covering::new(rule, uses);
    covering.check_room(table.len().saturating_sub(filled))?;
    Ok(covering.lay_out(table, filled))
}

// The capture that the i-th use opens, counted from 0, if it opens one: one by one these are what `cover` writes.
pub fn capture_opened<C: Cutting>(
    rule: &C,
    uses: &[Use<C::Value>],
    i: usize,
) -> Option<Capture<C::Value>>
    ensures { option_map captured result ≡ opened_of (C.cuts rule.now) C.Value.low C.Value.leq uses.now i }
{
    Covering::new(rule, uses).opened_capture(i)
}
