// The closures of a body, by their places from 0.
ghost use Rattle.std.specs.Prelude.{◌≡◌, ◌≤◌};
ghost use Rattle.waits.specs.Reach.{Waiting, Inside};
ghost use Rattle.waits.specs.Table.{waits_by};
ghost use Rattle.closures.specs.Keeping.{rows_kept, Below, total};

use crate::states::State;
use waits::table::Waits;

// The captures of the analysed closures fill the first rows of the capture table.
#[derive(Clone, Copy)]
pub struct Closures {
    pub(crate) count: u8,
    pub(crate) filled: usize,
    pub(crate) states: [State; 64],
    pub(crate) waits: Waits,
    ghost few: { count ≤ 64 },
    ghost inside: { Inside count (Waiting (waits_by waits)) },
    ghost below: { Below filled states },
    ghost sums: { filled ≡ total (rows_kept states) count },
}
