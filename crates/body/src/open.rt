// Opening a body.
ghost use Rattle.std.specs.Prelude.{◌≡◌, IfOk, length};
ghost use Rattle.indexing.specs.Opening.{opened, empty};
ghost use Rattle.body.specs.Bodies.{Opens, body_of};
ghost use Rattle.body.specs.Sound.{Sound};

use crate::bodies::Body;
use indexing::faults::BodyFault;
use indexing::index::{Core, index};
use indexing::rows::Row;
use reader::counts::Counts;

// The body of an empty file, which has no closures. It is what `open(..).unwrap_or_default()` gives for a refused file.
impl Default for Body<'_> {
    ghost is_default = { λ b. (body_of b ≡ empty) × Sound (body_of b) };

    fn default() -> Self {
        Body {
            file: &[],
            rows: &[],
            core: Core {
                counts: Counts::default(),
                closures: [0; 65],
            },
        }
    }
}

// Opens a file with the caller's index table, one row a record.
pub fn open<'a>(file: &'a [u8], rows: &'a mut [Row]) -> Result<Body<'a>, BodyFault>
    ensures opens { Opens (opened (length rows.old) file.now) result }
    ensures sound { IfOk result (λ b. Sound (body_of b)) }
{
    let core = index(file, rows)?;
    Ok(Body { file, rows, core })
}
