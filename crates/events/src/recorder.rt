// What records the uses of a walk.
ghost use Rattle.std.specs.Prelude.{◌≤◌, length};

use place::uses::Use;
use scale::modes::Mode;
use scene::scenes::Scene;

// What the walk looks at, and the caller's use table, which it fills from the front.
#[derive(Drop)]
pub struct Recorder<'s, 't, W, I> {
    pub scene: &'s Scene<'s, W, I>,
    pub uses: &'t mut [Use<Mode>],
    pub len: usize,
    ghost room: { len ≤ length uses.now },
}
