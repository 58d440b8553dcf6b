// The uses of a closure.
ghost use Rattle.std.specs.Prelude.{◌≡◌};
ghost use Rattle.events.specs.Events.{Recorded};
ghost use Rattle.scene.specs.Scenes.{setting};
ghost use Rattle.walk.specs.Walks.{uses_of};

use crate::exprs::use_expr;
use crate::marks::Mark;
use events::recorder::Recorder;
use place::uses::Use;
use scale::modes::Mode;
use scene::faults::WalkFault;
use scene::inner::Inner;
use scene::scenes::Scene;
use world::worlds::World;

// The uses that a closure's body records, one a row, and how many there are; none where the number is no closure's.
pub fn uses_of<W: World, I: Inner>(
    scene: &Scene<W, I>,
    uses: &mut [Use<Mode>],
) -> Result<usize, WalkFault>
    ensures { Recorded (uses_of (setting W.means I.tells scene.now)) uses.old uses.new result }
{
    let Some(found) = scene.body.closure(scene.closure) else {
        return Ok(0);
    };
    let mut recorder = Recorder {
        scene,
        uses,
        len: 0,
    };
    let mut mark = Mark { inside: false };
    use_expr(&mut recorder, Mode::Move, found.body, &mut mark)?;
    Ok(recorder.len)
}
