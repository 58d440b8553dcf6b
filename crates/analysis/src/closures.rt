// The analysis of one closure.
ghost use Rattle.std.specs.Prelude.{◌≡◌, map};
ghost use Rattle.narrow.specs.Views.{view};
ghost use Rattle.scene.specs.Scenes.{setting};
ghost use Rattle.analysis.specs.Answers.{Answered, Analysed};
ghost use Rattle.analysis.specs.Findings.{moves, kind_or, each, reach_use, narrow_all};

use crate::copying::all_copy;
use crate::findings::Findings;
use crate::reaching::{reach_all, stop_all};
use narrow::kinds::kind_of_closure;
use place::uses::Use;
use scale::modes::{Kind, Mode};
use scale::sited::Sited;
use scene::faults::WalkFault;
use scene::inner::Inner;
use scene::scenes::Scene;
use walk::uses::uses_of;
use world::worlds::World;

// Whether the closure is a move closure.
fn moves<W: World, I: Inner>(scene: &Scene<W, I>) -> bool
    ensures { result ≡ moves (setting W.World.means I.Inner.tells scene.now) }
{
    scene
        .body
        .closure(scene.closure)
        .is_some_and(|found| found.by_move)
}

// The kind that was preset, or else the one that the uses call for.
fn kind_from(preset: Option<Kind>, uses: &[Use<Mode>]) -> Sited<Kind>
    ensures { result ≡ kind_or preset (map view uses.now) }
{
    match preset {
        Some(value) => Sited { value, site: 0 },
        None => kind_of_closure(uses),
    }
}

// What is found of the uses that the walk recorded, which are narrowed in their rows.
fn narrow_all<W: World, I: Inner>(
    scene: &Scene<W, I>,
    preset: Option<Kind>,
    uses: &mut [Use<Mode>],
) -> Result<Findings, WalkFault>
    ensures { Answered (setting W.World.means I.Inner.tells scene.now) (narrow_all (setting W.World.means I.Inner.tells scene.now) preset (each (reach_use (setting W.World.means I.Inner.tells scene.now)) (map view uses.old))) uses.new result }
{
    reach_all(scene, uses)?;
    let kind = kind_from(preset, uses);
    stop_all(uses, moves(scene));
    let copies = all_copy(scene, uses).ok_or(WalkFault::NotAnalysed)?;
    Ok(Findings {
        uses: uses.len(),
        kind,
        copies,
    })
}

// Analyses the closure of a scene: its narrowed uses come to stand at the front of the use table. The captures are not
// written: `cover_by_mode` writes them from these uses.
pub fn analyse<W: World, I: Inner>(
    scene: &Scene<W, I>,
    preset: Option<Kind>,
    uses: &mut [Use<Mode>],
) -> Result<Findings, WalkFault>
    ensures { Analysed (setting W.means I.tells scene.now) preset uses.old uses.new result }
{
    let count = uses_of(scene, uses)?;
    narrow_all(scene, preset, &mut uses[0..count])
}
