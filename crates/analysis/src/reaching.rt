// The uses of a closure after the first three rules, and after the fourth.
ghost use Rattle.std.specs.Prelude.{◌≡◌, map};
ghost use Rattle.std.specs.Option.{option_map};
ghost use Rattle.narrow.specs.Narrowing.{before_dereference};
ghost use Rattle.narrow.specs.Views.{view};
ghost use Rattle.scene.specs.Scenes.{setting};
ghost use Rattle.analysis.specs.Answers.{Replaced};
ghost use Rattle.analysis.specs.Findings.{asks_copy, reach_use, each};

use crate::copying::place_copies;
use events::matches::type_of_binding;
use narrow::rules::{before_dereference, reach};
use place::uses::Use;
use scale::modes::Mode;
use scene::faults::WalkFault;
use scene::inner::Inner;
use scene::scenes::Scene;
use world::worlds::World;

// What the first rule asks of a use: of a move, whether its place is Copy.
fn asks_copy<W: World, I: Inner>(scene: &Scene<W, I>, used: Use<Mode>) -> Option<bool>
    ensures { result ≡ asks_copy (setting W.World.means I.Inner.tells scene.now) (view used) }
{
    match used.mode.value {
        Mode::Move => place_copies(scene, used.place),
        _ => Some(false),
    }
}

// A use after the first three rules; none where the first asks of a closure that is not analysed.
fn reach_use<W: World, I: Inner>(scene: &Scene<W, I>, used: Use<Mode>) -> Option<Use<Mode>>
    ensures { option_map view result ≡ reach_use (setting W.World.means I.Inner.tells scene.now) (view used) }
{
    let copies = asks_copy(scene, used)?;
    let from = type_of_binding(scene.world, scene.body, used.place.binding);
    Some(reach(scene.world, from, used, copies))
}

// Each use after the first three rules, in its row.
pub fn reach_all<W: World, I: Inner>(
    scene: &Scene<W, I>,
    uses: &mut [Use<Mode>],
) -> Result<(), WalkFault>
    ensures { Replaced (each (reach_use (setting W.World.means I.Inner.tells scene.now)) (map view uses.old)) uses.new result }
{
    for used in uses.iter_mut() {
        let reached = reach_use(scene, *used).ok_or(WalkFault::NotAnalysed)?;
        *used = reached;
    }
    Ok(())
}

// Each use after the fourth rule, in its row.
pub fn stop_all(uses: &mut [Use<Mode>], by_move: bool)
    ensures { map view uses.new ≡ map (before_dereference by_move) (map view uses.old) }
{
    for used in uses.iter_mut() {
        *used = before_dereference(*used, by_move);
    }
}
