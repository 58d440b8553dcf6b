// Which places are Copy, and whether a closure is.
ghost use Rattle.std.specs.Prelude.{◌≡◌, map};
ghost use Rattle.place.specs.Places.{steps_of};
ghost use Rattle.narrow.specs.Views.{view};
ghost use Rattle.cover.specs.Views.{captured};
ghost use Rattle.scene.specs.Scenes.{setting};
ghost use Rattle.analysis.specs.Findings.{place_copies, copies_at, captures_in, opened_in, opener_copies, all_copy};

use crate::types::BodyTypes;
use events::matches::{type_copies, type_of_binding};
use mode_cover::by_mode::capture_by_mode;
use narrow::walks::led;
use place::places::Place;
use place::uses::{Capture, Use};
use scale::modes::Mode;
use scene::inner::Inner;
use scene::scenes::Scene;
use world::worlds::World;

// Whether the type of a place is Copy; none of a closure that is not analysed.
pub fn place_copies<W: World, I: Inner>(scene: &Scene<W, I>, place: Place) -> Option<bool>
    ensures { result ≡ place_copies (setting W.World.means I.Inner.tells scene.now) place.binding (steps_of place.path) }
{
    let from = type_of_binding(scene.world, scene.body, place.binding);
    type_copies(scene, led(scene.world, from, place.path.steps()))
}

// Whether a capture lets the closure be Copy.
fn capture_copies<W: World, I: Inner>(scene: &Scene<W, I>, capture: Capture<Mode>) -> Option<bool>
    ensures { result ≡ copies_at (setting W.World.means I.Inner.tells scene.now) (captured capture).place capture.mode.value }
{
    match capture.mode.value {
        Mode::Imm => Some(true),
        Mode::Unique | Mode::Mut => Some(false),
        Mode::Move => place_copies(scene, capture.place),
    }
}

// Whether the capture that the i-th use opens does, if there is one.
fn opener_copies<W: World, I: Inner>(
    scene: &Scene<W, I>,
    uses: &[Use<Mode>],
    i: usize,
) -> Option<bool>
    ensures { result ≡ opener_copies (setting W.World.means I.Inner.tells scene.now) (opened_in (setting W.World.means I.Inner.tells scene.now) (map view uses.now) i) }
{
    let types = BodyTypes {
        world: scene.world,
        body: scene.body,
    };
    match capture_by_mode(scene.world, &types, uses, i) {
        Some(capture) => capture_copies(scene, capture),
        None => Some(true),
    }
}

// Whether a closure with these narrowed uses is Copy. Its captures are looked at one by one, and written nowhere.
pub fn all_copy<W: World, I: Inner>(scene: &Scene<W, I>, uses: &[Use<Mode>]) -> Option<bool>
    ensures { result ≡ all_copy (setting W.World.means I.Inner.tells scene.now) (captures_in (setting W.World.means I.Inner.tells scene.now) (map view uses.now)) }
{
    let mut copies = true;
    for i in 0..uses.len() {
        let here = opener_copies(scene, uses, i)?;
        copies &= here;
    }
    Some(copies)
}
