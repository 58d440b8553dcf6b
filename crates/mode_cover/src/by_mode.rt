// Capture modes as a scale with a cutting rule, and the cover by it.
ghost use Rattle.std.specs.Prelude.{◌≡◌, ◌-◌, map, length};
ghost use Rattle.std.specs.Option.{option_map};
ghost use Rattle.place.specs.Places.{lies_under};
ghost use Rattle.narrow.specs.Narrowing.{cut_to};
ghost use Rattle.cover.specs.Covering.{Covers};
ghost use Rattle.cover.specs.Tables.{answer, Leaves};
ghost use Rattle.cover.specs.Views.{used, captured};
ghost use Rattle.scale.specs.Modes.{mode_leq};
ghost use Rattle.scale.specs.declared.modes.Mode.TheVariants.{Imm};
ghost use Rattle.mode_cover.specs.Modes.{captures_by_mode, opened_by_mode};
ghost use Rattle.mode_cover.specs.Ruled.{modes_cut};

use crate::bindings::BindingTypes;
use crate::lent::Lent;
use cover::captures::{capture_opened, cover};
use cover::cutting::Cutting;
use cover::full::Full;
use narrow::rules::cut_mode_of;
use place::places::Place;
use place::uses::{Capture, Use};
use scale::modes::Mode;
use world::worlds::World;

// The rule by which a mode is cut: mut becomes unique, where the part cut away dereferences a mutable
// reference. It holds the world and the types of the bindings.
#[derive(Drop)]
pub struct ByMode<W, B> {
    pub world: W,
    pub bindings: B,
}

impl<W: World, B: BindingTypes> Cutting for ByMode<W, B> {
    type Value = Mode;

    ghost cuts = { λ rule. cut_to (W.means rule.world) (B.types rule.bindings) };

    ghost lawful = { λ rule. modes_cut (W.means rule.world) (B.types rule.bindings) };

    fn cut(&self, from: &Place, to: &Place, value: Mode) -> Mode {
        let start = self.bindings.type_of(from.binding);
        cut_mode_of(&self.world, start, from.path.steps(), to.path.len(), value)
    }
}

// The rule in a lent world with lent bindings.
fn lent<'a, W: World, B: BindingTypes>(
    world: &'a W,
    bindings: &'a B,
) -> ByMode<Lent<'a, W>, Lent<'a, B>>
    ensures { result ≡ record { world = record { owner = world.entry }; bindings = record { owner = bindings.entry } } }
{
    ByMode {
        world: Lent { owner: world },
        bindings: Lent { owner: bindings },
    }
}

// Writes the captures of the uses of a closure behind the filled rows of a table, as `cover` does, by
// the modes of a lent world and lent bindings.
pub fn cover_by_mode<W: World, B: BindingTypes>(
    world: &W,
    bindings: &B,
    uses: &[Use<Mode>],
    table: &mut [Capture<Mode>],
    filled: usize,
) -> Result<usize, Full>
    ensures answers { result ≡ answer (length (captures_by_mode (W.means world.now) (B.types bindings.now) (map used uses.now))) (length table.old - filled) }
    ensures leaves { Leaves (captures_by_mode (W.means world.now) (B.types bindings.now) (map used uses.now)) filled table.old table.new result }
    ensures covers { Covers lies_under (cut_to (W.means world.now) (B.types bindings.now)) Imm mode_leq (map used uses.now) (captures_by_mode (W.means world.now) (B.types bindings.now) (map used uses.now)) }
{
    cover(&lent(world, bindings), uses, table, filled)
}

// The capture that the i-th use opens, as `capture_opened` has it, by the modes of a lent world and lent bindings.
pub fn capture_by_mode<W: World, B: BindingTypes>(
    world: &W,
    bindings: &B,
    uses: &[Use<Mode>],
    i: usize,
) -> Option<Capture<Mode>>
    ensures { option_map captured result ≡ opened_by_mode (W.means world.now) (B.types bindings.now) (map used uses.now) i }
{
    capture_opened(&lent(world, bindings), uses, i)
}
