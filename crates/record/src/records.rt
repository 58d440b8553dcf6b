// The record: it holds its world, its body and its capture table, so that nothing else changes them between calls.
ghost use Rattle.std.specs.Prelude.{◌≡◌, ◌≤◌, length};
ghost use Rattle.body.specs.Bodies.{body_of};
ghost use Rattle.closures.specs.Views.{count_of, filled_of};

use body::bodies::Body;
use closures::table::Closures;
use place::uses::Capture;
use scale::modes::Mode;

// The capture table.
#[derive(Drop)]
pub struct Store<'t> {
    pub(crate) rows: &'t mut [Capture<Mode>],
}

#[derive(Drop)]
pub struct Record<'a, 't, W> {
    pub(crate) world: &'a W,
    pub(crate) body: &'a Body<'a>,
    pub(crate) table: Store<'t>,
    pub(crate) closures: Closures,
    ghost counts: { count_of closures ≡ length (body_of body.now).closures },
    ghost fits: { filled_of closures ≤ length table.rows.now },
}
