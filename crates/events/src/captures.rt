// The uses that the walk records of one place.
ghost use Rattle.std.specs.Prelude.{◌≡◌, ◌≤◌, [], ◌++◌, length, if◌then◌else◌, Some, slice_index_or};
ghost use Rattle.node.specs.Lists.{no_adjustment};
ghost use Rattle.body.specs.Answers.{is_upvar};
ghost use Rattle.place.specs.Places.{spot};
ghost use Rattle.scene.specs.Below.{ExprBelow};
ghost use Rattle.events.specs.Events.{Records};
ghost use Rattle.scene.specs.Parts.{expr_at, view_expr_node};
ghost use Rattle.scene.specs.Scenes.{setting};
ghost use Rattle.events.specs.Captures.{add_capture, capture_expr, ref_capture_with_adjusts, inner_captures, borrows, consume_bind, mutate_path, consume_place};

use crate::recorder::Recorder;
use node::lists::Adjust;
use node::nodes::{BindBy, ExprNode};
use place::places::Place;
use place::uses::Use;
use scale::modes::Mode;
use scale::sited::Sited;
use scene::faults::WalkFault;
use scene::inner::Inner;
use scene::nodes::expr_at;
use scene::places::{apply_adjusts, place_of_expr, place_without_adjust};
use scene::scenes::Scene;
use world::worlds::World;

// Whether a place is part of an upvar of the closure that is walked.
pub fn is_upvar<W: World, I: Inner>(scene: &Scene<W, I>, place: Place) -> bool
    ensures { result ≡ is_upvar (setting W.World.means I.Inner.tells scene.now).body (spot place).binding (setting W.World.means I.Inner.tells scene.now).closure }
{
    scene.body.is_upvar(place.binding, scene.closure)
}

// The mode of an adjustment that borrows.
fn borrowed(kind: Adjust) -> Option<Mode>
    ensures { result ≡ borrows kind }
{
    match kind {
        Adjust::OverloadedShared | Adjust::BorrowShared => Some(Mode::Imm),
        Adjust::OverloadedMut | Adjust::BorrowMut => Some(Mode::Mut),
        Adjust::Never | Adjust::BuiltinDeref | Adjust::PointerCast => None,
    }
}

impl<W: World, I: Inner> Recorder<'_, '_, W, I> {
    // A use of a place, if it is an upvar's.
    pub fn add_capture(&mut self, place: Place, value: Mode, site: u16) -> Result<(), WalkFault>
        ensures { Records W.means I.tells (λ s. add_capture s (spot place) value site) self.old self.new result }
    {
        if is_upvar(self.scene, place) {
            self.push(Use {
                place,
                mode: Sited { value, site },
            })
        } else {
            Ok(())
        }
    }

    // A use of the place of an expression, where it has one.
    pub fn capture_expr(&mut self, value: Mode, n: u16) -> Result<(), WalkFault>
        ensures { Records W.means I.tells (λ s. capture_expr s value n) self.old self.new result }
    {
        match place_of_expr(self.scene, n)? {
            Some(place) => self.add_capture(place, value, n),
            None => Ok(()),
        }
    }

    // A use of the place of an expression with the first of its adjustments, where there is one.
    pub fn ref_capture_with_adjusts(
        &mut self,
        value: Mode,
        n: u16,
        count: usize,
    ) -> Result<(), WalkFault>
        ensures { Records W.means I.tells (λ s. ref_capture_with_adjusts s (Some value) n count) self.old self.new result }
    {
        let node = expr_at(self.scene.body, n);
        self.ref_capture_of(value, n, node, count)
    }

    // The same of a node that is read.
    fn ref_capture_of(
        &mut self,
        value: Mode,
        n: u16,
        node: ExprNode,
        count: usize,
    ) -> Result<(), WalkFault>
        requires { view_expr_node node ≡ expr_at (setting W.means I.tells self.old.scene.now).body n }
        ensures { Records W.means I.tells (λ s. ref_capture_with_adjusts s (Some value) n count) self.old self.new result }
    {
        let Some(start) = place_without_adjust(self.scene, n, node.expr)? else {
            return Ok(());
        };
        match apply_adjusts(start, node.adjustments, count)? {
            Some(place) => self.add_capture(place, value, n),
            None => Ok(()),
        }
    }

    // The captures of an inner closure that are upvars of this one, at its node. Its number is the home of its body.
    pub fn capture_inner(&mut self, n: u16, body: u16) -> Result<(), WalkFault>
        ensures { Records W.means I.tells (λ s. inner_captures s n (s.told.captured (expr_at s.body body).home)) self.old self.new result }
    {
        let closure = expr_at(self.scene.body, body).home;
        let inner = self.scene.inner;
        for at in 0..inner.count(closure) {
            let capture = inner.capture(closure, at);
            self.add_capture(capture.place, capture.mode.value, n)?;
        }
        Ok(())
    }

    // What an adjustment uses, behind the ones before it.
    pub fn capture_adjusted(&mut self, n: u16, at: usize) -> Result<(), WalkFault>
        ensures { Records W.means I.tells (λ s. ref_capture_with_adjusts s (borrows (slice_index_or (expr_at s.body n).adjusts at no_adjustment).kind) n at) self.old self.new result }
    {
        let node = expr_at(self.scene.body, n);
        self.capture_adjusted_of(n, node, at)
    }

    // The same of a node that is read, so that a walk of many adjustments reads it once.
    pub fn capture_adjusted_of(
        &mut self,
        n: u16,
        node: ExprNode,
        at: usize,
    ) -> Result<(), WalkFault>
        requires { view_expr_node node ≡ expr_at (setting W.means I.tells self.old.scene.now).body n }
        ensures { Records W.means I.tells (λ s. ref_capture_with_adjusts s (borrows (slice_index_or (expr_at s.body n).adjusts at no_adjustment).kind) n at) self.old self.new result }
    {
        match borrowed(node.adjustments.get(at).kind) {
            Some(value) => self.ref_capture_of(value, n, node, at),
            None => Ok(()),
        }
    }

    // A binding takes a place by its own mode.
    pub fn consume_bind(&mut self, n: u16, by: BindBy, place: Place) -> Result<(), WalkFault>
        ensures { Records W.means I.tells (λ s. consume_bind s n by (spot place)) self.old self.new result }
    {
        match by {
            BindBy::Move => self.add_capture(place, Mode::Move, n),
            BindBy::Ref => self.add_capture(place, Mode::Imm, n),
            BindBy::RefMut => self.add_capture(place, Mode::Mut, n),
        }
    }

    // A path pattern to a local: on the left of an assignment the local is mutated first.
    pub fn consume_path(
        &mut self,
        n: u16,
        binding: u16,
        place: Place,
        inside: bool,
    ) -> Result<(), WalkFault>
        ensures { Records W.means I.tells (λ s. (if inside then mutate_path s n binding else []) ++ consume_place s (spot place) n) self.old self.new result }
    {
        self.mutate_path(n, binding, inside)?;
        self.add_capture(place, Mode::Move, n)
    }

    fn mutate_path(&mut self, n: u16, binding: u16, inside: bool) -> Result<(), WalkFault>
        ensures { Records W.means I.tells (λ s. if inside then mutate_path s n binding else []) self.old self.new result }
    {
        if inside {
            self.add_capture(Place::whole(binding), Mode::Mut, n)
        } else {
            Ok(())
        }
    }
}
