// The place of an expression.
ghost use Rattle.std.specs.Prelude.{◌≡◌, ◌<◌, ◌≤◌, length, take, if◌then◌else◌, None, Ok};
ghost use Rattle.node.specs.Lists.{adjustments};
ghost use Rattle.node.specs.Nodes.{view_expr};
ghost use Rattle.body.specs.Bodies.{body_of};
ghost use Rattle.place.specs.Places.{spot};
ghost use Rattle.scene.specs.Below.{ExprBelow};
ghost use Rattle.scene.specs.Places.{view_reach, view_step, step_on, derefs_on, apply_adjusts, derefs_builtin, place_of_form, place_of_expr, and_then, field_on};
ghost use Rattle.scene.specs.Parts.{expr_at};

use crate::faults::WalkFault;
use crate::inner::Inner;
use crate::nodes::expr_at;
use crate::scenes::Scene;
use node::lists::{Adjust, Adjustments};
use node::nodes::Expr;
use place::places::Place;
use world::shapes::Shape;
use world::worlds::World;

// The step of a field that does not exist.
pub const NO_FIELD: u16 = 65535;

// The place one step on.
pub fn step_on(place: Place, step: u16) -> Result<Place, WalkFault>
    ensures { view_step result ≡ step_on (spot place) step }
{
    place.extend(step).ok_or(WalkFault::PathTooLong)
}

// The place so many dereferences on.
pub fn derefs_on(place: Place, count: u8) -> Result<Place, WalkFault>
    ensures { view_step result ≡ derefs_on count (spot place) }
{
    let mut at = place;
    for _ in 0..count {
        at = step_on(at, 0)?;
    }
    Ok(at)
}

// The place after the first of an expression's adjustments.
pub fn apply_adjusts(
    place: Place,
    adjusts: Adjustments,
    count: usize,
) -> Result<Option<Place>, WalkFault>
    ensures { view_reach result ≡ apply_adjusts (take count (adjustments adjusts.entry.bytes.now)) (spot place) }
{
    let mut at = place;
    for adjust in adjusts.take(count) {
        match adjust.kind {
            Adjust::BuiltinDeref => at = step_on(at, 0)?,
            _ => return Ok(None),
        }
    }
    Ok(Some(at))
}

// Whether a type of this shape has a built-in dereference.
fn has_builtin_deref(shape: Shape) -> bool
    ensures { result ≡ derefs_builtin shape }
{
    matches!(
        shape,
        Shape::Shared | Shape::Mutable | Shape::Raw | Shape::Boxed
    )
}

#[cycle(place_of)]
pub fn place_of_expr<W: World, I: Inner>(
    scene: &Scene<W, I>,
    n: u16,
) -> Result<Option<Place>, WalkFault>
    ensures { view_reach result ≡ place_of_expr (W.World.means scene.now.world.now) (body_of scene.now.body.now) n }
{
    let node = expr_at(scene.body, n);
    match place_without_adjust(scene, n, node.expr)? {
        Some(place) => apply_adjusts(place, node.adjustments, node.adjustments.len()),
        None => Ok(None),
    }
}

// The place of an expression before its adjustments.
#[cycle(place_of)]
pub fn place_without_adjust<W: World, I: Inner>(
    scene: &Scene<W, I>,
    n: u16,
    expr: Expr,
) -> Result<Option<Place>, WalkFault>
    requires { ExprBelow n (view_expr expr) }
    ensures { view_reach result ≡ place_of_form (W.World.means scene.now.world.now) (body_of scene.now.body.now) (place_of_expr (W.World.means scene.now.world.now) (body_of scene.now.body.now)) (view_expr expr.entry) }
{
    match expr {
        Expr::Name { binding } => Ok(Some(Place::whole(binding))),
        Expr::Field { base, step } => place_of_field(scene, n, base, step),
        Expr::Deref { base, .. } => place_of_deref(scene, n, base),
        _ => Ok(None),
    }
}

#[cycle(place_of)]
fn place_of_field<W: World, I: Inner>(
    scene: &Scene<W, I>,
    n: u16,
    base: u16,
    step: u16,
) -> Result<Option<Place>, WalkFault>
    requires { base < n }
    ensures { view_reach result ≡ and_then (place_of_expr (W.World.means scene.now.world.now) (body_of scene.now.body.now) base) (λ p. field_on p step) }
{
    let Some(place) = place_of_expr(scene, base)? else {
        return Ok(None);
    };
    if step == NO_FIELD {
        return Ok(None);
    }
    Ok(Some(step_on(place, step)?))
}

// A dereference is a place where it is built in for its child's own type, before adjustments.
#[cycle(place_of)]
fn place_of_deref<W: World, I: Inner>(
    scene: &Scene<W, I>,
    n: u16,
    base: u16,
) -> Result<Option<Place>, WalkFault>
    requires { base < n }
    ensures { view_reach result ≡ (if derefs_builtin ((W.World.means scene.now.world.now).shape (expr_at (body_of scene.now.body.now) base).type) then and_then (place_of_expr (W.World.means scene.now.world.now) (body_of scene.now.body.now) base) (λ p. step_on p 0) else Ok None) }
{
    if !has_builtin_deref(scene.world.shape(expr_at(scene.body, base).ty)) {
        return Ok(None);
    }
    match place_of_expr(scene, base)? {
        Some(place) => Ok(Some(step_on(place, 0)?)),
        None => Ok(None),
    }
}
