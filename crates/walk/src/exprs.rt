// The walk itself: expressions and patterns in one cycle. It falls by the node's number, then by the adjustments left.
ghost use Rattle.std.specs.Prelude.{◌≡◌, ◌<◌, ◌≤◌, true, false, [], ◌++◌, length, if◌then◌else◌, nat_eq};
ghost use Rattle.reader.specs.Numbers.{numbers};
ghost use Rattle.node.specs.Lists.{pairs, triples};
ghost use Rattle.node.specs.Nodes.{match_on, view_expr, view_pat};
ghost use Rattle.place.specs.Places.{spot};
ghost use Rattle.scene.specs.Below.{ListBelow, FieldsBelow, ArmsBelow, ExprBelow, PatBelow};
ghost use Rattle.scene.specs.Parts.{expr_at, adjusted_type, view_expr_node};
ghost use Rattle.scene.specs.Places.{field_on, place_of_expr};
ghost use Rattle.scene.specs.Scenes.{setting};
ghost use Rattle.events.specs.Captures.{with_place, consume_place};
ghost use Rattle.walk.specs.Does.{Does};
ghost use Rattle.walk.specs.Walks.{doing, walk_with_adjust, walk_form, use_expr, consume_expr, mutate_expr, consume_exprs, walk_let_statement, let_value, bind_place, deref_by_method, assign_from, walk_arms, consume_form, consume_fields, consume_pats, assign_form};

use crate::marks::{Mark, MarkGuard};
use events::recorder::Recorder;
use node::lists::{Arms, FieldPat, Fields};
use node::nodes::{Expr, ExprNode, Pat, VariantSort};
use place::places::Place;
use reader::numbers::Numbers;
use scale::modes::Mode;
use scene::faults::WalkFault;
use scene::inner::Inner;
use scene::nodes::{SubPats, adjusted_type, expr_at, pat_at};
use scene::places::{NO_FIELD, derefs_on, place_of_expr, step_on};
use world::shapes::Shape;
use world::worlds::World;

// An expression with its adjustments.
#[cycle(walk)]
fn walk_expr<W: World, I: Inner>(
    recorder: &mut Recorder<W, I>,
    n: u16,
    mark: &mut Mark,
) -> Result<(), WalkFault>
    ensures { Does W.means I.tells (λ s. (doing s n).walked) recorder.old mark.old recorder.new mark.new result }
{
    let node = expr_at(recorder.scene.body, n);
    adjusted(recorder, n, node, node.adjustments.len(), mark)
}

// The first adjustments of an expression, from the last of them, then the expression without them.
#[cycle(walk)]
fn adjusted<W: World, I: Inner>(
    recorder: &mut Recorder<W, I>,
    n: u16,
    node: ExprNode,
    count: usize,
    mark: &mut Mark,
) -> Result<(), WalkFault>
    requires here { view_expr_node node ≡ expr_at (setting W.means I.tells recorder.old.scene.now).body n }
    requires under { ExprBelow n (view_expr node.expr) }
    ensures { Does W.means I.tells (λ s i. walk_with_adjust s n count (walk_form s (doing s) n (view_expr node.entry.expr) i)) recorder.old mark.old recorder.new mark.new result }
{
    if count == 0 {
        return walk_form(recorder, n, node.expr, mark);
    }
    recorder.capture_adjusted_of(n, node, count - 1)?;
    adjusted(recorder, n, node, count - 1, mark)
}

// An expression without its adjustments.
#[cycle(walk)]
fn walk_form<W: World, I: Inner>(
    recorder: &mut Recorder<W, I>,
    n: u16,
    expr: Expr,
    mark: &mut Mark,
) -> Result<(), WalkFault>
    requires under { ExprBelow n (view_expr expr) }
    ensures { Does W.means I.tells (λ s. walk_form s (doing s) n (view_expr expr.entry)) recorder.old mark.old recorder.new mark.new result }
{
    match expr {
        Expr::Leaf | Expr::Name { .. } => Ok(()),
        Expr::Run { children } => consume_all(recorder, n, children, mark),
        Expr::LetStatement {
            pat,
            initializer,
            otherwise,
        } => { walk_let(recorder, n, pat, initializer, otherwise, mark) }
        Expr::Field { base, .. } => walk_expr(recorder, base, mark),
        Expr::Deref { base, resolved } => walk_deref(recorder, n, base, resolved, mark),
        Expr::Ref { base, mutable } => {
            let value = if mutable { Mode::Mut } else { Mode::Imm };
            use_expr(recorder, value, base, mark)
        }
        Expr::OpAssign { target, value } => {
            use_expr(recorder, Mode::Mut, target, mark)?;
            use_expr(recorder, Mode::Move, value, mark)
        }
        Expr::Assign { target, value } => {
            walk_expr(recorder, value, mark)?;
            assign(recorder, n, target, value, mark)
        }
        Expr::Match { scrutinee, arms } => walk_match(recorder, n, scrutinee, arms, mark),
        Expr::Let { pat, value } => {
            walk_expr(recorder, value, mark)?;
            bind(recorder, n, pat, value, mark)
        }
        Expr::Index { base, index } => {
            walk_expr(recorder, base, mark)?;
            use_expr(recorder, Mode::Move, index, mark)
        }
        Expr::Closure { body, .. } => recorder.capture_inner(n, body),
    }
}

// An expression, with its place by a mode.
#[cycle(walk)]
pub(crate) fn use_expr<W: World, I: Inner>(
    recorder: &mut Recorder<W, I>,
    value: Mode,
    n: u16,
    mark: &mut Mark,
) -> Result<(), WalkFault>
    ensures { Does W.means I.tells (λ s. use_expr s (doing s) value n) recorder.old mark.old recorder.new mark.new result }
{
    recorder.capture_expr(value, n)?;
    walk_expr(recorder, n, mark)
}

// The children of a run, in order.
#[cycle(walk)]
fn consume_all<W: World, I: Inner>(
    recorder: &mut Recorder<W, I>,
    n: u16,
    children: Numbers,
    mark: &mut Mark,
) -> Result<(), WalkFault>
    requires under { ListBelow n (numbers children.bytes.now) }
    ensures { Does W.means I.tells (λ s. consume_exprs s (doing s) (numbers children.entry.bytes.now)) recorder.old mark.old recorder.new mark.new result }
{
    for child in children {
        use_expr(recorder, Mode::Move, child, mark)?;
    }
    Ok(())
}

// A let statement: the else branch first.
#[cycle(walk)]
fn walk_let<W: World, I: Inner>(
    recorder: &mut Recorder<W, I>,
    n: u16,
    pat: u16,
    value: u16,
    other: u16,
    mark: &mut Mark,
) -> Result<(), WalkFault>
    requires under { (pat < n) × (value < n) × (other < n) }
    ensures { Does W.means I.tells (λ s. walk_let_statement s (doing s) pat value other) recorder.old mark.old recorder.new mark.new result }
{
    if_some(recorder, n, other, mark)?;
    if value == 0 {
        return Ok(());
    }
    let_value(recorder, n, value, other, mark)?;
    bind(recorder, n, pat, value, mark)
}

// An expression that may be missing.
#[cycle(walk)]
fn if_some<W: World, I: Inner>(
    recorder: &mut Recorder<W, I>,
    n: u16,
    expr: u16,
    mark: &mut Mark,
) -> Result<(), WalkFault>
    requires under { expr < n }
    ensures { Does W.means I.tells (λ s i. if nat_eq expr 0 then [] else consume_expr s (doing s) expr i) recorder.old mark.old recorder.new mark.new result }
{
    if expr == 0 {
        return Ok(());
    }
    use_expr(recorder, Mode::Move, expr, mark)
}

// An initializer is consumed only beside an else branch.
#[cycle(walk)]
fn let_value<W: World, I: Inner>(
    recorder: &mut Recorder<W, I>,
    n: u16,
    value: u16,
    other: u16,
    mark: &mut Mark,
) -> Result<(), WalkFault>
    requires under { value < n }
    ensures { Does W.means I.tells (λ s. let_value s (doing s) value other) recorder.old mark.old recorder.new mark.new result }
{
    if other == 0 {
        walk_expr(recorder, value, mark)
    } else {
        use_expr(recorder, Mode::Move, value, mark)
    }
}

// A pattern takes the place of a value, where there is one.
#[cycle(walk)]
fn bind<W: World, I: Inner>(
    recorder: &mut Recorder<W, I>,
    n: u16,
    pat: u16,
    value: u16,
    mark: &mut Mark,
) -> Result<(), WalkFault>
    requires under { pat < n }
    ensures { Does W.means I.tells (λ s. bind_place s (doing s) pat value) recorder.old mark.old recorder.new mark.new result }
{
    match place_of_expr(recorder.scene, value)? {
        Some(place) => consume_with_pat(recorder, pat, place, mark),
        None => Ok(()),
    }
}

// A dereference: by a method it goes by what its child is adjusted to.
#[cycle(walk)]
fn walk_deref<W: World, I: Inner>(
    recorder: &mut Recorder<W, I>,
    n: u16,
    base: u16,
    resolved: bool,
    mark: &mut Mark,
) -> Result<(), WalkFault>
    requires under { base < n }
    ensures { Does W.means I.tells (λ s i. if resolved then deref_by_method s (doing s) (s.means.shape (adjusted_type (expr_at s.body base))) base i else (doing s base).walked i) recorder.old mark.old recorder.new mark.new result }
{
    if !resolved {
        return walk_expr(recorder, base, mark);
    }
    match recorder
        .scene
        .world
        .shape(adjusted_type(expr_at(recorder.scene.body, base)))
    {
        Shape::Shared => use_expr(recorder, Mode::Imm, base, mark),
        Shape::Mutable => use_expr(recorder, Mode::Mut, base, mark),
        Shape::Raw => walk_expr(recorder, base, mark),
        _ => Ok(()),
    }
}

// What an assignment does after its value is walked.
#[cycle(walk)]
fn assign<W: World, I: Inner>(
    recorder: &mut Recorder<W, I>,
    n: u16,
    pat: u16,
    value: u16,
    mark: &mut Mark,
) -> Result<(), WalkFault>
    requires under { pat < n }
    ensures { Does W.means I.tells (λ s. assign_from s (doing s) (place_of_expr s.means s.body value) pat) recorder.old mark.old recorder.new mark.new result }
{
    match place_of_expr(recorder.scene, value)? {
        Some(place) => assign_at(recorder, pat, place, mark),
        None => assign_pat(recorder, pat, mark),
    }
}

// The left side of an assignment takes a place, with the mark set.
#[cycle(walk)]
fn assign_at<W: World, I: Inner>(
    recorder: &mut Recorder<W, I>,
    n: u16,
    place: Place,
    mark: &mut Mark,
) -> Result<(), WalkFault>
    ensures { Does W.means I.tells (λ s i. (doing s n).consumed (spot place) true) recorder.old mark.old recorder.new mark.new result }
{
    let was = mark.inside;
    let guard = MarkGuard { mark, was };
    guard.mark.inside = true;
    consume_with_pat(recorder, n, place, guard.mark)
}

// Arms, then the scrutinee, then what its patterns ask for.
#[cycle(walk)]
fn walk_match<W: World, I: Inner>(
    recorder: &mut Recorder<W, I>,
    n: u16,
    scrutinee: u16,
    arms: Arms,
    mark: &mut Mark,
) -> Result<(), WalkFault>
    requires under { (scrutinee < n) × ArmsBelow n (triples (numbers arms.bytes.now)) }
    ensures { Does W.means I.tells (λ s. walk_form s (doing s) n (match_on scrutinee (triples (numbers arms.entry.bytes.now)))) recorder.old mark.old recorder.new mark.new result }
{
    walk_arms(recorder, n, arms, mark)?;
    walk_expr(recorder, scrutinee, mark)?;
    recorder.capture_match(scrutinee, arms)
}

// Each arm, and after it its guard.
#[cycle(walk)]
fn walk_arms<W: World, I: Inner>(
    recorder: &mut Recorder<W, I>,
    n: u16,
    arms: Arms,
    mark: &mut Mark,
) -> Result<(), WalkFault>
    requires under { ArmsBelow n (triples (numbers arms.bytes.now)) }
    ensures { Does W.means I.tells (λ s. walk_arms s (doing s) (triples (numbers arms.entry.bytes.now))) recorder.old mark.old recorder.new mark.new result }
{
    for arm in arms {
        let (first, then) = (arm.body, arm.guard);
        use_expr(recorder, Mode::Move, first, mark)?;
        if_some(recorder, n, then, mark)?;
    }
    Ok(())
}

// A pattern takes a place.
#[cycle(walk)]
fn consume_with_pat<W: World, I: Inner>(
    recorder: &mut Recorder<W, I>,
    n: u16,
    place: Place,
    mark: &mut Mark,
) -> Result<(), WalkFault>
    ensures { Does W.means I.tells (λ s. (doing s n).consumed (spot place)) recorder.old mark.old recorder.new mark.new result }
{
    let node = pat_at(recorder.scene.body, n);
    let behind = derefs_on(place, node.implicit)?;
    take_form(recorder, n, node.pat, behind, mark)
}

// A pattern behind its implicit dereferences.
#[cycle(walk)]
fn take_form<W: World, I: Inner>(
    recorder: &mut Recorder<W, I>,
    n: u16,
    pat: Pat,
    place: Place,
    mark: &mut Mark,
) -> Result<(), WalkFault>
    requires under { PatBelow n (view_pat pat) }
    ensures { Does W.means I.tells (λ s. consume_form s (doing s) n (view_pat pat.entry) (spot place)) recorder.old mark.old recorder.new mark.new result }
{
    match pat {
        Pat::Wild | Pat::Boxed { .. } => Ok(()),
        Pat::Bind { by, .. } => recorder.consume_bind(n, by, place),
        Pat::Tuple { fields } => take_fields(recorder, n, fields, place, mark),
        Pat::Or { pats } => take_pats(recorder, n, pats, place, mark),
        Pat::Variant { sort, fields } => match sort {
            VariantSort::Struct => take_fields(recorder, n, fields, place, mark),
            VariantSort::Unresolved => Ok(()),
            _ => recorder.add_capture(place, Mode::Move, n),
        },
        Pat::Reading { .. } => recorder.add_capture(place, Mode::Move, n),
        Pat::Ref { pat } => {
            let behind = step_on(place, 0)?;
            consume_with_pat(recorder, pat, behind, mark)
        }
        Pat::LocalPath { binding } => recorder.consume_path(n, binding, place, mark.inside),
        Pat::Expression { expr } => take_expr(recorder, n, expr, place, mark),
    }
}

// The fields of a pattern, each at its step.
#[cycle(walk)]
fn take_fields<W: World, I: Inner>(
    recorder: &mut Recorder<W, I>,
    n: u16,
    fields: Fields,
    place: Place,
    mark: &mut Mark,
) -> Result<(), WalkFault>
    requires under { FieldsBelow n (pairs (numbers fields.bytes.now)) }
    ensures { Does W.means I.tells (λ s. consume_fields s (doing s) (spot place) (pairs (numbers fields.entry.bytes.now))) recorder.old mark.old recorder.new mark.new result }
{
    for field in fields {
        take_field(recorder, n, field, place, mark)?;
    }
    Ok(())
}

// One field; one that does not exist takes nothing.
#[cycle(walk)]
fn take_field<W: World, I: Inner>(
    recorder: &mut Recorder<W, I>,
    n: u16,
    field: FieldPat,
    place: Place,
    mark: &mut Mark,
) -> Result<(), WalkFault>
    requires under { field.pat < n }
    ensures { Does W.means I.tells (λ s i. with_place (field_on (spot place) field.step) (λ q. (doing s field.pat).consumed q i)) recorder.old mark.old recorder.new mark.new result }
{
    if field.step == NO_FIELD {
        return Ok(());
    }
    let behind = step_on(place, field.step)?;
    consume_with_pat(recorder, field.pat, behind, mark)
}

// Alternatives, each at the whole place.
#[cycle(walk)]
fn take_pats<W: World, I: Inner>(
    recorder: &mut Recorder<W, I>,
    n: u16,
    pats: Numbers,
    place: Place,
    mark: &mut Mark,
) -> Result<(), WalkFault>
    requires under { ListBelow n (numbers pats.bytes.now) }
    ensures { Does W.means I.tells (λ s. consume_pats s (doing s) (spot place) (numbers pats.entry.bytes.now)) recorder.old mark.old recorder.new mark.new result }
{
    for pat in pats {
        consume_with_pat(recorder, pat, place, mark)?;
    }
    Ok(())
}

// An expression pattern takes the place; then its expression is mutated, with the mark taken away.
#[cycle(walk)]
fn take_expr<W: World, I: Inner>(
    recorder: &mut Recorder<W, I>,
    n: u16,
    expr: u16,
    place: Place,
    mark: &mut Mark,
) -> Result<(), WalkFault>
    requires under { expr < n }
    ensures { Does W.means I.tells (λ s i. consume_place s (spot place) n ++ mutate_expr s (doing s) expr false) recorder.old mark.old recorder.new mark.new result }
{
    recorder.add_capture(place, Mode::Move, n)?;
    let was = mark.inside;
    let guard = MarkGuard { mark, was };
    guard.mark.inside = false;
    use_expr(recorder, Mode::Mut, expr, guard.mark)
}

// A pattern on the left of an assignment whose value has no place.
#[cycle(walk)]
fn assign_pat<W: World, I: Inner>(
    recorder: &mut Recorder<W, I>,
    n: u16,
    mark: &mut Mark,
) -> Result<(), WalkFault>
    ensures { Does W.means I.tells (λ s. (doing s n).assigned) recorder.old mark.old recorder.new mark.new result }
{
    let node = pat_at(recorder.scene.body, n);
    assign_form(recorder, n, node.pat, mark)?;
    for sub in SubPats::of(node.pat) {
        assign_pat(recorder, sub, mark)?;
    }
    Ok(())
}

// What such a pattern assigns itself.
#[cycle(walk)]
fn assign_form<W: World, I: Inner>(
    recorder: &mut Recorder<W, I>,
    n: u16,
    pat: Pat,
    mark: &mut Mark,
) -> Result<(), WalkFault>
    requires under { PatBelow n (view_pat pat) }
    ensures { Does W.means I.tells (λ s. assign_form s (doing s) n (view_pat pat.entry)) recorder.old mark.old recorder.new mark.new result }
{
    match pat {
        Pat::LocalPath { binding } => recorder.add_capture(Place::whole(binding), Mode::Mut, n),
        Pat::Expression { expr } => use_expr(recorder, Mode::Mut, expr, mark),
        _ => Ok(()),
    }
}
