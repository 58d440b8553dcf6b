// How a match uses the place that it looks at, and which types are Copy.
ghost use Rattle.std.specs.Prelude.{◌≡◌, map, length, None};
ghost use Rattle.reader.specs.Numbers.{numbers};
ghost use Rattle.node.specs.declared.lists.Arm.{Arm};
ghost use Rattle.node.specs.Lists.{triples};
ghost use Rattle.node.specs.Nodes.{view_pat};
ghost use Rattle.body.specs.Answers.{binding_in};
ghost use Rattle.body.specs.Bodies.{body_of};
ghost use Rattle.scale.specs.declared.modes.Mode.TheVariants.{Mut};
ghost use Rattle.events.specs.Events.{Records};
ghost use Rattle.events.specs.Matches.{type_copies, type_or, higher, asks_move, asks_bind, asks, ask_each, mut_behind, walk_pat, binding_type};
ghost use Rattle.scene.specs.Places.{place_of_expr};
ghost use Rattle.scene.specs.Scenes.{setting};
ghost use Rattle.events.specs.Captures.{with_place, match_place};

use crate::captures::is_upvar;
use crate::recorder::Recorder;
use body::bodies::Body;
use node::lists::Arms;
use node::nodes::{BindBy, Pat, VariantSort};
use place::uses::Use;
use scale::modes::Mode;
use scale::sited::Sited;
use scene::faults::WalkFault;
use scene::inner::Inner;
use scene::nodes::{SubPats, pat_at};
use scene::places::place_of_expr;
use scene::scenes::Scene;
use world::shapes::Shape;
use world::worlds::World;

// Whether a type is Copy; none of a closure that is not analysed.
pub fn type_copies<W: World, I: Inner>(scene: &Scene<W, I>, ty: u16) -> Option<bool>
    ensures { result ≡ type_copies (setting W.World.means I.Inner.tells scene.now) ty }
{
    let Shape::Closure(k) = scene.world.shape(ty) else {
        return Some(scene.world.is_copy(ty));
    };
    if k == 0 || k > scene.body.closure_count() as u16 {
        return Some(true);
    }
    scene.inner.copies(k as u8)
}

// The type of a binding; of a number that is no binding's, the error type.
pub fn type_of_binding<W: World>(world: &W, body: &Body, number: u16) -> u16
    ensures { result ≡ type_or (W.World.means world.now).error (binding_in (body_of body.now) number) }
{
    body.binding(number)
        .map_or(world.error_type(), |found| found.ty)
}

// The type of a binding.
fn binding_type<W: World, I: Inner>(scene: &Scene<W, I>, number: u16) -> u16
    ensures { result ≡ binding_type (setting W.World.means I.Inner.tells scene.now) number }
{
    type_of_binding(scene.world, scene.body, number)
}

// The higher of two modes.
fn higher(so_far: Option<Mode>, mode: Mode) -> Option<Mode>
    ensures { result ≡ higher so_far mode }
{
    so_far.max(Some(mode))
}

// What a binding by move asks for.
fn ask_move<W: World, I: Inner>(
    scene: &Scene<W, I>,
    ty: u16,
    so_far: Option<Mode>,
) -> Result<Option<Mode>, WalkFault>
    ensures { result ≡ asks_move (type_copies (setting W.World.means I.Inner.tells scene.now) ty) so_far }
{
    let copies = type_copies(scene, ty).ok_or(WalkFault::NotAnalysed)?;
    let mode = if copies { Mode::Imm } else { Mode::Move };
    Ok(higher(so_far, mode))
}

fn ask_bind<W: World, I: Inner>(
    scene: &Scene<W, I>,
    number: u16,
    by: BindBy,
    for_mut: Mode,
    so_far: Option<Mode>,
) -> Result<Option<Mode>, WalkFault>
    ensures { result ≡ asks_bind (setting W.World.means I.Inner.tells scene.now) number by for_mut so_far }
{
    match by {
        BindBy::Move => ask_move(scene, binding_type(scene, number), so_far),
        BindBy::Ref => Ok(higher(so_far, Mode::Imm)),
        BindBy::RefMut => Ok(higher(so_far, for_mut)),
    }
}

// What a pattern asks for itself.
fn ask<W: World, I: Inner>(
    scene: &Scene<W, I>,
    pat: Pat,
    for_mut: Mode,
    so_far: Option<Mode>,
) -> Result<Option<Mode>, WalkFault>
    ensures { result ≡ asks (setting W.World.means I.Inner.tells scene.now) (view_pat pat.entry) for_mut so_far }
{
    match pat {
        Pat::Bind { binding, by, .. } => ask_bind(scene, binding, by, for_mut, so_far),
        Pat::Variant {
            sort: VariantSort::Enum,
            ..
        }
        | Pat::Reading { .. }
        | Pat::LocalPath { .. } => Ok(higher(so_far, Mode::Imm)),
        _ => Ok(so_far),
    }
}

// What `ref mut` asks for inside a pattern.
fn mut_behind(implicit: u8, for_mut: Mode) -> Mode
    ensures { result ≡ mut_behind implicit for_mut }
{
    if implicit == 0 { for_mut } else { Mode::Unique }
}

// The highest mode that a pattern and those inside it ask for.
pub fn walk_pat<W: World, I: Inner>(
    scene: &Scene<W, I>,
    n: u16,
    for_mut: Mode,
    so_far: Option<Mode>,
) -> Result<Option<Mode>, WalkFault>
    ensures { result ≡ walk_pat (setting W.World.means I.Inner.tells scene.now) n for_mut so_far }
{
    let node = pat_at(scene.body, n);
    let mut asked = ask(scene, node.pat, for_mut, so_far)?;
    let inside = mut_behind(node.implicit, for_mut);
    for sub in SubPats::of(node.pat) {
        asked = walk_pat(scene, sub, inside, asked)?;
    }
    Ok(asked)
}

// The highest mode that the patterns of a match ask for.
fn match_mode<W: World, I: Inner>(
    scene: &Scene<W, I>,
    arms: Arms,
) -> Result<Option<Mode>, WalkFault>
    ensures { result ≡ ask_each (walk_pat (setting W.World.means I.Inner.tells scene.now)) (map (λ (a : Arm). a.pat) (triples (numbers arms.entry.bytes.now))) Mut None }
{
    let mut asked = None;
    for arm in arms {
        asked = walk_pat(scene, arm.pat, Mode::Mut, asked)?;
    }
    Ok(asked)
}

impl<W: World, I: Inner> Recorder<'_, '_, W, I> {
    // One use of the place that a match looks at, if it is an upvar's and the patterns ask for any.
    pub fn capture_match(&mut self, scrutinee: u16, arms: Arms) -> Result<(), WalkFault>
        ensures { Records W.means I.tells (λ s. with_place (place_of_expr s.means s.body scrutinee) (match_place s scrutinee (triples (numbers arms.entry.bytes.now)))) self.old self.new result }
    {
        let Some(place) = place_of_expr(self.scene, scrutinee)? else {
            return Ok(());
        };
        if !is_upvar(self.scene, place) {
            return Ok(());
        }
        match match_mode(self.scene, arms)? {
            Some(value) => self.push(Use {
                place,
                mode: Sited {
                    value,
                    site: scrutinee,
                },
            }),
            None => Ok(()),
        }
    }
}
