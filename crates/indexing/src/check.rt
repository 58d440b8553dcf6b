// How a node stands to the nodes before it. `nodes` are their rows.
ghost use Rattle.std.specs.Prelude.{◌≡◌, Bool, true, is_some, if◌then◌else◌, Some, None};
ghost use Rattle.reader.specs.Operands.{all, any, spelled, view_left};
ghost use Rattle.indexing.specs.Checks.{operands_left, bad_step, bad_operand, child_of, claim_child, claims, depth_of, deepest, strays, home_misfits, sort_of, enters, entered};
ghost use Rattle.node.specs.Nodes.{class_at};

use crate::faults::BodyFault;
use crate::rows::{Row, RowSort, row_at};
use node::decode::class_at;
use reader::class::Sort;
use reader::operands::{Operand, Operands};
use reader::payload::operand_bytes;
use reader::pieces::byte_at;

// The operands of a node, to be read by the sorts of its class.
pub(crate) fn operands_of<'a>(payload: &'a [u8]) -> Operands<'a>
    ensures { view_left result ≡ operands_left payload.now }
{
    let class = class_at(payload);
    Operands {
        bytes: operand_bytes(class, payload),
        sorts: class.head(),
        again: class.again(),
    }
}

fn is_bad_step(step: u16) -> bool
    ensures { result ≡ bad_step step }
{
    matches!(step, 0 | 65533 | 65534)
}

// The child that an operand names, if it names one.
fn child_of(operand: Operand) -> Option<u16>
    ensures { result ≡ child_of operand }
{
    match operand.sort {
        Sort::Expr | Sort::Pat => Some(operand.number),
        Sort::MaybeExpr | Sort::MaybePat if operand.number != 0 => Some(operand.number),
        _ => None,
    }
}

// Whether an operand names no earlier node of its sort, no binding, or a bad step.
fn is_bad(nodes: &[Row], bindings: usize, operand: Operand) -> bool
    ensures { result ≡ bad_operand nodes.now bindings operand }
{
    let number = operand.number;
    let named = row_at(nodes, number).sort;
    match operand.sort {
        Sort::Expr => named != RowSort::Expr,
        Sort::MaybeExpr => number != 0 && named != RowSort::Expr,
        Sort::Pat => named != RowSort::Pat,
        Sort::MaybePat => number != 0 && named != RowSort::Pat,
        Sort::Binding => number == 0 || number as usize > bindings,
        Sort::Step => is_bad_step(number),
        Sort::Flag(_) => false,
    }
}

fn any_bad(nodes: &[Row], bindings: usize, mut operands: Operands) -> bool
    ensures { result ≡ any (bad_operand nodes.now bindings) (spelled (view_left operands.entry)) }
{
    operands.any(|operand| is_bad(nodes, bindings, operand))
}

// Marks the children as nodes that have a parent; false where one had one.
fn claim(marks: &mut [bool], operands: Operands) -> bool
    ensures { claims marks.old (spelled (view_left operands.entry)) ≡ (if result then Some marks.new else None) }
{
    for operand in operands {
        if !claim_child(marks, child_of(operand)) {
            return false;
        }
    }
    true
}

fn claim_child(marks: &mut [bool], child: Option<u16>) -> bool
    ensures { claim_child marks.old child ≡ (if result then Some marks.new else None) }
{
    let Some(child) = child else {
        return true;
    };
    let at = child as usize;
    if at >= marks.len() {
        return true;
    }
    if marks[at] {
        return false;
    }
    marks[at] = true;
    true
}

// How deep the deepest child nests.
fn depth_below(nodes: &[Row], operands: Operands) -> u8
    ensures { result ≡ deepest nodes.now 0 (spelled (view_left operands.entry)) }
{
    operands.fold(0, |depth, operand| depth.max(child_depth(nodes, operand)))
}

fn child_depth(nodes: &[Row], operand: Operand) -> u8
    ensures { result ≡ depth_of nodes.now (child_of operand) }
{
    child_of(operand).map_or(0, |child| row_at(nodes, child).depth)
}

// Whether an operand is a child that has not this home.
fn strays(nodes: &[Row], home: u8, operand: Operand) -> bool
    ensures { result ≡ strays nodes.now home operand }
{
    child_of(operand).is_some_and(|child| row_at(nodes, child).home != home)
}

fn any_strays(nodes: &[Row], home: u8, mut operands: Operands) -> bool
    ensures { result ≡ any (strays nodes.now home) (spelled (view_left operands.entry)) }
{
    operands.any(|operand| strays(nodes, home, operand))
}

// Whether a home misfits: `closing` is the number of the closure that the node is, if it is one.
fn home_misfits(nodes: &[Row], home: u8, closing: Option<u8>, operands: Operands) -> bool
    ensures { result ≡ home_misfits nodes.now home closing (spelled (view_left operands.entry)) }
{
    match closing {
        Some(k) => any_strays(nodes, k, operands) || !(home == 0 || home > k),
        None => any_strays(nodes, home, operands),
    }
}

fn sort_of(payload: &[u8]) -> RowSort
    ensures { result ≡ sort_of (class_at payload.now) }
{
    if class_at(payload).is_expression() {
        RowSort::Expr
    } else {
        RowSort::Pat
    }
}

// The row of a node whose payload fits its class, or why it is refused; its children then have a parent.
pub(crate) fn enter(
    nodes: &[Row],
    bindings: usize,
    marks: &mut [bool],
    closing: Option<u8>,
    offset: usize,
    payload: &[u8],
) -> Result<Row, BodyFault>
    requires { is_some (all (operands_left payload.now)) ≡ true }
    ensures { enters nodes.now bindings marks.old closing offset payload.now ≡ entered result marks.new }
{
    let operands = operands_of(payload);
    if any_bad(nodes, bindings, operands) {
        return Err(BodyFault::Operand { offset });
    }
    if !claim(marks, operands) {
        return Err(BodyFault::Parent { offset });
    }
    let depth = depth_below(nodes, operands) as usize + 1;
    if depth > 128 {
        return Err(BodyFault::Nesting { offset });
    }
    let home = byte_at(payload, 0);
    if home_misfits(nodes, home, closing, operands) {
        return Err(BodyFault::Home { offset });
    }
    Ok(Row {
        offset,
        sort: sort_of(payload),
        home,
        depth: depth as u8,
    })
}
