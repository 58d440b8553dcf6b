// The nodes of a body as the walk asks for them.
ghost use Rattle.std.specs.Prelude.{◌≡◌, length, slice_index};
ghost use Rattle.std.specs.Iterator.{YieldsFirst, item_count};
ghost use Rattle.body.specs.Bodies.{body_of};
ghost use Rattle.node.specs.Nodes.{view_pat};
ghost use Rattle.scene.specs.Parts.{expr_at, pat_at, adjusted_type, sub_pats, view_expr_node, view_pat_node, view_subs};

use body::bodies::Body;
use node::lists::{Adjustments, Fields};
use node::nodes::{Expr, ExprNode, Node, Pat, PatNode};
use reader::numbers::Numbers;

// An expression by its number; one that visits nothing, where the number is no expression's.
pub fn expr_at<'a>(body: &Body<'a>, n: u16) -> ExprNode<'a>
    ensures { view_expr_node result ≡ expr_at (body_of body.now) n }
{
    match body.node(n) {
        Some(Node::Expr(found)) => found,
        _ => ExprNode {
            home: 0,
            ty: 0,
            adjustments: Adjustments::new(&[]),
            expr: Expr::Leaf,
        },
    }
}

// A pattern by its number; one that binds nothing, where the number is no pattern's.
pub fn pat_at<'a>(body: &Body<'a>, n: u16) -> PatNode<'a>
    ensures { view_pat_node result ≡ pat_at (body_of body.now) n }
{
    match body.node(n) {
        Some(Node::Pat(found)) => found,
        _ => PatNode {
            home: 0,
            implicit: 0,
            pat: Pat::Wild,
        },
    }
}

// The type of an expression after its adjustments.
pub fn adjusted_type(node: ExprNode) -> u16
    ensures { result ≡ adjusted_type (view_expr_node node.entry) }
{
    let count = node.adjustments.len();
    if count == 0 {
        return node.ty;
    }
    node.adjustments.get(count - 1).target
}

// The patterns directly inside a pattern; as an iterator, in the order of its operands.
#[derive(Clone, Copy)]
pub enum SubPats<'a> {
    AtMostOne(Option<u16>),
    Listed(Numbers<'a>),
    Named(Fields<'a>),
}

impl<'a> SubPats<'a> {
    pub fn of(pat: Pat<'a>) -> SubPats<'a>
        ensures { view_subs result ≡ sub_pats (view_pat pat.entry) }
    {
        match pat {
            Pat::Bind { sub: 0, .. } => SubPats::AtMostOne(None),
            Pat::Bind { sub: pat, .. } => SubPats::AtMostOne(Some(pat)),
            Pat::Tuple { fields } | Pat::Variant { fields, .. } => SubPats::Named(fields),
            Pat::Or { pats } | Pat::Reading { pats } => SubPats::Listed(pats),
            Pat::Ref { pat } | Pat::Boxed { pat } => SubPats::AtMostOne(Some(pat)),
            Pat::Wild | Pat::LocalPath { .. } | Pat::Expression { .. } => SubPats::AtMostOne(None),
        }
    }

    pub fn len(self) -> usize
        ensures { result ≡ length (view_subs self.entry) }
    {
        match self {
            SubPats::AtMostOne(pat) => pat.is_some() as usize,
            SubPats::Listed(numbers) => numbers.len(),
            SubPats::Named(fields) => fields.len(),
        }
    }

    // The pattern at a place from 0, and 0 past the end.
    pub fn get(self, at: usize) -> u16
        ensures { result ≡ slice_index (view_subs self.entry) at }
    {
        match self {
            SubPats::AtMostOne(pat) => { if at == 0 { pat.unwrap_or(0) } else { 0 } }
            SubPats::Listed(numbers) => numbers.get(at),
            SubPats::Named(fields) => fields.get(at).pat,
        }
    }
}

impl Iterator for SubPats<'_> {
    type Item = u16;

    ghost next_gives = { YieldsFirst view_subs };

    ghost remaining = { item_count view_subs };

    fn next(&mut self) -> Option<u16> {
        match self {
            SubPats::AtMostOne(pat) => pat.take(),
            SubPats::Listed(numbers) => numbers.next(),
            SubPats::Named(fields) => Some(fields.next()?.pat),
        }
    }
}
