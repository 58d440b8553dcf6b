// From the payload of a node's record to the node.
ghost use Rattle.std.specs.Prelude.{◌≡◌, take};
ghost use Rattle.reader.specs.Pieces.{byte_at};
ghost use Rattle.node.specs.Nodes.{bind_by, variant_sort, expr_of, pat_of, class_at, node_of, view_expr, view_pat, view_node};

use crate::lists::{Adjustments, Arms, Fields};
use crate::nodes::{BindBy, Expr, ExprNode, Node, Pat, PatNode, VariantSort};
use reader::class::Class;
use reader::numbers::Numbers;
use reader::payload::operand_bytes;
use reader::pieces::{behind, byte_at, number_at};

// The class of a node; an unknown byte, which no opened body has, counts as a leaf.
pub fn class_at(payload: &[u8]) -> Class
    ensures { result ≡ class_at payload.now }
{
    Class::try_from(byte_at(payload, 1)).unwrap_or(Class::Leaf)
}

// The first bytes, or all where there are no more.
fn front<'a>(bytes: &'a [u8], count: usize) -> &'a [u8]
    ensures { result.now ≡ take count bytes.now }
{
    bytes.get(..count).unwrap_or(bytes)
}

impl<'a> Node<'a> {
    pub fn of(payload: &'a [u8]) -> Node<'a>
        ensures { view_node result ≡ node_of payload.now }
    {
        let class = class_at(payload);
        let operands = operand_bytes(class, payload);
        if class.is_expression() {
            let count = byte_at(payload, 4) as usize;
            Node::Expr(ExprNode {
                home: byte_at(payload, 0),
                ty: number_at(payload, 2),
                adjustments: Adjustments::new(front(behind(payload, 5), 3 * count)),
                expr: Expr::of(class, operands),
            })
        } else {
            Node::Pat(PatNode {
                home: byte_at(payload, 0),
                implicit: byte_at(payload, 2),
                pat: Pat::of(class, operands),
            })
        }
    }
}

impl<'a> Expr<'a> {
    // An expression of a class, from the bytes of its operands.
    pub fn of(class: Class, bytes: &'a [u8]) -> Expr<'a>
        ensures { view_expr result ≡ expr_of class bytes.now }
    {
        let first = number_at(bytes, 0);
        let second = number_at(bytes, 2);
        let flag = byte_at(bytes, 2) == 1;
        match class {
            Class::Name => Expr::Name { binding: first },
            Class::Run => Expr::Run {
                children: Numbers::new(bytes),
            },
            Class::LetStatement => Expr::LetStatement {
                pat: first,
                initializer: second,
                otherwise: number_at(bytes, 4),
            },
            Class::Field => Expr::Field {
                base: first,
                step: second,
            },
            Class::Deref => Expr::Deref {
                base: first,
                resolved: flag,
            },
            Class::Ref => Expr::Ref {
                base: first,
                mutable: flag,
            },
            Class::OpAssign => Expr::OpAssign {
                target: first,
                value: second,
            },
            Class::Assign => Expr::Assign {
                target: first,
                value: second,
            },
            Class::Match => Expr::Match {
                scrutinee: first,
                arms: Arms::new(behind(bytes, 2)),
            },
            Class::Let => Expr::Let {
                pat: first,
                value: second,
            },
            Class::Index => Expr::Index {
                base: first,
                index: second,
            },
            Class::Closure => Expr::Closure {
                body: first,
                by_move: flag,
            },
            _ => Expr::Leaf,
        }
    }
}

impl From<u8> for BindBy {
    ghost from_gives = { λ flag by. by ≡ bind_by flag };

    fn from(flag: u8) -> BindBy {
        match flag {
            0 => BindBy::Move,
            1 => BindBy::Ref,
            _ => BindBy::RefMut,
        }
    }
}

impl From<u8> for VariantSort {
    ghost from_gives = { λ flag sort. sort ≡ variant_sort flag };

    fn from(flag: u8) -> VariantSort {
        match flag {
            0 => VariantSort::Struct,
            1 => VariantSort::Enum,
            2 => VariantSort::OneVariant,
            3 => VariantSort::Union,
            _ => VariantSort::Unresolved,
        }
    }
}

impl<'a> Pat<'a> {
    // A pattern of a class, from the bytes of its operands.
    pub fn of(class: Class, bytes: &'a [u8]) -> Pat<'a>
        ensures { view_pat result ≡ pat_of class bytes.now }
    {
        let first = number_at(bytes, 0);
        match class {
            Class::Bind => Pat::Bind {
                binding: first,
                by: BindBy::from(byte_at(bytes, 2)),
                sub: number_at(bytes, 3),
            },
            Class::Tuple => Pat::Tuple {
                fields: Fields::new(bytes),
            },
            Class::Or => Pat::Or {
                pats: Numbers::new(bytes),
            },
            Class::Variant => Pat::Variant {
                sort: VariantSort::from(byte_at(bytes, 0)),
                fields: Fields::new(behind(bytes, 1)),
            },
            Class::Reading => Pat::Reading {
                pats: Numbers::new(bytes),
            },
            Class::RefPat => Pat::Ref { pat: first },
            Class::BoxPat => Pat::Boxed { pat: first },
            Class::LocalPath => Pat::LocalPath { binding: first },
            Class::Expression => Pat::Expression { expr: first },
            _ => Pat::Wild,
        }
    }
}
