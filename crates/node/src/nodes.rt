// Nodes as typed values. Operands are numbers (of nodes, bindings or steps) and parts of the file.
use crate::lists::{Adjustments, Arms, Fields};
use reader::numbers::Numbers;

#[derive(Clone, Copy)]
pub enum Node<'a> {
    Expr(ExprNode<'a>),
    Pat(PatNode<'a>),
}

// An expression: the closure directly around it (0: none), its type before adjustments, and these.
#[derive(Clone, Copy)]
pub struct ExprNode<'a> {
    pub home: u8,
    pub ty: u16,
    pub adjustments: Adjustments<'a>,
    pub expr: Expr<'a>,
}

// A pattern: the closure directly around it (0: none), and how many references it looks through of itself.
#[derive(Clone, Copy)]
pub struct PatNode<'a> {
    pub home: u8,
    pub implicit: u8,
    pub pat: Pat<'a>,
}

#[derive(Clone, Copy)]
pub enum Expr<'a> {
    // visits nothing
    Leaf,
    Name {
        binding: u16,
    },
    // consumes its children in order
    Run {
        children: Numbers<'a>,
    },
    // an initializer or an else branch of 0 is missing
    LetStatement {
        pat: u16,
        initializer: u16,
        otherwise: u16,
    },
    Field {
        base: u16,
        step: u16,
    },
    // resolved: by a method of the type
    Deref {
        base: u16,
        resolved: bool,
    },
    Ref {
        base: u16,
        mutable: bool,
    },
    OpAssign {
        target: u16,
        value: u16,
    },
    Assign {
        target: u16,
        value: u16,
    },
    Match {
        scrutinee: u16,
        arms: Arms<'a>,
    },
    Let {
        pat: u16,
        value: u16,
    },
    Index {
        base: u16,
        index: u16,
    },
    Closure {
        body: u16,
        by_move: bool,
    },
}

#[derive(Clone, Copy)]
pub enum Pat<'a> {
    Wild,
    // a subpattern of 0 is missing
    Bind {
        binding: u16,
        by: BindBy,
        sub: u16,
    },
    Tuple {
        fields: Fields<'a>,
    },
    Or {
        pats: Numbers<'a>,
    },
    Variant {
        sort: VariantSort,
        fields: Fields<'a>,
    },
    // reads the place that it is matched with: ranges, slices, constants, literals
    Reading {
        pats: Numbers<'a>,
    },
    Ref {
        pat: u16,
    },
    Boxed {
        pat: u16,
    },
    LocalPath {
        binding: u16,
    },
    Expression {
        expr: u16,
    },
}

#[derive(Clone, Copy, PartialEq, Eq, Debug)]
pub enum BindBy {
    Move,
    Ref,
    RefMut,
}

#[derive(Clone, Copy, PartialEq, Eq, Debug)]
pub enum VariantSort {
    Struct,
    Enum,
    OneVariant,
    Union,
    Unresolved,
}
