// The classes of nodes, and what operands each class has.
ghost use Rattle.std.specs.Prelude.{◌≡◌};
ghost use Rattle.std.specs.Option.{ok_or};
ghost use Rattle.reader.specs.Classes.{class_of, head, again, is_expression, is_closure};
ghost use Rattle.reader.specs.declared.payload.Wrong.TheVariants.{Unknown};

use crate::payload::Wrong;

// What a node is. The first thirteen are expressions, the rest are patterns.
#[derive(Clone, Copy, PartialEq, Eq, Debug)]
pub enum Class {
    Leaf,
    Name,
    Run,
    LetStatement,
    Field,
    Deref,
    Ref,
    OpAssign,
    Assign,
    Match,
    Let,
    Index,
    Closure,
    Wild,
    Bind,
    Tuple,
    Or,
    Variant,
    Reading,
    RefPat,
    BoxPat,
    LocalPath,
    Expression,
}

// What an operand names. The optional ones may be 0; a flag is one byte, of at most the given value.
#[derive(Clone, Copy, PartialEq, Eq, Debug)]
pub enum Sort {
    Expr,
    MaybeExpr,
    Pat,
    MaybePat,
    Binding,
    Step,
    Flag(u8),
}

const EXPRESSIONS: [Class; 13] = [
    Class::Leaf,
    Class::Name,
    Class::Run,
    Class::LetStatement,
    Class::Field,
    Class::Deref,
    Class::Ref,
    Class::OpAssign,
    Class::Assign,
    Class::Match,
    Class::Let,
    Class::Index,
    Class::Closure,
];

const PATTERNS: [Class; 10] = [
    Class::Wild,
    Class::Bind,
    Class::Tuple,
    Class::Or,
    Class::Variant,
    Class::Reading,
    Class::RefPat,
    Class::BoxPat,
    Class::LocalPath,
    Class::Expression,
];

// The class of a class byte: expressions from 0, patterns from 32.
impl TryFrom<u8> for Class {
    type Error = Wrong;

    ghost try_from_gives = { λ byte r. r ≡ ok_or (class_of byte) Unknown };

    fn try_from(byte: u8) -> Result<Class, Wrong> {
        match byte as usize {
            at @ 0..13 => Ok(EXPRESSIONS[at]),
            at @ 32..42 => Ok(PATTERNS[at - 32]),
            _ => Err(Wrong::Unknown),
        }
    }
}

impl Class {
    pub fn is_expression(self) -> bool
        ensures { result ≡ is_expression self }
    {
        EXPRESSIONS.contains(&self)
    }

    pub fn is_closure(self) -> bool
        ensures { result ≡ is_closure self }
    {
        self == Class::Closure
    }

    // The operands that every node of the class has, in their order.
    pub fn head(self) -> &'static [Sort]
        ensures { result.now ≡ head self }
    {
        match self {
            Class::Leaf | Class::Run | Class::Wild | Class::Tuple | Class::Or | Class::Reading =>
                &[],
            Class::Name | Class::LocalPath => &[Sort::Binding],
            Class::LetStatement => &[Sort::Pat, Sort::MaybeExpr, Sort::MaybeExpr],
            Class::Field => &[Sort::Expr, Sort::Step],
            Class::Deref | Class::Ref | Class::Closure => &[Sort::Expr, Sort::Flag(1)],
            Class::OpAssign | Class::Index => &[Sort::Expr, Sort::Expr],
            Class::Assign | Class::Let => &[Sort::Pat, Sort::Expr],
            Class::Match | Class::Expression => &[Sort::Expr],
            Class::Bind => &[Sort::Binding, Sort::Flag(2), Sort::MaybePat],
            Class::Variant => &[Sort::Flag(4)],
            Class::RefPat | Class::BoxPat => &[Sort::Pat],
        }
    }

    // The operands that follow, any number of times over; none for most classes.
    pub fn again(self) -> &'static [Sort]
        ensures { result.now ≡ again self }
    {
        match self {
            Class::Run => &[Sort::Expr],
            Class::Match => &[Sort::Pat, Sort::MaybeExpr, Sort::Expr],
            Class::Tuple | Class::Variant => &[Sort::Step, Sort::Pat],
            Class::Or | Class::Reading => &[Sort::Pat],
            _ => &[],
        }
    }
}
