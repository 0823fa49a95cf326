use crate::operator::{CastWord, Operator, PrefixSign, RelationSign};
use crate::type_tree::{Name, TypeTree};
use chi_base::{Boxed, Items};
use chi_token::{Bytes, Place};

/// An expression as it is written. Where a place stands it is that of the expression's first token, or of the
/// operator; an expression that begins with another has its first place there.
#[derive(Drop)]
#[cycle(expr)]
pub enum Expr {
    /// Operands with operators of one level between them.
    Chain {
        first: Boxed<Expr>,
        links: Items<Link>,
    },
    Prefix {
        sign: PrefixSign,
        place: Place,
        operand: Boxed<Expr>,
    },
    Relation {
        left: Boxed<Expr>,
        sign: RelationSign,
        place: Place,
        right: Boxed<Expr>,
    },
    Power {
        base: Boxed<Expr>,
        place: Place,
        exponent: Boxed<Expr>,
    },
    /// Indexes, slices and fields of an expression.
    Part {
        whole: Boxed<Expr>,
        postfixes: Items<Postfix>,
    },
    /// The digits, as written.
    Int {
        digits: Bytes,
        place: Place,
    },
    /// The digits and the point, as written.
    Real {
        digits: Bytes,
        place: Place,
    },
    Text {
        /// Those that the text means.
        bytes: Bytes,
        place: Place,
    },
    Bool {
        truth: bool,
        place: Place,
    },
    Time(Place),
    Named(Name),
    Call {
        name: Name,
        arguments: Items<Expr>,
    },
    Cast {
        word: CastWord,
        place: Place,
        operand: Boxed<Expr>,
    },
    /// An expression in brackets.
    Round {
        place: Place,
        inner: Boxed<Expr>,
    },
    /// Two parts at least.
    TupleOf {
        place: Place,
        parts: Items<Expr>,
    },
    ListOf {
        place: Place,
        elements: Items<Expr>,
    },
    SetOf {
        place: Place,
        elements: Items<Expr>,
    },
    DictOf {
        place: Place,
        entries: Items<Entry>,
    },
    /// `<T>[]`
    EmptyList {
        place: Place,
        element: Boxed<TypeTree>,
    },
    /// `<T>{}`
    EmptySet {
        place: Place,
        element: Boxed<TypeTree>,
    },
    /// `<K : V>{}`
    EmptyDict {
        place: Place,
        key: Boxed<TypeTree>,
        value: Boxed<TypeTree>,
    },
}

/// A further operand of a chain, after its operator.
#[derive(Drop)]
#[cycle(expr)]
pub struct Link {
    pub operator: Operator,
    /// That of the operator.
    pub place: Place,
    pub operand: Expr,
}

/// What stands after an expression and takes a part of it. The place is that of `[`.
#[derive(Drop)]
#[cycle(expr)]
pub enum Postfix {
    Index {
        place: Place,
        index: Boxed<Expr>,
    },
    /// `[from : upto]` or `[from : upto : by]`, each part of which may be left out.
    Slice {
        place: Place,
        from: Option<Boxed<Expr>>,
        upto: Option<Boxed<Expr>>,
        /// Whether a second colon stands there; without one nothing stands in `by`.
        second_colon: bool,
        by: Option<Boxed<Expr>>,
    },
    Field(Name),
}

/// An entry of a dictionary.
#[derive(Drop)]
#[cycle(expr)]
pub struct Entry {
    pub key: Expr,
    pub value: Expr,
}
