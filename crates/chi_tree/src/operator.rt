/// An operator of a chain, which is grouped from the left.
#[derive(Clone, Copy, Debug, PartialEq, Eq)]
pub enum Operator {
    Or,
    And,
    Add,
    Subtract,
    Multiply,
    Divide,
    /// `div`
    DivideWhole,
    /// `mod`
    Remainder,
}

/// An operator between two sums, which makes no chains.
#[derive(Clone, Copy, Debug, PartialEq, Eq)]
pub enum RelationSign {
    Less,
    LessEqual,
    Equal,
    NotEqual,
    Greater,
    GreaterEqual,
    In,
    Sub,
}

/// An operator before its operand.
#[derive(Clone, Copy, Debug, PartialEq, Eq)]
pub enum PrefixSign {
    Not,
    Minus,
    Plus,
    Sample,
}

/// A word that casts what stands in brackets after it.
#[derive(Clone, Copy, Debug, PartialEq, Eq)]
pub enum CastWord {
    Int,
    Real,
    Text,
    Bool,
    Timer,
}
