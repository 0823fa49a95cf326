use chi_token::Bytes;

/// What a literal builds of its parts.
#[derive(Clone, Copy, Debug, PartialEq, Eq)]
pub enum Kind {
    TupleOf,
    ListOf,
    SetOf,
    DictOf,
}

/// A piece of a format: text as it stands, or a value in a field.
#[derive(Debug, Drop)]
pub enum Piece {
    Plain(Bytes),
    /// Any plain value, by its text.
    Any(Field),
    /// An int.
    Whole(Field),
    /// A real with so many decimals, at most 9.
    Fixed(Field, u8),
}

/// The place that a value takes at least.
#[derive(Clone, Copy, Debug, PartialEq, Eq)]
pub struct Field {
    /// Whether a short text stands on the left, with the spaces after it.
    pub left: bool,
    /// The least number of bytes, 0 where there is none.
    pub width: u8,
}
