use crate::token::Token;

/// Where a byte stands: lines and columns count from 1, and a column is one byte.
#[derive(Clone, Copy, PartialEq, Eq, Debug)]
pub struct Place {
    pub line: u32,
    pub column: u32,
}

/// A token of a source with the place of its first byte. Its bytes are those from `start` to
/// before `stop`, both counted from the beginning of the source.
#[derive(Debug, Drop)]
pub struct Spanned {
    pub token: Token,
    pub place: Place,
    pub start: u32,
    pub stop: u32,
}
