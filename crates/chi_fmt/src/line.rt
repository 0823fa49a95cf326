use crate::spot::Spot;
use chi_base::Items;

/// A line of the layout. A `;` at its end is that of the statement or definition of which it is the last line.
#[derive(Drop)]
pub struct Line {
    /// Whether an empty line stands before it.
    pub after_empty: bool,
    /// The number of spaces before its first token.
    pub margin: u32,
    /// Those of the source: all but the `;` at its end.
    pub spots: Items<Spot>,
    pub semicolon: Semicolon,
}

/// The `;` at the end of a line.
#[derive(Clone, Copy)]
pub struct Semicolon {
    /// Whether the source has one there.
    pub written: bool,
    /// Whether the layout has one there.
    pub kept: bool,
}
