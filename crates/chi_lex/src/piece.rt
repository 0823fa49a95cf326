use chi_token::Token;

/// What stands at the front of the rest of a source, with the number of bytes that it takes.
#[derive(Drop)]
pub enum Piece {
    Gap(usize),
    Found(Token, usize),
    Stopped(Stop),
}

/// Why no token stands at the front of the rest of a source. The numbers count bytes from there on.
#[derive(Clone, Copy)]
pub enum Stop {
    /// A byte that can't stand where it does.
    Byte(usize),
    /// A text that isn't closed on its line.
    Open,
    /// A backslash without one of its letters.
    Escape(usize),
}
