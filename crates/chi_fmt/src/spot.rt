use chi_token::Token;

/// What a token is in its construct, as far as that tells how it stands to the tokens beside it.
#[derive(Clone, Copy, Debug, PartialEq, Eq)]
pub enum Role {
    /// None of the others.
    Usual,
    /// A `-` or `+` before its operand.
    Prefix,
    /// The `!` or `?` of a communication.
    Communicates,
    /// The `<` before the type of an empty container.
    Opens,
    /// The `>` after the type of an empty container.
    Closes,
}

/// A token of a line.
#[derive(Drop)]
pub struct Spot {
    pub token: Token,
    pub role: Role,
}
