use chi_token::Bytes;

/// A comment of a source.
#[derive(Debug, Drop)]
pub struct Comment {
    /// The index of the next token. After the last one it is the number of tokens.
    pub before: u32,
    /// From its `#` to before the line feed.
    pub text: Bytes,
}
