use crate::bytes::Bytes;
use crate::keyword::Keyword;
use crate::sign::Sign;

/// One token of a source.
#[derive(Debug, Drop)]
pub enum Token {
    Word(Keyword),
    Name(Bytes),
    /// The digits, as written.
    Int(Bytes),
    /// The digits and the point, as written.
    Real(Bytes),
    /// The bytes that the text means: without its quotes, each escape as the byte it stands for.
    Text(Bytes),
    Sign(Sign),
}
