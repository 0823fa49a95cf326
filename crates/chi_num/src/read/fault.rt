use thiserror::Error;

/// Why a text isn't read as a number.
#[derive(Clone, Copy, Debug, PartialEq, Eq, Error)]
pub enum ReadFault {
    /// The text hasn't the form of such a number.
    #[error("not a number")]
    Form = 1,
    /// It has the form, but 64 bits don't hold the number, as rounded.
    #[error("number out of range")]
    Range = 2,
}
