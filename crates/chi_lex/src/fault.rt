ghost use Rattle.chi_lex.specs.declared.fault.LexFault.TheVariants as fault;
ghost use Rattle.std.specs.Prelude.{◌≡◌};

use chi_base::NoMemory;
use chi_token::Place;
use std::alloc::AllocFailed;
use thiserror::Error;

/// The first place of a source where no token can be read, or want of memory.
#[derive(Clone, Copy, Debug, PartialEq, Eq, Error)]
pub enum LexFault {
    /// No token and no text has this byte where it stands.
    #[error("bad byte")]
    BadByte(Place),
    /// The text that begins here ends neither on its line nor in the source.
    #[error("open string")]
    OpenString(Place),
    /// The backslash here is followed by none of `n`, `t`, `"` and `\`.
    #[error("bad escape")]
    BadEscape(Place),
    #[error("out of memory")]
    NoMemory,
}

impl LexFault {
    ghost use Rattle.chi_lex.specs.FaultNumbers.{number_of};

    /// The number of the fault, which stands for it where its place isn't told.
    pub fn number(self) -> Option<u8>
        ensures number { result ≡ number_of self }
    {
        match self {
            LexFault::BadByte(_) => Some(1),
            LexFault::OpenString(_) => Some(2),
            LexFault::BadEscape(_) => Some(3),
            LexFault::NoMemory => None,
        }
    }
}

impl From<NoMemory> for LexFault {
    ghost from_gives = { λ _ e. e ≡ fault.NoMemory };

    fn from(_refused: NoMemory) -> LexFault {
        LexFault::NoMemory
    }
}

impl<T: Drop> From<AllocFailed<T>> for LexFault {
    ghost from_gives = { λ _ e. e ≡ fault.NoMemory };

    fn from(_refused: AllocFailed<T>) -> LexFault {
        LexFault::NoMemory
    }
}
