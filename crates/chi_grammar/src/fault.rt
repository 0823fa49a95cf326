ghost use Rattle.chi_grammar.specs.declared.fault.ParseFault.TheVariants as fault;
ghost use Rattle.std.specs.Prelude.{◌≡◌};

use chi_base::NoMemory;
use std::alloc::AllocFailed;
use thiserror::Error;

/// Why tokens can't be read as a part of a grammar. An index counts tokens from 0; the number of
/// tokens stands for their end.
#[derive(Clone, Copy, Debug, PartialEq, Eq, Error)]
pub enum ParseFault {
    /// No tree's tokens go on with this token, or end here.
    #[error("syntax")]
    Syntax(u32),
    /// This token is the first that stands deeper than there is room.
    #[error("too deep")]
    TooDeep(u32),
    #[error("out of memory")]
    NoMemory,
}

impl From<NoMemory> for ParseFault {
    ghost from_gives = { λ _ e. e ≡ fault.NoMemory };

    fn from(_refused: NoMemory) -> ParseFault {
        ParseFault::NoMemory
    }
}

impl<T: Drop> From<AllocFailed<T>> for ParseFault {
    ghost from_gives = { λ _ e. e ≡ fault.NoMemory };

    fn from(_refused: AllocFailed<T>) -> ParseFault {
        ParseFault::from(NoMemory)
    }
}
