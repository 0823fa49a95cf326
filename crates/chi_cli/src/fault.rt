ghost use Rattle.chi_cli.specs.declared.fault.CliFault.TheVariants as fault;
ghost use Rattle.std.specs.Prelude.{◌≡◌};

use chi_base::NoMemory;
use std::alloc::{AllocError, AllocFailed};
use thiserror::Error;

/// Why words are no request, or want of memory.
#[derive(Clone, Copy, Debug, PartialEq, Eq, Error)]
pub enum CliFault {
    /// The words after the command don't match it, or the policy has another name.
    #[error("the words don't match the command")]
    Usage = 1,
    /// There is no first word, or it names no command.
    #[error("no such command")]
    Command = 2,
    /// A number isn't in its form or range.
    #[error("bad number")]
    BadNumber = 3,
    #[error("out of memory")]
    NoMemory,
}

impl From<NoMemory> for CliFault {
    ghost from_gives = { λ _ e. e ≡ fault.NoMemory };

    fn from(_refused: NoMemory) -> CliFault {
        CliFault::NoMemory
    }
}

impl From<AllocError> for CliFault {
    ghost from_gives = { λ _ e. e ≡ fault.NoMemory };

    fn from(_refused: AllocError) -> CliFault {
        CliFault::NoMemory
    }
}

impl<T: Drop> From<AllocFailed<T>> for CliFault {
    ghost from_gives = { λ _ e. e ≡ fault.NoMemory };

    fn from(_refused: AllocFailed<T>) -> CliFault {
        CliFault::NoMemory
    }
}
