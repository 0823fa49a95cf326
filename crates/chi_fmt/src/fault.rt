ghost use Rattle.std.specs.Prelude.{◌≡◌};
ghost use Rattle.chi_fmt.specs.declared.fault.FmtFault.TheVariants as fault;

use chi_base::NoMemory;
use std::alloc::AllocFailed;
use thiserror::Error;

/// Why there is no canonical text.
#[derive(Clone, Copy, Debug, PartialEq, Eq, Error)]
pub enum FmtFault {
    /// It would have more bytes than a source may have.
    #[error("formatted text too long")]
    TooLong,
    #[error("out of memory")]
    NoMemory,
}

impl From<NoMemory> for FmtFault {
    ghost from_gives = { λ _ e. e ≡ fault.NoMemory };

    fn from(_refused: NoMemory) -> FmtFault {
        FmtFault::NoMemory
    }
}

impl<T: Drop> From<AllocFailed<T>> for FmtFault {
    ghost from_gives = { λ _ e. e ≡ fault.NoMemory };

    fn from(_refused: AllocFailed<T>) -> FmtFault {
        FmtFault::NoMemory
    }
}
