ghost use Rattle.chi_picks.specs.declared.fault.PicksFault.TheVariants as fault;
ghost use Rattle.std.specs.Prelude.{◌≡◌};

use chi_base::NoMemory;
use std::alloc::AllocFailed;
use thiserror::Error;

/// Why a text isn't read as picks.
#[derive(Clone, Copy, Debug, PartialEq, Eq, Error)]
pub enum PicksFault {
    /// This line, counted from 1, is the first that isn't a number of 64 bits with a line feed.
    #[error("picks line {0}")]
    Line(u64),
    #[error("out of memory")]
    NoMemory,
}

impl From<NoMemory> for PicksFault {
    ghost from_gives = { λ _ e. e ≡ fault.NoMemory };

    fn from(_refused: NoMemory) -> PicksFault {
        PicksFault::NoMemory
    }
}

impl<T: Drop> From<AllocFailed<T>> for PicksFault {
    ghost from_gives = { λ _ e. e ≡ fault.NoMemory };

    fn from(_refused: AllocFailed<T>) -> PicksFault {
        PicksFault::NoMemory
    }
}
