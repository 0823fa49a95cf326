use chi_base::NoMemory;
use std::alloc::AllocError;
use thiserror::Error;

/// Why a text has no pieces.
#[derive(Clone, Copy, Debug, PartialEq, Eq, Error)]
pub enum FormatFault {
    /// The offset in bytes of the first percent sign that begins no code.
    #[error("bad format code at byte {0}")]
    BadCode(u32),
    #[error("out of memory")]
    NoMemory,
}

impl From<NoMemory> for FormatFault {
    ghost use Rattle.std.specs.Prelude.{◌≡◌};
    ghost use Rattle.chi_format.specs.declared.format_fault.FormatFault.TheVariants.{NoMemory};

    ghost from_gives = { λ _ fault. fault ≡ NoMemory };

    fn from(_refused: NoMemory) -> FormatFault {
        FormatFault::NoMemory
    }
}

impl From<AllocError> for FormatFault {
    ghost use Rattle.std.specs.Prelude.{◌≡◌};
    ghost use Rattle.chi_format.specs.declared.format_fault.FormatFault.TheVariants.{NoMemory};

    ghost from_gives = { λ _ fault. fault ≡ NoMemory };

    fn from(_refused: AllocError) -> FormatFault {
        FormatFault::NoMemory
    }
}
