use chi_base::NoMemory;
use std::alloc::{AllocError, AllocFailed};
use thiserror::Error;

/// Why an operation has no value.
#[derive(Clone, Copy, Debug, PartialEq, Eq, Error)]
pub enum OpFault {
    /// An index is outside its list or string.
    #[error("index out of range")]
    Index = 1,
    /// A key isn't there.
    #[error("key missing")]
    Key = 2,
    /// Nothing can be taken from an empty container.
    #[error("empty container")]
    Empty = 3,
    /// The result would have more elements or bytes than there may be.
    #[error("too large")]
    Limit = 4,
    /// A slice or a range has a step of 0.
    #[error("step of 0")]
    SliceStep = 5,
    #[error("out of memory")]
    NoMemory,
}

impl From<NoMemory> for OpFault {
    ghost use Rattle.std.specs.Prelude.{◌≡◌};
    ghost use Rattle.chi_ops.specs.declared.fault.OpFault.TheVariants.{NoMemory};

    ghost from_gives = { λ _ fault. fault ≡ NoMemory };

    fn from(_refused: NoMemory) -> OpFault {
        OpFault::NoMemory
    }
}

impl From<AllocError> for OpFault {
    ghost use Rattle.std.specs.Prelude.{◌≡◌};
    ghost use Rattle.chi_ops.specs.declared.fault.OpFault.TheVariants.{NoMemory};

    ghost from_gives = { λ _ fault. fault ≡ NoMemory };

    fn from(_refused: AllocError) -> OpFault {
        OpFault::NoMemory
    }
}

impl<T: Drop> From<AllocFailed<T>> for OpFault {
    ghost use Rattle.std.specs.Prelude.{◌≡◌};
    ghost use Rattle.chi_ops.specs.declared.fault.OpFault.TheVariants.{NoMemory};

    ghost from_gives = { λ _ fault. fault ≡ NoMemory };

    fn from(_refused: AllocFailed<T>) -> OpFault {
        OpFault::NoMemory
    }
}
