ghost use Rattle.chi_cli.specs.declared.args.ArgFault.TheVariants as fault;
ghost use Rattle.std.specs.Prelude.{◌≡◌};

use chi_base::NoMemory;
use std::alloc::AllocFailed;
use thiserror::Error;

/// Why texts are no arguments of a model, or want of memory.
#[derive(Clone, Copy, Debug, PartialEq, Eq, Error)]
pub enum ArgFault {
    /// There are more or fewer of them than the model has parameters.
    #[error("another number of arguments is wanted")]
    Count,
    /// No text can be for the parameter of this number, from 1.
    #[error("parameter {0} can't be given by a text")]
    Kind(u32),
    /// The argument of this number, from 1, isn't a text of its type.
    #[error("argument {0} isn't a text of its type")]
    Text(u32),
    #[error("out of memory")]
    NoMemory,
}

impl ArgFault {
    ghost use Rattle.chi_cli.specs.FaultNumbers.{number_of};

    /// The number of the fault, which stands for it where it isn't told which argument is meant.
    pub fn number(self) -> Option<u8>
        ensures number { result ≡ number_of self }
    {
        match self {
            ArgFault::Count => Some(4),
            ArgFault::Kind(_) => Some(5),
            ArgFault::Text(_) => Some(6),
            ArgFault::NoMemory => None,
        }
    }
}

impl From<NoMemory> for ArgFault {
    ghost from_gives = { λ _ e. e ≡ fault.NoMemory };

    fn from(_refused: NoMemory) -> ArgFault {
        ArgFault::NoMemory
    }
}

impl<T: Drop> From<AllocFailed<T>> for ArgFault {
    ghost from_gives = { λ _ e. e ≡ fault.NoMemory };

    fn from(_refused: AllocFailed<T>) -> ArgFault {
        ArgFault::NoMemory
    }
}
