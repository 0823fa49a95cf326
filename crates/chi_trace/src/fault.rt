ghost use Rattle.chi_trace.specs.declared.fault.LogFault.TheVariants as log_fault;
ghost use Rattle.chi_trace.specs.declared.fault.TraceFault.TheVariants as fault;
ghost use Rattle.std.specs.Prelude.{◌≡◌};

use chi_base::NoMemory;
use thiserror::Error;

/// Why a text isn't read as the line of an event.
#[derive(Clone, Copy, Debug, PartialEq, Eq, Error)]
pub enum TraceFault {
    /// It is the line of no event.
    #[error("trace form")]
    Form,
    #[error("out of memory")]
    NoMemory,
}

impl From<NoMemory> for TraceFault {
    ghost from_gives = { λ _ e. e ≡ fault.NoMemory };

    fn from(_refused: NoMemory) -> TraceFault {
        TraceFault::NoMemory
    }
}

/// Why a text isn't brought up to version 2.
#[derive(Clone, Copy, Debug, PartialEq, Eq, Error)]
pub enum LogFault {
    /// This line, counted from 1, is the first that doesn't fit.
    #[error("line {0}: trace form")]
    Form(u64),
    #[error("out of memory")]
    NoMemory,
}

impl From<NoMemory> for LogFault {
    ghost from_gives = { λ _ e. e ≡ log_fault.NoMemory };

    fn from(_refused: NoMemory) -> LogFault {
        LogFault::NoMemory
    }
}
