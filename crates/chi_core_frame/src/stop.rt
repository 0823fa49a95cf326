use chi_base::NoMemory;
use chi_core::FaultKind;
use chi_core_apply::Failure;
use chi_ops::OpFault;
use std::alloc::{AllocError, AllocFailed};

/// Why something has no value, or isn't done.
#[derive(Clone, Copy, Debug, PartialEq, Eq)]
pub enum Stop {
    /// It ends the run.
    Fault(FaultKind),
    /// It costs more than is left of the bound.
    Spent,
    NoMemory,
}

impl From<NoMemory> for Stop {
    ghost use Rattle.std.specs.Prelude.{◌≡◌};
    ghost use Rattle.chi_core_frame.specs.declared.stop.Stop.TheVariants.{NoMemory};

    ghost from_gives = { λ _ stop. stop ≡ NoMemory };

    fn from(_refused: NoMemory) -> Stop {
        Stop::NoMemory
    }
}

impl From<AllocError> for Stop {
    ghost use Rattle.std.specs.Prelude.{◌≡◌};
    ghost use Rattle.chi_core_frame.specs.declared.stop.Stop.TheVariants.{NoMemory};

    ghost from_gives = { λ _ stop. stop ≡ NoMemory };

    fn from(_refused: AllocError) -> Stop {
        Stop::NoMemory
    }
}

impl<T: Drop> From<AllocFailed<T>> for Stop {
    ghost use Rattle.std.specs.Prelude.{◌≡◌};
    ghost use Rattle.chi_core_frame.specs.declared.stop.Stop.TheVariants.{NoMemory};

    ghost from_gives = { λ _ stop. stop ≡ NoMemory };

    fn from(_refused: AllocFailed<T>) -> Stop {
        Stop::NoMemory
    }
}

impl From<Failure> for Stop {
    ghost use Rattle.std.specs.Prelude.{◌≡◌};
    ghost use Rattle.chi_core_frame.specs.Stops.{stop_of_failure};

    ghost from_gives = { λ failure stop. stop ≡ stop_of_failure failure };

    fn from(failure: Failure) -> Stop {
        match failure {
            Failure::Fault(kind) => Stop::Fault(kind),
            Failure::NoMemory => Stop::NoMemory,
        }
    }
}

impl From<OpFault> for Stop {
    ghost use Rattle.std.specs.Prelude.{◌≡◌};
    ghost use Rattle.chi_core_frame.specs.Stops.{stop_of_operation};

    ghost from_gives = { λ fault stop. stop ≡ stop_of_operation fault };

    fn from(fault: OpFault) -> Stop {
        Stop::from(Failure::from(fault))
    }
}
