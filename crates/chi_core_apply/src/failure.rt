use chi_base::NoMemory;
use chi_core::FaultKind;
use chi_ops::OpFault;
use chi_value::DefaultFault;

/// Why operands have no value.
#[derive(Clone, Copy, Debug, PartialEq, Eq)]
pub enum Failure {
    /// It ends the run.
    Fault(FaultKind),
    NoMemory,
}

impl From<NoMemory> for Failure {
    ghost use Rattle.std.specs.Prelude.{◌≡◌};
    ghost use Rattle.chi_core_apply.specs.declared.failure.Failure.TheVariants.{NoMemory};

    ghost from_gives = { λ _ failure. failure ≡ NoMemory };

    fn from(_refused: NoMemory) -> Failure {
        Failure::NoMemory
    }
}

impl From<DefaultFault> for Failure {
    ghost use Rattle.std.specs.Prelude.{◌≡◌};
    ghost use Rattle.chi_core_apply.specs.Failures.{failure_of_default};

    ghost from_gives = { λ fault failure. failure ≡ failure_of_default fault };

    fn from(fault: DefaultFault) -> Failure {
        match fault {
            DefaultFault::TooManyChannels => Failure::Fault(FaultKind::TooManyChannels),
            DefaultFault::NoMemory => Failure::NoMemory,
        }
    }
}

impl From<OpFault> for Failure {
    ghost use Rattle.std.specs.Prelude.{◌≡◌};
    ghost use Rattle.chi_core_apply.specs.Failures.{failure_of_operation};

    ghost from_gives = { λ fault failure. failure ≡ failure_of_operation fault };

    fn from(fault: OpFault) -> Failure {
        match fault {
            OpFault::Index => Failure::Fault(FaultKind::IndexRange),
            OpFault::Key => Failure::Fault(FaultKind::KeyMissing),
            OpFault::Empty => Failure::Fault(FaultKind::EmptyPop),
            OpFault::Limit => Failure::Fault(FaultKind::TooLarge),
            OpFault::SliceStep => Failure::Fault(FaultKind::SliceStep),
            OpFault::NoMemory => Failure::NoMemory,
        }
    }
}
