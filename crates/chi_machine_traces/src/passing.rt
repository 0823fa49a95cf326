//! A run's output is passed on as it goes.

ghost use Rattle.std.specs.Prelude.{◌≡◌, ◌≤◌, false};
ghost use Rattle.chi_io.specs.Counts.{Rose};
ghost use Rattle.chi_io.specs.Sink.{Grew};
ghost use Rattle.chi_machine_traces.specs.declared.passing.PassFault.TheVariants as fault;
ghost use Rattle.chi_machine_traces.specs.Passing.{PassesKept};

use chi_base::NoMemory;
use chi_io::{Sink, put_all};

/// Why a run isn't told to its end.
#[derive(Clone, Copy, Debug, PartialEq, Eq)]
pub enum PassFault {
    /// The sink to which its output is passed on has failed.
    Stopped,
    NoMemory,
}

impl From<NoMemory> for PassFault {
    ghost from_gives = { λ _ e. e ≡ fault.NoMemory };

    fn from(_refused: NoMemory) -> PassFault {
        PassFault::NoMemory
    }
}

/// Output is passed on once so many bytes of it are kept after a turn.
pub const PASSED_FROM: usize = 65_536;

/// Passes on what is kept of a run's output after a turn, where that is enough.
pub(crate) fn pass_enough<O: Sink>(out: &mut O, kept: &mut Vec<u8>) -> Result<(), PassFault>
    requires { O.stopped out.old ≡ false }
    ensures passes { PassesKept kept.old.items kept.new.items (Grew (O.taken out.old) (O.taken out.new))
        (Rose (O.faults out.old) (O.faults out.new)) (O.stopped out.new) result }
    ensures count { O.faults out.old ≤ O.faults out.new }
{
    if kept.len() < PASSED_FROM {
        return Ok(());
    }
    if put_all(out, kept).is_err() {
        return Err(PassFault::Stopped);
    }
    kept.clear();
    Ok(())
}
