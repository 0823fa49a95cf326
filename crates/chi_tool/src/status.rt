ghost use Rattle.std.specs.Prelude.{◌≡◌};
ghost use Rattle.chi_tool.specs.Serving.{status_without};
ghost use Rattle.chi_tool.specs.Statuses.{status_of, status_of_trial};

use chi_core::Verdict;
use chi_engine::PassFault;
use chi_xper_machines::Ended;

/// The run, or the experiment, completed.
const COMPLETED: u8 = 0;

/// A program that was to be checked is accepted.
pub const ACCEPTED: u8 = 0;

/// The code of a program is listed.
pub const LISTED: u8 = 0;

/// The picks of a run don't fit.
pub const MISPICKED: u8 = 26;

/// A log is one that a program can give.
pub const JUDGED: u8 = 0;

/// The picks of such a log are told.
pub const PICKS_TOLD: u8 = 0;

/// A text is no log that a program can give.
pub const NO_LOG: u8 = 25;

/// A source is laid out.
pub const LAID_OUT: u8 = 0;

/// The layout of a source has more bytes than a source may have.
pub const LAYOUT_TOO_LONG: u8 = 27;

/// The words are no request.
pub const NO_REQUEST: u8 = 3;

/// The file can't be read.
pub const NOT_READ: u8 = 4;

/// The output or the log can't be written.
pub const NOT_WRITTEN: u8 = 5;

/// Memory is wanting.
pub const NO_MEMORY: u8 = 6;

/// The run ended by an exit.
const EXITED: u8 = 10;

/// Nothing can happen any more in the run, and an instance hasn't finished.
const DEADLOCKED: u8 = 11;

/// The run ended by a fault.
const FAULTED: u8 = 12;

/// The run's next step costs more than is left of the bound.
const OUT_OF_STEPS: u8 = 13;

/// Nothing can happen in the run before the stopping time has passed.
const STOPPED: u8 = 14;

/// A run of the experiment has no value for it.
const WITHOUT_VALUE: u8 = 15;

/// The program has no experiment.
const NO_EXPERIMENT: u8 = 28;

/// The source has a lexical fault.
pub const LEXICAL: u8 = 20;

/// The source's tokens are no program.
pub const SYNTAX: u8 = 21;

/// The source is a program that breaks a rule.
pub const TYPING: u8 = 22;

/// The arguments don't fit the model's parameters.
pub const ARGUMENTS: u8 = 23;

/// A log is brought up.
pub const BROUGHT_UP: u8 = 0;

/// Help is told.
pub const HELPED: u8 = 0;

/// A line of a log that is to be brought up doesn't fit.
pub const MISFIT: u8 = 24;

/// The status of a run.
pub fn status_of(verdict: &Verdict) -> u8
    ensures { result ≡ status_of verdict.now }
{
    match verdict {
        Verdict::Completed => COMPLETED,
        Verdict::Exit(_) => EXITED,
        Verdict::Deadlock => DEADLOCKED,
        Verdict::Fault(_, _, _) => FAULTED,
        Verdict::OutOfSteps => OUT_OF_STEPS,
        Verdict::Stopped => STOPPED,
    }
}

/// The status of an experiment.
pub fn status_of_trial(ended: Ended) -> u8
    ensures { result ≡ status_of_trial ended }
{
    match ended {
        Ended::Missing => NO_EXPERIMENT,
        Ended::Completed => COMPLETED,
        Ended::WithoutValue => WITHOUT_VALUE,
        Ended::Deadlocked => DEADLOCKED,
        Ended::Faulted => FAULTED,
        Ended::OutOfSteps => OUT_OF_STEPS,
    }
}

/// The status where no report is made.
pub fn status_without(fault: PassFault) -> u8
    ensures { result ≡ status_without fault }
{
    match fault {
        PassFault::Stopped => NOT_WRITTEN,
        PassFault::NoMemory => NO_MEMORY,
    }
}
