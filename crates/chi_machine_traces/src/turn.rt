//! A turn of a run, told.

ghost use Rattle.std.specs.Prelude.{◌≡◌, ◌<◌, ◌++◌, ℕ, List, None, IfOk, Some, option_map};
ghost use Rattle.chi_sched.specs.Policies.{Answers};
ghost use Rattle.chi_core.specs.declared.program.Core.{Core};
ghost use Rattle.chi_core.specs.Beginning.{Beginning};
ghost use Rattle.chi_core.specs.Config.{Config};
ghost use Rattle.chi_core.specs.Picks.{Pick};
ghost use Rattle.chi_machine_told.specs.Below.chi_machine.specs.Courses.{IsCourse, IsPicked, TakesTo};
ghost use Rattle.chi_machine_told.specs.Below.chi_machine.specs.Views.{whole_of};
ghost use Rattle.chi_machine_told.specs.Telling.{MayTell};
ghost use Rattle.chi_machine_traces.specs.Turns.{ComesTo, IsUnderWay, LogsBy};
ghost use Rattle.chi_trace.specs.declared.event.Event.{Event as AnEvent};
ghost use Rattle.chi_trace.specs.Events.{Fits};
ghost use Rattle.chi_trace.specs.Filters.{where_shown};
ghost use Rattle.chi_trace_events.specs.Traces.{event_at};

use crate::lines::log_taken;
use crate::run::Telling;
use chi_base::NoMemory;
use chi_code::Code;
use chi_core::Label;
use chi_core_runs::{choice_law, time_law, turn_law};
use chi_machine_agenda::Ending;
use chi_machine_laws::{options_law, safe_law, step_law};
use chi_machine_told::{Course, event_of};
use chi_sched::{Chooser, chooser_law};
use chi_trace::Sieve;
use chi_trace_events::tracing_law;
use std::alloc::Global;

// Takes a label, and logs its line where that is shown, unless it costs too much. Its event is made before it is taken.
fn take_shown<S: Sieve>(
    alloc: Global,
    code: &Code,
    course: &mut Course,
    label: &Label,
    sieve: &S,
    told: &mut Telling,
) -> Result<Option<Ending>, NoMemory>
    requires course { IsCourse code.now course.old }
    requires picked { IsPicked course.old label.now }
    ensures taken { IfOk result (λ end. (text : List ℕ) × (told.new.out.items ≡ told.old.out.items ++ text) × TakesTo code.now course.old label.now end course.new text) }
    ensures logs { IfOk result (λ end. (core : Core) (config : Config) → MayTell code.now (whole_of course.old.world) label.now core config
        → LogsBy (Some (S.keeps_to sieve.now)) core course.old.turn config label.now end told.old.log.items told.new.log.items) }
{
    choice_law();
    options_law();
    let made = event_of(
        alloc,
        code,
        &course.world,
        course.turn,
        label,
        &sieve.filter(),
    )?;
    match course.take(code, label, &mut told.out) {
        Ok(end) => log_taken(alloc, sieve, made, end, &mut told.log),
        Err(error) => {
            drop(made);
            Err(error)
        }
    }
}

// Takes a label, and logs its line where the trace is wanted and shows it.
#[inline(always)]
fn take_told<S: Sieve>(
    alloc: Global,
    code: &Code,
    course: &mut Course,
    label: &Label,
    trace: &Option<S>,
    told: &mut Telling,
) -> Result<Option<Ending>, NoMemory>
    requires course { IsCourse code.now course.old }
    requires picked { IsPicked course.old label.now }
    ensures taken { IfOk result (λ end. (text : List ℕ) × (told.new.out.items ≡ told.old.out.items ++ text) × TakesTo code.now course.old label.now end course.new text) }
    ensures logs { IfOk result (λ end. (core : Core) (config : Config) → MayTell code.now (whole_of course.old.world) label.now core config
        → LogsBy (option_map S.keeps_to trace.now) core course.old.turn config label.now end told.old.log.items told.new.log.items) }
{
    match trace {
        Some(sieve) => take_shown(alloc, code, course, label, sieve, told),
        None => course.take(code, label, &mut told.out),
    }
}

/// A turn of a run: the label that the policy picks is taken, and told; or the run has ended. Whatever program's run it is
/// that is under way, and whatever of its output was passed on before, the turn leads it on, with less left of the bound,
/// or to its end.
#[inline(always)]
pub fn turn_told<C: Chooser, S: Sieve>(
    alloc: Global,
    code: &Code,
    course: &mut Course,
    chooser: &C,
    trace: &Option<S>,
    told: &mut Telling,
) -> Result<Option<Ending>, NoMemory>
    requires { IsCourse code.now course.old }
    ensures on { IfOk result (λ end. end ≡ None → IsCourse code.now course.new × (course.new.left < course.old.left)) }
    ensures told { IfOk result (λ end. (core : Core) (beginning : Beginning) (pick : Pick) (bound : ℕ) (passed : List ℕ) → Answers (C.gives chooser.now) pick
        → IsUnderWay (option_map S.keeps_to trace.now) core code.now beginning pick bound passed course.old told.old
        → ComesTo (option_map S.keeps_to trace.now) core code.now beginning pick bound passed end course.new told.new) }
{
    safe_law();
    step_law();
    options_law();
    choice_law();
    time_law();
    turn_law();
    tracing_law();
    chooser_law(chooser);
    match course.pick(chooser) {
        Some(label) => take_told(alloc, code, course, &label, trace, told),
        None => Ok(course.ending()),
    }
}
