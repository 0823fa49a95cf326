//! What is logged of a label.

ghost use Rattle.std.specs.Prelude.{◌≡◌, ◌++◌, IfOk, IfSome, OnOk, option_map};
ghost use Rattle.chi_machine_traces.specs.Turns.{first_log, logged_by, was_taken};
ghost use Rattle.chi_trace.specs.declared.event.Event.{Event as AnEvent};
ghost use Rattle.chi_trace.specs.Events.{Fits};
ghost use Rattle.chi_trace.specs.Filters.{where_shown};
ghost use Rattle.chi_trace_events.specs.Tracing.{shown_line};

use chi_base::NoMemory;
use chi_core::Verdict;
use chi_machine_agenda::Ending;
use chi_trace::{Event, FIRST_LINE, Sieve, first_lines_law, line_of};
use std::alloc::Global;

/// The log before anything happens: the first line of the trace, where that is wanted.
pub(crate) fn first_log<S: Sieve>(alloc: Global, trace: &Option<S>) -> Result<Vec<u8>, NoMemory>
    ensures { IfOk result (λ log. log.items ≡ first_log (option_map S.keeps_to trace.now)) }
{
    first_lines_law();
    let mut log = Vec::new(alloc);
    if trace.is_some() {
        log.extend_from_slice(FIRST_LINE.as_bytes())?;
        log.push(b'\n')?;
    }
    Ok(log)
}

// The line of an event comes to the end of the log, where that is shown.
#[tactic(auto, using(crate::proofs::Showing::more_shown, crate::proofs::Showing::none_shown))]
fn log_event<S: Sieve>(
    alloc: Global,
    sieve: &S,
    event: &Event,
    log: &mut Vec<u8>,
) -> Result<(), NoMemory>
    requires fits { Fits event.now.label event.now.detail }
    ensures { OnOk result (log.new.items ≡ log.old.items ++ shown_line (S.keeps_to sieve.now) event.now) }
{
    if sieve.shown(event) {
        line_of(alloc, event, log)?;
    }
    Ok(())
}

// The same of an event that was made where it is shown.
fn log_made<S: Sieve>(
    alloc: Global,
    sieve: &S,
    made: &Option<Event>,
    log: &mut Vec<u8>,
) -> Result<(), NoMemory>
    requires fits { IfSome made.now (λ e. Fits e.label e.detail) }
    ensures { OnOk result ((e : AnEvent) → made.now ≡ where_shown (S.keeps_to sieve.now) e → log.new.items ≡ log.old.items ++ shown_line (S.keeps_to sieve.now) e) }
{
    match made {
        Some(event) => log_event(alloc, sieve, event, log),
        None => Ok(()),
    }
}

// Whether a label was taken, where taking it came to this.
fn was_taken(end: &Option<Ending>) -> bool
    ensures { result ≡ was_taken end.now }
{
    match end {
        Some(ending) => !matches!(ending.verdict(), Verdict::OutOfSteps),
        None => true,
    }
}

// The line of a label's event, which was made where it is shown, comes to the end of the log, unless that label cost too much.
fn log_if_taken<S: Sieve>(
    alloc: Global,
    sieve: &S,
    made: &Option<Event>,
    end: &Option<Ending>,
    log: &mut Vec<u8>,
) -> Result<(), NoMemory>
    requires fits { IfSome made.now (λ e. Fits e.label e.detail) }
    ensures { OnOk result ((e : AnEvent) → made.now ≡ where_shown (S.keeps_to sieve.now) e → log.new.items ≡ log.old.items ++ logged_by end.now (shown_line (S.keeps_to sieve.now) e)) }
{
    if was_taken(end) {
        log_made(alloc, sieve, made, log)
    } else {
        Ok(())
    }
}

/// The same, where taking the label came to this, which is handed on.
pub(crate) fn log_taken<S: Sieve>(
    alloc: Global,
    sieve: &S,
    made: Option<Event>,
    end: Option<Ending>,
    log: &mut Vec<u8>,
) -> Result<Option<Ending>, NoMemory>
    requires fits { IfSome made (λ e. Fits e.label e.detail) }
    ensures same { IfOk result (λ taken. taken ≡ end) }
    ensures logged { OnOk result ((e : AnEvent) → made ≡ where_shown (S.keeps_to sieve.now) e → log.new.items ≡ log.old.items ++ logged_by end (shown_line (S.keeps_to sieve.now) e)) }
{
    let logged = log_if_taken(alloc, sieve, &made, &end, log);
    drop(made);
    match logged {
        Ok(()) => Ok(end),
        Err(error) => {
            drop(end);
            Err(error)
        }
    }
}
