ghost use Rattle.std.specs.Prelude.{◌≡◌, IfOk, MatchResult};
ghost use Rattle.chi_trace.specs.declared.event.Event.{Event};
ghost use Rattle.chi_trace.specs.Lines.{IsLine, IsLine1};
ghost use Rattle.chi_trace.specs.Told.{event_told_1};

use crate::detail::{detail, untold};
use crate::parts::head_of;
use crate::{Event, TraceFault};
use std::alloc::Global;

/// Reads the line of an event, without its line feed. The clock is 0 unless the event is an advance.
#[tactic(auto, using(crate::proofs::Reading::no_head))]
pub fn read_line(alloc: Global, line: &[u8]) -> Result<Event, TraceFault>
    ensures event { IfOk result (IsLine line.now) }
    ensures form { result ≡ Err TraceFault.Form → (e : Event) → ¬ (IsLine line.now e) }
{
    let Some(head) = head_of(line) else {
        return Err(TraceFault::Form);
    };
    match detail(alloc, head.label, head.rest) {
        Ok(detail) => Ok(Event {
            turn: head.turn,
            label: head.label,
            clock: head.clock,
            detail,
        }),
        Err(fault) => Err(fault),
    }
}

/// Reads the line of an event in version 1, without its line feed. It tells no detail, and the clock
/// is 0 unless the event is an advance.
#[tactic(auto, using(crate::proofs::Reading::is_line_1, crate::proofs::Reading::no_line_1))]
pub fn read_line_1(line: &[u8]) -> Result<Event, TraceFault>
    ensures event { MatchResult result (IsLine1 line.now)
        (λ fault. (fault ≡ TraceFault.Form) × ((e : Event) → ¬ (IsLine1 line.now e))) }
{
    match event_1(line) {
        Some(event) => Ok(event),
        None => Err(TraceFault::Form),
    }
}

#[tactic(auto, unfolding(crate::specs::Told::event_told_1))]
fn event_1(line: &[u8]) -> Option<Event>
    ensures told { result ≡ event_told_1 line.now }
{
    let head = head_of(line)?;
    if !head.rest.is_empty() {
        return None;
    }
    Some(Event {
        turn: head.turn,
        label: head.label,
        clock: head.clock,
        detail: untold(head.label),
    })
}
