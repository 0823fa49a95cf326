//! What holds of all events and traces. The functions compute nothing: their contracts are the laws.

ghost use Rattle.chi_trace_events.specs.Laws.{EachHasAnEvent, EachHasATrace, EachIsThere, OneTrace};
ghost use Rattle.chi_trace_events.specs.Tracing.{TraceBegins, TraceGoesOn, TraceIsOver, TraceIsWhole, TraceOfNone};

use chi_core::values_are_of_kinds;
use chi_core_kinds::kinded_law;

/// Each enabled label of a kinded configuration has an event: what that tells is there.
pub fn events_law()
    ensures there { EachIsThere }
    ensures event { EachHasAnEvent }
{
    kinded_law();
    values_are_of_kinds();
}

/// Of each derivation of a sound program a probe shows exactly one text.
pub fn trace_law()
    ensures some { EachHasATrace }
    ensures one { OneTrace }
{
    kinded_law();
    events_law();
}

/// What a probe shows of a run that is under way: each turn adds the line of its label's event, where that is shown, and
/// at the end it is whole.
pub fn tracing_law()
    ensures begins { TraceBegins }
    ensures on { TraceGoesOn }
    ensures over { TraceIsOver }
    ensures whole { TraceIsWhole }
    ensures of_none { TraceOfNone }
{}
