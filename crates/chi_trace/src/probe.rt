//! Tests of events that keep to a filter.

ghost use Rattle.std.specs.Prelude.{◌≡◌, ◌<◌, ◌^◌};
ghost use Rattle.std.specs.Borrow.{Bor};
ghost use Rattle.chi_trace.specs.declared.event.Event.{Event};
ghost use Rattle.chi_trace.specs.declared.filter.Filter.{Filter};
ghost use Rattle.chi_trace.specs.Events.{IsNumbered};
ghost use Rattle.chi_trace.specs.Filters.{shows};
ghost use Rattle.chi_trace.specs.Probes.{Faithful, IsDetailNumbered, IsInRange};

use crate::filter::matches;
use crate::{Detail, Event, Filter};
use chi_core::Label;

/// What tells which events of a run are shown.
pub trait Sieve {
    /// The filter that it keeps to.
    ghost keeps_to: { Self → Filter };

    /// The filter that it keeps to, by which what isn't shown is told before any event is made of it.
    fn filter(&self) -> Filter
        ensures kept { result ≡ keeps_to self.now };

    /// Whether the event is shown. It takes no memory.
    fn shown(&self, event: &Event) -> bool
        ensures tells { result ≡ shows (keeps_to self.now) event.now };
}

impl Sieve for Filter {
    ghost keeps_to = { λ filter. filter };

    fn filter(&self) -> Filter {
        *self
    }

    fn shown(&self, event: &Event) -> bool {
        matches(self, event)
    }
}

/// What a probe asks of an event.
pub type Test = Box<dyn Fn(&Event) -> bool>;

/// A stored closure beside the filter that it keeps to. It keeps the fact that the closure may be asked of each event,
/// and has one answer to it: whether the filter shows the event.
#[derive(Drop)]
pub struct Probe {
    filter: Filter,
    test: Test,
    ghost callable: { (event : Bor Event) → IsInRange event.now → Test.pre test event },
    ghost faithful: { ∥ Faithful (Test.pre test) (Test.post test) filter ∥₁ },
}

impl Probe {
    /// The probe that asks this closure, which the caller has boxed.
    pub fn new(filter: Filter, test: Test) -> Probe
        requires faithful { Faithful (Test.pre test) (Test.post test) filter }
        ensures filter { result.filter ≡ filter }
        ensures test { result.test ≡ test }
    {
        Probe { filter, test }
    }

    fn ask(&self, event: &Event) -> bool
        ensures in_range { IsInRange event.now }
        ensures asked { Test.post self.now.test event.entry result }
    {
        numbers_are_in_range(event);
        (self.test)(event)
    }
}

impl Sieve for Probe {
    ghost keeps_to = { λ probe. probe.filter };

    fn filter(&self) -> Filter {
        self.filter
    }

    fn shown(&self, event: &Event) -> bool {
        self.ask(event)
    }
}

/// The numbers of an event are in the ranges of their types. It computes nothing, as those below.
fn numbers_are_in_range(event: &Event)
    ensures in_range { IsInRange event.now }
{
    let _turn = event.turn;
    let _clock = event.clock;
    label_is_in_range(event.label);
    detail_is_in_range(&event.detail);
}

fn label_is_in_range(label: Label)
    ensures { IsNumbered label }
{
    match label {
        Label::Local(p) => is_in_range(p),
        Label::Pair(p, a, q, b) => {
            is_in_range(p);
            is_in_range(a);
            is_in_range(q);
            is_in_range(b);
        }
        Label::Wake(p, a) => {
            is_in_range(p);
            is_in_range(a);
        }
        Label::Join(p) => is_in_range(p),
        Label::Advance => (),
    }
}

fn detail_is_in_range(detail: &Detail)
    ensures { IsDetailNumbered detail.now }
{
    match detail {
        Detail::At(_, line) => is_in_range(*line),
        Detail::Sent(channel, _) => is_in_range(*channel),
        Detail::Unknown | Detail::Bare | Detail::Of(_) => (),
    }
}

fn is_in_range(number: u32)
    ensures { number < 2 ^ 32 }
{
    let _ = number;
}
