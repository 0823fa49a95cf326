//! Which events of a trace are shown.

ghost use Rattle.std.specs.Prelude.{◌≡◌};
ghost use Rattle.chi_trace.specs.Filters.{admits, channel_in, is_of_kind, is_sent_on, shows, takes_part};

use crate::{Detail, Event};
use chi_core::Label;

/// The kind of an event, by its label.
#[derive(Clone, Copy, Debug, PartialEq, Eq)]
pub enum EventKind {
    Local,
    Pair,
    Wake,
    Join,
    Advance,
}

/// What is looked for in a trace.
#[derive(Clone, Copy, Debug, PartialEq, Eq)]
pub enum Filter {
    /// Every event.
    All,
    /// What the instance of this number takes part in, on either side of a pair.
    Instance(u32),
    /// What is sent on the channel of this number, where the trace tells the channel.
    Channel(u32),
    /// The events of one kind.
    Kind(EventKind),
}

/// Whether the filter shows the event.
pub fn matches(filter: &Filter, event: &Event) -> bool
    ensures tells { result ≡ shows filter.now event.now }
{
    admits(filter, event.label, channel_in(&event.detail))
}

/// Whether the filter shows the events of this label, where something is sent on this channel, if at all. So what isn't
/// shown needs no event.
pub fn admits(filter: &Filter, label: Label, channel: Option<u32>) -> bool
    ensures tells { result ≡ admits filter.now label channel }
{
    match filter {
        Filter::All => true,
        Filter::Instance(number) => takes_part(*number, label),
        Filter::Channel(number) => is_sent_on(*number, label, channel),
        Filter::Kind(kind) => is_of_kind(*kind, label),
    }
}

fn channel_in(detail: &Detail) -> Option<u32>
    ensures tells { result ≡ channel_in detail.now }
{
    match detail {
        Detail::Sent(channel, _) => Some(*channel),
        Detail::Unknown | Detail::Bare | Detail::At(_, _) | Detail::Of(_) => None,
    }
}

fn takes_part(number: u32, label: Label) -> bool
    ensures tells { result ≡ takes_part number label }
{
    match label {
        Label::Local(p) | Label::Wake(p, _) | Label::Join(p) => p == number,
        Label::Pair(p, _, q, _) => p == number || q == number,
        Label::Advance => false,
    }
}

fn is_sent_on(number: u32, label: Label, channel: Option<u32>) -> bool
    ensures tells { result ≡ is_sent_on number label channel }
{
    match (label, channel) {
        (Label::Pair(_, _, _, _), Some(channel)) => channel == number,
        _ => false,
    }
}

fn is_of_kind(kind: EventKind, label: Label) -> bool
    ensures tells { result ≡ is_of_kind kind label }
{
    match label {
        Label::Local(_) => kind == EventKind::Local,
        Label::Pair(_, _, _, _) => kind == EventKind::Pair,
        Label::Wake(_, _) => kind == EventKind::Wake,
        Label::Join(_) => kind == EventKind::Join,
        Label::Advance => kind == EventKind::Advance,
    }
}
