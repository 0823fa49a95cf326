//! Which events a filter shows, told without making any.

ghost use Rattle.std.specs.Prelude.{◌≡◌, ℕ, Some};
ghost use Rattle.chi_core.specs.declared.program.Core.{Core as ACore};
ghost use Rattle.chi_trace.specs.declared.event.Event.{Event as AnEvent};
ghost use Rattle.chi_trace.specs.Filters.{shows};
ghost use Rattle.chi_trace_events.specs.Channels.{channel_of, channel_sent};
ghost use Rattle.chi_trace_events.specs.Traces.{event_at};

use chi_core::{Act, Label};
use chi_plain_steps::Configuration;
use chi_trace::{Filter, admits};

/// The channel on which an act sends, if it does.
fn channel_sent(act: &Act) -> Option<u32>
    ensures { result ≡ channel_sent act.now }
{
    match act {
        Act::Send(channel, _) => Some(*channel),
        Act::Receive(_, _) | Act::Delay(_) => None,
    }
}

/// The channel on which a label sends, if it does.
fn channel_of(configuration: &Configuration<'_>, label: &Label) -> Option<u32>
    ensures { result ≡ channel_of configuration.now label.now }
{
    match label {
        Label::Pair(pid, number, _, _) => {
            let instance = configuration.instances().get(*pid as usize)?;
            let offer = instance.offers().get(*number as usize)?;
            channel_sent(offer.act())
        }
        Label::Local(_) | Label::Wake(_, _) | Label::Join(_) | Label::Advance => None,
    }
}

/// Whether the filter shows the event of a label, if that has one.
pub fn is_shown(configuration: &Configuration<'_>, label: &Label, filter: &Filter) -> bool
    ensures { (core : ACore) (turn : ℕ) (e : AnEvent) → event_at core turn configuration.now label.now ≡ Some e → result ≡ shows filter.now e }
{
    admits(filter, *label, channel_of(configuration, label))
}
