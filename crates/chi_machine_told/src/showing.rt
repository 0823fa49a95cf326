//! Which events a filter shows, told without making any.

ghost use Rattle.std.specs.Prelude.{◌≡◌, option_and_then, slice_get};
ghost use Rattle.chi_machine.specs.Views.{whole_of};
ghost use Rattle.chi_machine_events.specs.Events.{act_held, channel_at};
ghost use Rattle.chi_trace.specs.Filters.{admits};
ghost use Rattle.chi_trace_events.specs.Channels.{channel_sent};

use crate::sending::channel_in;
use chi_core::Label;
use chi_machine::World;
use chi_trace::{Filter, admits};

// The channel on which the alternative of this number of instance `pid` sends, if it does.
fn channel_of(world: &World, pid: u32, number: u32) -> Option<u32>
    ensures { result ≡ option_and_then channel_sent (act_held (slice_get (whole_of world.now).instances pid) number) }
{
    if !world.crowd.agenda.is_waiting(pid) {
        return None;
    }
    match world.crowd.instances.get(pid as usize) {
        Some(instance) => match &instance.room {
            Some(room) => channel_in(&room.opened, number),
            None => None,
        },
        None => None,
    }
}

// The channel on which a label sends, if it does.
fn channel_at(world: &World, label: &Label) -> Option<u32>
    ensures { result ≡ channel_at (whole_of world.now) label.now }
{
    match label {
        Label::Pair(pid, number, _, _) => channel_of(world, *pid, *number),
        Label::Local(_) | Label::Wake(_, _) | Label::Join(_) | Label::Advance => None,
    }
}

/// Whether the filter shows the event of a label, if that has one.
pub fn is_shown(world: &World, label: &Label, filter: &Filter) -> bool
    ensures { result ≡ admits filter.now label.now (channel_at (whole_of world.now) label.now) }
{
    admits(filter, *label, channel_at(world, label))
}
