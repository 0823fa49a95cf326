//! The event of a label.

ghost use Rattle.std.specs.Prelude.{◌≡◌, ◌≢◌, [], None, Some, IfOk, IfSome, option_and_then, slice_get};
ghost use Rattle.chi_core.specs.declared.label.Label.TheVariants as label;
ghost use Rattle.chi_core.specs.declared.program.Core.{Core};
ghost use Rattle.chi_core.specs.Config.{Config};
ghost use Rattle.chi_core.specs.Meeting.{next_due};
ghost use Rattle.chi_core.specs.Options.{actors};
ghost use Rattle.chi_machine.specs.Crowds.{IsCrowd};
ghost use Rattle.chi_machine.specs.Views.{whole_of};
ghost use Rattle.chi_machine_events.specs.Events.{act_held, detail_at, event_by, line_held};
ghost use Rattle.chi_machine_laws.specs.Choosing.{config_of};
ghost use Rattle.chi_machine_told.specs.Telling.{CanTell, MayTell};
ghost use Rattle.chi_machine_told.specs.There.{IsNamed, IsThere, Sends};
ghost use Rattle.chi_trace.specs.declared.event.Event.{Event as AnEvent};
ghost use Rattle.chi_trace.specs.Events.{Fits};
ghost use Rattle.chi_trace.specs.Filters.{where_shown};
ghost use Rattle.chi_trace_events.specs.Traces.{event_at, sending_told, time_after};

use crate::places::{line_of, name_of};
use crate::sending::sending;
use crate::showing::is_shown;
use chi_base::NoMemory;
use chi_code::Code;
use chi_core::Label;
use chi_core_kinds::kinded_law;
use chi_machine::World;
use chi_machine_agenda::agenda_law;
use chi_machine_events::events_alike_law;
use chi_trace::{Detail, Event, Filter};
use chi_trace_events::events_law;
use std::alloc::Global;

// Where instance `pid` is in its process.
fn place(alloc: Global, code: &Code, world: &World, pid: u32) -> Result<Detail, NoMemory>
    requires named { IsNamed code.now (slice_get (whole_of world.now).instances pid) }
    requires turns { line_held code.now (slice_get (whole_of world.now).instances pid) ≢ None }
    ensures detail { IfOk result (λ detail. detail_at code.now (whole_of world.now) (label.Local pid) ≡ Some detail) }
    ensures fits { IfOk result (λ detail. Fits (label.Local pid) detail) }
{
    let line = line_of(code, world, pid);
    let name = name_of(alloc, code, world, pid)?;
    Ok(Detail::At(name, line))
}

// Whose instance goes on.
fn goes_on(alloc: Global, code: &Code, world: &World, pid: u32) -> Result<Detail, NoMemory>
    requires named { IsNamed code.now (slice_get (whole_of world.now).instances pid) }
    ensures detail { IfOk result (λ detail. detail_at code.now (whole_of world.now) (label.Join pid) ≡ Some detail) }
    ensures fits { IfOk result (λ detail. Fits (label.Join pid) detail) }
{
    Ok(Detail::Of(name_of(alloc, code, world, pid)?))
}

// What the alternative of this number of instance `pid` sends.
fn sent(
    alloc: Global,
    code: &Code,
    world: &World,
    pid: u32,
    number: u32,
) -> Result<Detail, NoMemory>
    requires { Sends code.now (act_held (slice_get (whole_of world.now).instances pid) number) }
    ensures detail { IfOk result (λ detail. option_and_then (sending_told code.now.names.kinds) (act_held (slice_get (whole_of world.now).instances pid) number) ≡ Some detail) }
    ensures fits { IfOk result (λ detail. Fits (label.Pair 0 0 0 0) detail) }
{
    match &world.crowd.instances[pid as usize].room {
        Some(room) => sending(alloc, code, &room.opened, number),
        None => unreachable!(),
    }
}

// What is told of a label beside it.
fn detail_of(alloc: Global, code: &Code, world: &World, label: &Label) -> Result<Detail, NoMemory>
    requires there { IsThere code.now (whole_of world.now) label.now }
    ensures detail { IfOk result (λ detail. detail_at code.now (whole_of world.now) label.now ≡ Some detail) }
    ensures fits { IfOk result (λ detail. Fits label.now detail) }
{
    match label {
        Label::Local(pid) => place(alloc, code, world, *pid),
        Label::Pair(pid, number, _, _) => sent(alloc, code, world, *pid, *number),
        Label::Wake(pid, _) => goes_on(alloc, code, world, *pid),
        Label::Join(pid) => goes_on(alloc, code, world, *pid),
        Label::Advance => Ok(Detail::Bare),
    }
}

// The least due time.
fn due(world: &World) -> i64
    requires kept { IsCrowd world.now.crowd }
    requires idle { actors (config_of (whole_of world.now)) ≡ [] }
    requires there { next_due (config_of (whole_of world.now)) ≢ None }
    ensures { next_due (config_of (whole_of world.now)) ≡ Some result }
{
    agenda_law();
    match world.crowd.agenda.next_due() {
        Some(due) => due,
        None => unreachable!(),
    }
}

// The time after a label, in units of a real.
fn time_after(code: &Code, world: &World, label: &Label) -> i64
    requires kept { IsCrowd world.now.crowd }
    requires there { IsThere code.now (whole_of world.now) label.now }
    ensures { time_after (config_of (whole_of world.now)) label.now ≡ Some result }
{
    match label {
        Label::Advance => due(world),
        Label::Local(_) | Label::Pair(_, _, _, _) | Label::Wake(_, _) | Label::Join(_) => {
            world.crowd.agenda.clock()
        }
    }
}

// The event of a label at a turn.
fn made(
    alloc: Global,
    code: &Code,
    world: &World,
    turn: u64,
    label: &Label,
) -> Result<Event, NoMemory>
    requires kept { IsCrowd world.now.crowd }
    requires there { IsThere code.now (whole_of world.now) label.now }
    ensures event { IfOk result (λ e. event_by code.now turn (whole_of world.now) label.now ≡ Some e) }
    ensures fits { IfOk result (λ e. Fits e.label e.detail) }
{
    let clock = time_after(code, world, label);
    let detail = detail_of(alloc, code, world, label)?;
    Ok(Event {
        turn,
        label: *label,
        clock,
        detail,
    })
}

/// The event of an enabled label at a turn, where the filter shows it. No other is made.
pub fn event_of(
    alloc: Global,
    code: &Code,
    world: &World,
    turn: u64,
    label: &Label,
    filter: &Filter,
) -> Result<Option<Event>, NoMemory>
    requires kept { IsCrowd world.now.crowd }
    requires told { CanTell code.now (whole_of world.now) label.now }
    ensures event { IfOk result (λ shown. (core : Core) (config : Config) → MayTell code.now (whole_of world.now) label.now core config
        → (e : AnEvent) × (event_at core turn config label.now ≡ Some e) × (shown ≡ where_shown filter.now e)) }
    ensures fits { IfOk result (λ shown. IfSome shown (λ e. Fits e.label e.detail)) }
{
    events_law();
    kinded_law();
    events_alike_law();
    if is_shown(world, label, filter) {
        Ok(Some(made(alloc, code, world, turn, label)?))
    } else {
        Ok(None)
    }
}
