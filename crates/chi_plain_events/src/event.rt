ghost use Rattle.std.specs.Prelude.{◌≡◌, ◌≢◌, None, Some, IfOk, IfSome, Contains, option_and_then, slice_get};
ghost use Rattle.chi_core.specs.declared.label.Label.TheVariants as label;
ghost use Rattle.chi_core.specs.Kinded.{Kinded};
ghost use Rattle.chi_core.specs.Meeting.{offer_at};
ghost use Rattle.chi_core.specs.Options.{enabled};
ghost use Rattle.chi_core.specs.Sound.{Sound};
ghost use Rattle.chi_trace_events.specs.There.{IsDoing, IsNamed, IsThere, Sends, act_at};
ghost use Rattle.chi_trace_events.specs.Traces.{detail_of, event_at, name_in, sending_told, time_after};
ghost use Rattle.chi_trace.specs.declared.event.Event.{Event as AnEvent};
ghost use Rattle.chi_trace.specs.Events.{Fits};
ghost use Rattle.chi_trace.specs.Filters.{where_shown};

use crate::showing::is_shown;
use chi_base::NoMemory;
use chi_core::{Act, Core, Label};
use chi_plain_steps::Configuration;
use chi_token::Bytes;
use chi_trace::{Detail, Event, Filter};
use chi_trace_events::{events_law, sent_text};
use std::alloc::Global;

/// The name of the definition of instance `pid`.
fn name_at(
    alloc: Global,
    core: &Core,
    configuration: &Configuration<'_>,
    pid: u32,
) -> Result<Bytes, NoMemory>
    requires { IsNamed core.now (slice_get configuration.now.instances pid) }
    ensures { IfOk result (λ name. name_in core.now (slice_get configuration.now.instances pid) ≡ Some name) }
{
    let definition = configuration.instances()[pid as usize].definition();
    let process = &core.procs.as_slice()[definition as usize];
    Ok(Bytes::copy_of(alloc, process.name.as_slice())?)
}

/// Where instance `pid` is in its definition.
fn place(
    alloc: Global,
    core: &Core,
    configuration: &Configuration<'_>,
    pid: u32,
) -> Result<Detail, NoMemory>
    requires named { IsNamed core.now (slice_get configuration.now.instances pid) }
    requires doing { IsDoing (slice_get configuration.now.instances pid) }
    ensures detail { IfOk result (λ detail. detail_of core.now configuration.now (label.Local pid) ≡ Some detail) }
    ensures fits { IfOk result (λ detail. Fits (label.Local pid) detail) }
{
    let line = configuration.line_at(pid);
    let name = name_at(alloc, core, configuration, pid)?;
    Ok(Detail::At(name, line))
}

/// Whose instance goes on.
fn goes_on(
    alloc: Global,
    core: &Core,
    configuration: &Configuration<'_>,
    pid: u32,
) -> Result<Detail, NoMemory>
    requires named { IsNamed core.now (slice_get configuration.now.instances pid) }
    ensures join { IfOk result (λ detail. detail_of core.now configuration.now (label.Join pid) ≡ Some detail) }
    ensures fits { IfOk result (λ detail. Fits (label.Join pid) detail) }
{
    Ok(Detail::Of(name_at(alloc, core, configuration, pid)?))
}

/// What an act sends, and on which channel.
fn sending(alloc: Global, core: &Core, act: &Act) -> Result<Detail, NoMemory>
    requires { Sends core.now (Some act.now) }
    ensures detail { IfOk result (λ detail. sending_told core.now.names.kinds act.now ≡ Some detail) }
    ensures fits { IfOk result (λ detail. Fits (label.Pair 0 0 0 0) detail) }
{
    match act {
        Act::Send(channel, sent) => {
            let text = sent_text(alloc, sent.as_ref(), &core.names)?;
            Ok(Detail::Sent(*channel, text))
        }
        Act::Receive(_, _) => unreachable!(),
        Act::Delay(_) => unreachable!(),
    }
}

/// What the alternative of this number of instance `pid` sends.
fn sent(
    alloc: Global,
    core: &Core,
    configuration: &Configuration<'_>,
    pid: u32,
    number: u32,
) -> Result<Detail, NoMemory>
    requires { Sends core.now (act_at configuration.now pid number) }
    ensures detail { IfOk result (λ detail.
        option_and_then (λ offer. sending_told core.now.names.kinds offer.act) (offer_at (slice_get configuration.now.instances pid) number) ≡ Some detail) }
    ensures fits { IfOk result (λ detail. Fits (label.Pair 0 0 0 0) detail) }
{
    let instance = &configuration.instances()[pid as usize];
    let offer = &instance.offers()[number as usize];
    sending(alloc, core, offer.act())
}

/// What is told of a label beside it.
fn detail_of(
    alloc: Global,
    core: &Core,
    configuration: &Configuration<'_>,
    label: &Label,
) -> Result<Detail, NoMemory>
    requires there { IsThere core.now configuration.now label.now }
    ensures detail { IfOk result (λ detail. detail_of core.now configuration.now label.now ≡ Some detail) }
    ensures fits { IfOk result (λ detail. Fits label.now detail) }
{
    match label {
        Label::Local(pid) => place(alloc, core, configuration, *pid),
        Label::Pair(pid, number, _, _) => sent(alloc, core, configuration, *pid, *number),
        Label::Wake(pid, _) => goes_on(alloc, core, configuration, *pid),
        Label::Join(pid) => goes_on(alloc, core, configuration, *pid),
        Label::Advance => Ok(Detail::Bare),
    }
}

/// The time after a label, in units of a real.
fn time_after(core: &Core, configuration: &Configuration<'_>, label: &Label) -> i64
    requires there { IsThere core.now configuration.now label.now }
    ensures { time_after configuration.now label.now ≡ Some result }
{
    match label {
        Label::Advance => match configuration.least_due() {
            Some(due) => due,
            None => unreachable!(),
        },
        Label::Local(_) | Label::Pair(_, _, _, _) | Label::Wake(_, _) | Label::Join(_) => {
            configuration.clock()
        }
    }
}

/// The event of a label at a turn.
fn made(
    alloc: Global,
    core: &Core,
    configuration: &Configuration<'_>,
    turn: u64,
    label: &Label,
) -> Result<Event, NoMemory>
    requires there { IsThere core.now configuration.now label.now }
    ensures event { IfOk result (λ e. event_at core.now turn configuration.now label.now ≡ Some e) }
    ensures fits { IfOk result (λ e. Fits e.label e.detail) }
{
    let clock = time_after(core, configuration, label);
    let detail = detail_of(alloc, core, configuration, label)?;
    Ok(Event {
        turn,
        label: *label,
        clock,
        detail,
    })
}

/// The event of an enabled label at a turn, where the filter shows it. No other is made.
pub fn event_of(
    alloc: Global,
    core: &Core,
    configuration: &Configuration<'_>,
    turn: u64,
    label: &Label,
    filter: &Filter,
) -> Result<Option<Event>, NoMemory>
    requires sound { Sound core.now }
    requires kinded { Kinded core.now configuration.now }
    requires enabled { Contains (enabled configuration.now) label.now }
    ensures event { IfOk result (λ shown. (e : AnEvent) × (event_at core.now turn configuration.now label.now ≡ Some e) × (shown ≡ where_shown filter.now e)) }
    ensures fits { IfOk result (λ shown. IfSome shown (λ e. Fits e.label e.detail)) }
{
    events_law();
    if is_shown(configuration, label, filter) {
        Ok(Some(made(alloc, core, configuration, turn, label)?))
    } else {
        Ok(None)
    }
}
