//! Who waits for what, and where.

ghost use Rattle.std.specs.Prelude.{◌≡◌, ◌++◌, ◌<◌, codes, flat_map, length, slice_get, IfOk, OnOk};
ghost use Rattle.std.specs.Fmt.{decimal};
ghost use Rattle.chi_explain.specs.Excerpts.{ended};
ghost use Rattle.chi_explain_waiting.specs.Whereabouts.{at_line};
ghost use Rattle.chi_plain_open.specs.Instances.{state_of};
ghost use Rattle.chi_explain_waiting.specs.Joins.{not_over, once};
ghost use Rattle.chi_explain_waiting.specs.WaitingText.{goes_on_told, instance_told, joins_told, left_told, name_told, ring_told, state_told, unfinished, waiting_text};

use crate::joins::{is_in_ring, not_over, once};
use crate::offers::put_offers;
use crate::pieces::{MOST_TOLD, first_numbers, put_listed, put_more};
use crate::whereabouts::{line_at, put_at_line};
use chi_base::NoMemory;
use chi_core::Core;
use chi_explain::put_number;
use chi_plain_open::{Instance, State};
use chi_plain_steps::Configuration;
use std::alloc::Global;

/// Appends that an instance waits for itself, where it does.
fn put_ring(ring: bool, out: &mut Vec<u8>) -> Result<(), NoMemory>
    ensures { OnOk result (out.new.items ≡ out.old.items ++ ring_told ring) }
{
    if ring {
        out.extend_from_slice(b"  waits so for itself, in a ring\n")?;
    }
    Ok(())
}

/// Appends the instances for which instance `pid` waits that joins.
fn put_left(
    alloc: Global,
    configuration: &Configuration<'_>,
    pid: u32,
    left: &[u32],
    out: &mut Vec<u8>,
) -> Result<(), NoMemory>
    requires { pid < length configuration.now.instances }
    ensures { OnOk result (out.new.items ≡ out.old.items ++ left_told configuration.now pid left.now) }
{
    let told = first_numbers(left);
    let more = left.len().saturating_sub(MOST_TOLD);
    let ring = is_in_ring(alloc, configuration, pid)?;
    out.extend_from_slice(b"  waits for instances to finish: ")?;
    put_listed(alloc, told, out)?;
    out.push(b'\n')?;
    put_more(alloc, b"  more instances: ", more, out)?;
    put_ring(ring, out)?;
    Ok(())
}

/// Appends that an instance goes on that joins these.
fn put_goes_on(pids: &[u32], out: &mut Vec<u8>) -> Result<(), NoMemory>
    ensures { OnOk result (out.new.items ≡ out.old.items ++ goes_on_told pids.now) }
{
    if pids.is_empty() {
        out.extend_from_slice(b"  goes on: there is none for which it waits\n")?;
        Ok(())
    } else {
        out.extend_from_slice(b"  goes on: those for which it waited have finished\n")?;
        Ok(())
    }
}

/// Appends for which instances instance `pid` waits that joins these, of which some are left, or that it goes on.
fn put_joins(
    alloc: Global,
    configuration: &Configuration<'_>,
    pid: u32,
    pids: &[u32],
    left: &[u32],
    out: &mut Vec<u8>,
) -> Result<(), NoMemory>
    requires { pid < length configuration.now.instances }
    ensures { OnOk result (out.new.items ≡ out.old.items ++ joins_told configuration.now pid pids.now left.now) }
{
    if left.is_empty() {
        put_goes_on(pids, out)
    } else {
        put_left(alloc, configuration, pid, left, out)
    }
}

/// Appends for which of these instances instance `pid` waits that joins them, each once.
fn put_joining(
    alloc: Global,
    configuration: &Configuration<'_>,
    pid: u32,
    pids: &[u32],
    out: &mut Vec<u8>,
) -> Result<(), NoMemory>
    requires { pid < length configuration.now.instances }
    ensures { OnOk result (out.new.items ≡ out.old.items ++ joins_told configuration.now pid pids.now (once (not_over configuration.now pids.now))) }
{
    let some = not_over(alloc, configuration, pids)?;
    let left = once(alloc, configuration.instances().len(), &some)?;
    put_joins(alloc, configuration, pid, pids, &left, out)?;
    Ok(())
}

/// Appends what instance `pid` does or waits for, which is in this state.
fn put_state(
    alloc: Global,
    configuration: &Configuration<'_>,
    pid: u32,
    state: &State<'_>,
    out: &mut Vec<u8>,
) -> Result<(), NoMemory>
    requires { pid < length configuration.now.instances }
    ensures { OnOk result (out.new.items ≡ out.old.items ++ state_told configuration.now pid (state_of state.now)) }
{
    match state {
        State::Running => {
            out.extend_from_slice(b"  runs: this line is next\n")?;
            Ok(())
        }
        State::Waiting(offers) => put_offers(alloc, configuration, pid, offers.as_slice(), out),
        State::Joining(pids) => put_joining(alloc, configuration, pid, pids.as_slice(), out),
        State::Finished => Ok(()),
    }
}

/// The name of the process of this number; nothing where there is none.
#[tactic(auto, using(crate::proofs::Telling::telling))]
pub fn name_of(core: &Core, definition: u32) -> &[u8]
    ensures { result.now ≡ name_told core.now definition }
{
    match core.procs.as_slice().get(definition as usize) {
        Some(process) => process.name.as_slice(),
        None => &[],
    }
}

/// Appends the number of an instance, the name of its process, and the line where it stands.
fn put_head(
    alloc: Global,
    source: &[u8],
    pid: u32,
    name: &[u8],
    line: u32,
    out: &mut Vec<u8>,
) -> Result<(), NoMemory>
    ensures { OnOk result (out.new.items ≡ out.old.items ++ ended (codes "instance " ++ decimal pid ++ codes " " ++ name.now ++ at_line source.now line)) }
{
    out.extend_from_slice(b"instance ")?;
    put_number(alloc, pid, out)?;
    out.push(b' ')?;
    out.extend_from_slice(name)?;
    put_at_line(alloc, source, line, out)?;
    out.push(b'\n')?;
    Ok(())
}

/// What is told of instance `pid`.
#[tactic(auto, using(crate::proofs::Telling::telling))]
fn instance_text(
    alloc: Global,
    core: &Core,
    source: &[u8],
    lines: &[u32],
    configuration: &Configuration<'_>,
    pid: u32,
) -> Result<Vec<u8>, NoMemory>
    ensures { IfOk result (λ text. text.items ≡ instance_told core.now source.now lines.now configuration.now pid (slice_get configuration.now.instances pid)) }
{
    let mut text = Vec::new(alloc);
    match configuration.instances().get(pid as usize) {
        Some(instance) => {
            let name = name_of(core, instance.definition());
            let line = line_at(configuration, lines, pid, instance);
            put_head(alloc, source, pid, name, line, &mut text)?;
            put_state(alloc, configuration, pid, instance.state(), &mut text)?;
            Ok(text)
        }
        None => Ok(text),
    }
}

/// The instances that haven't finished, ascending.
#[tactic(auto, using(crate::proofs::Numbers::numbering))]
fn unfinished(alloc: Global, configuration: &Configuration<'_>) -> Result<Vec<u32>, NoMemory>
    ensures { IfOk result (λ some. some.items ≡ unfinished configuration.now) }
{
    let mut some = Vec::new(alloc);
    for pid in 0..configuration.instances().len() as u32 {
        if !configuration.is_over(pid) {
            some.push(pid)?;
        }
    }
    Ok(some)
}

/// What is told of these instances.
fn instances_text(
    alloc: Global,
    core: &Core,
    source: &[u8],
    lines: &[u32],
    configuration: &Configuration<'_>,
    pids: &[u32],
) -> Result<Vec<u8>, NoMemory>
    ensures { IfOk result (λ text. text.items
        ≡ flat_map (λ p. instance_told core.now source.now lines.now configuration.now p (slice_get configuration.now.instances p)) pids.now) }
{
    let mut text = Vec::new(alloc);
    for pid in pids {
        let told = instance_text(alloc, core, source, lines, configuration, *pid)?;
        text.extend_from_slice(&told)?;
    }
    Ok(text)
}

/// The text that says who waits for what, and where: of the first instances of a configuration that haven't finished. The
/// lines are those of the items that instances did last, as `note` of `chi_explain_runs` notes them; where none is known
/// none is told.
pub fn explain_waiting(
    alloc: Global,
    core: &Core,
    source: &[u8],
    lines: &[u32],
    configuration: &Configuration<'_>,
) -> Result<Vec<u8>, NoMemory>
    ensures { IfOk result (λ text. text.items ≡ waiting_text core.now source.now lines.now configuration.now) }
{
    let pids = unfinished(alloc, configuration)?;
    let all = pids.as_slice();
    let told = first_numbers(all);
    let more = all.len().saturating_sub(MOST_TOLD);
    let mut text = instances_text(alloc, core, source, lines, configuration, told)?;
    put_more(alloc, b"more that haven't finished: ", more, &mut text)?;
    Ok(text)
}
