//! Where instances stand: the line of the source of each, as it is told.

ghost use Rattle.std.specs.Prelude.{◌≡◌, ◌++◌, Some, OnOk, slice_get, slice_index};
ghost use Rattle.chi_plain_open.specs.Instances.{state_of};
ghost use Rattle.chi_explain_waiting.specs.Whereabouts.{at_line, line_at, line_in, line_told, next_line, trimmed};

use chi_base::NoMemory;
use chi_explain::{numbered_line, put_front, put_number};
use chi_plain_open::{Instance, State};
use chi_plain_steps::Configuration;
use std::alloc::Global;

/// The line of the item that instance `pid` does next.
#[tactic(auto, using(crate::proofs::Lines::lines))]
pub fn next_line(
    configuration: &Configuration<'_>,
    pid: u32,
    instance: &Instance<'_>,
) -> Option<u32>
    requires { slice_get configuration.now.instances pid ≡ Some instance.now }
    ensures { result ≡ next_line instance.now }
{
    match instance.first() {
        Some(_) => Some(configuration.line_at(pid)),
        None => None,
    }
}

/// The line of a number among those that instances did last.
#[tactic(auto, using(crate::proofs::Lines::lines))]
fn last_line(lines: &[u32], pid: u32) -> u32
    ensures { result ≡ slice_index lines.now pid }
{
    match lines.get(pid as usize) {
        Some(line) => *line,
        None => 0,
    }
}

/// The line of an instance in this state, which does one next and did one last.
fn line_in(state: &State<'_>, next: Option<u32>, last: u32) -> u32
    ensures { result ≡ line_in (state_of state.now) next last }
{
    match state {
        State::Running => match next {
            Some(line) => line,
            None => last,
        },
        State::Waiting(_) | State::Joining(_) | State::Finished => last,
    }
}

/// The line where instance `pid` stands, by the lines that instances did last.
pub fn line_at(
    configuration: &Configuration<'_>,
    lines: &[u32],
    pid: u32,
    instance: &Instance<'_>,
) -> u32
    requires { slice_get configuration.now.instances pid ≡ Some instance.now }
    ensures { result ≡ line_at lines.now pid instance.now }
{
    let next = next_line(configuration, pid, instance);
    line_in(instance.state(), next, last_line(lines, pid))
}

/// A text without the blanks around it.
fn trimmed(text: &[u8]) -> &[u8]
    ensures { result.now ≡ trimmed text.now }
{
    text.trim_ascii()
}

/// Appends a line of the source without the blanks around it, as it is shown.
fn put_line(source: &[u8], line: u32, out: &mut Vec<u8>) -> Result<(), NoMemory>
    ensures { OnOk result (out.new.items ≡ out.old.items ++ line_told source.now line) }
{
    let text = trimmed(numbered_line(source, line));
    put_front(text, out)?;
    Ok(())
}

/// Appends what is told of a line, where it is known.
pub fn put_at_line(
    alloc: Global,
    source: &[u8],
    line: u32,
    out: &mut Vec<u8>,
) -> Result<(), NoMemory>
    ensures { OnOk result (out.new.items ≡ out.old.items ++ at_line source.now line) }
{
    if line > 0 {
        out.extend_from_slice(b" at line ")?;
        put_number(alloc, line, out)?;
        out.extend_from_slice(b": `")?;
        put_line(source, line, out)?;
        out.push(b'`')?;
    }
    Ok(())
}
