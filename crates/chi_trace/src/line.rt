ghost use Rattle.std.specs.Prelude.{◌≡◌, ◌++◌, ◌∷◌, [], OnOk, OnErr};
ghost use Rattle.std.specs.Fmt.{decimal};
ghost use Rattle.chi_trace.specs.declared.event.Event.{Event};
ghost use Rattle.chi_trace.specs.Events.{Fits};
ghost use Rattle.chi_trace.specs.Lines.{spaced, label_parts, unknown_parts, detail_parts, event_text, event_line, IsLine1};

use crate::read::read_line_1;
use crate::{Detail, Event, TraceFault};
use chi_base::NoMemory;
use chi_core::Label;
use chi_num::{Real, real_text};
use std::alloc::Global;

/// Appends the line of an event, with its line feed.
#[tactic(auto, unfolding(crate::specs::Lines::event_text))]
pub fn line_of(alloc: Global, event: &Event, out: &mut Vec<u8>) -> Result<(), NoMemory>
    requires fits { Fits event.now.label event.now.detail }
    ensures ok { OnOk result (out.new.items ≡ out.old.items ++ event_line event.now) }
    ensures err { OnErr result (out.new.items ≡ out.old.items) }
{
    let turn = event.turn;
    let mut line = format!(in alloc; "{turn}")?.into_bytes();
    push_label(alloc, event.label, event.clock, &mut line)?;
    push_detail(alloc, event.label, &event.detail, &mut line)?;
    line.push(b'\n')?;
    out.extend_from_slice(&line)?;
    Ok(())
}

/// Appends the line of version 2 that a line of version 1 is brought up to: the same event, of which
/// no detail is known. The line is taken without its line feed, and appended with one.
pub fn line_up(alloc: Global, line: &[u8], out: &mut Vec<u8>) -> Result<(), TraceFault>
    ensures ok { OnOk result ((e : Event) × IsLine1 line.now e × (out.new.items ≡ out.old.items ++ event_line e)) }
    ensures form { result ≡ Err TraceFault.Form → (e : Event) → ¬ (IsLine1 line.now e) }
    ensures err { OnErr result (out.new.items ≡ out.old.items) }
{
    let event = read_line_1(line)?;
    line_of(alloc, &event, out)?;
    Ok(())
}

/// Appends the parts that tell the label.
fn push_label(alloc: Global, label: Label, clock: i64, line: &mut Vec<u8>) -> Result<(), NoMemory>
    ensures ok { OnOk result (line.new.items ≡ line.old.items ++ spaced (label_parts label clock)) }
{
    let text = match label {
        Label::Local(p) => format!(in alloc; " local {p}")?,
        Label::Pair(p, a, q, b) => format!(in alloc; " pair {p} {a} {q} {b}")?,
        Label::Wake(p, a) => format!(in alloc; " wake {p} {a}")?,
        Label::Join(p) => format!(in alloc; " join {p}")?,
        Label::Advance => return push_advance(alloc, clock, line),
    };
    line.extend_from_slice(text.as_bytes())?;
    Ok(())
}

fn push_advance(alloc: Global, clock: i64, line: &mut Vec<u8>) -> Result<(), NoMemory>
    ensures ok { OnOk result (line.new.items ≡ line.old.items ++ spaced (label_parts Label.Advance clock)) }
{
    line.extend_from_slice(b" advance ")?;
    real_text(alloc, Real::from_units(clock), line)?;
    Ok(())
}

/// Appends the parts that tell the detail.
fn push_detail(
    alloc: Global,
    label: Label,
    detail: &Detail,
    line: &mut Vec<u8>,
) -> Result<(), NoMemory>
    ensures ok { OnOk result (line.new.items ≡ line.old.items ++ spaced (detail_parts label detail.now)) }
{
    match detail {
        Detail::Unknown => line.extend_from_slice(unknown(label))?,
        Detail::Bare => (),
        Detail::At(name, number) => {
            push_part(name.as_slice(), line)?;
            let number = format!(in alloc; " {number}")?;
            line.extend_from_slice(number.as_bytes())?;
        }
        Detail::Of(name) => push_part(name.as_slice(), line)?,
        Detail::Sent(channel, value) => {
            let channel = format!(in alloc; " {channel}")?;
            line.extend_from_slice(channel.as_bytes())?;
            push_part(value.as_slice(), line)?;
        }
    }
    Ok(())
}

fn push_part(part: &[u8], line: &mut Vec<u8>) -> Result<(), NoMemory>
    ensures ok { OnOk result (line.new.items ≡ line.old.items ++ 32 ∷ part.now) }
{
    line.push(b' ')?;
    line.extend_from_slice(part)?;
    Ok(())
}

/// What stands where nothing is known of a label.
fn unknown(label: Label) -> &'static [u8]
    ensures parts { result.now ≡ spaced (unknown_parts label) }
{
    match label {
        Label::Local(_) | Label::Pair(_, _, _, _) => b" - -",
        Label::Wake(_, _) | Label::Join(_) => b" -",
        Label::Advance => b"",
    }
}
