//! What is noted of instances along a run: the lines that they did last, and how many labels they took.

ghost use Rattle.std.specs.Prelude.{◌≡◌, ℕ, ◌+◌, ◌-◌, ◌^◌, ◌<◌, [], ◌++◌, length, replicate, slice_index, Some, OnOk};
ghost use Rattle.chi_explain_labels.specs.Labels.{takers, Counted};
ghost use Rattle.chi_explain_runs.specs.Turns.{done_at, done_by, with_done};
ghost use Rattle.chi_explain_waiting.specs.Whereabouts.{with_line};

use chi_base::NoMemory;
use chi_core::Label;
use chi_explain_labels::count_label;
use chi_explain_waiting::next_line;
use chi_plain::Plain;
use chi_plain_steps::Configuration;
use std::alloc::Global;

/// What is noted of instances, each by its number. One that a list doesn't have did nothing yet.
#[derive(Drop)]
pub struct Notes {
    /// The line of the item that it did last.
    pub lines: Vec<u32>,
    /// How many labels it took.
    pub counts: Vec<u64>,
}

impl Notes {
    /// Nothing is noted.
    pub fn new(alloc: Global) -> Notes
        ensures no_lines { result.lines.items ≡ [] }
        ensures no_counts { result.counts.items ≡ [] }
    {
        Notes {
            lines: Vec::new(alloc),
            counts: Vec::new(alloc),
        }
    }
}

/// An instance that does an item, and the item's line.
#[derive(Clone, Copy, Debug)]
pub struct Done {
    pub pid: u32,
    pub line: u32,
}

/// The item that a label has an instance do.
fn done_by(configuration: &Configuration<'_>, label: &Label) -> Option<Done>
    ensures { result ≡ done_by configuration.now label.now }
{
    match label {
        Label::Local(pid) => {
            let instance = configuration.instances().get(*pid as usize)?;
            let line = next_line(configuration, *pid, instance)?;
            Some(Done { pid: *pid, line })
        }
        Label::Pair(_, _, _, _) | Label::Wake(_, _) | Label::Join(_) | Label::Advance => None,
    }
}

/// The item that a label has an instance do where a runner is.
pub fn done_at(runner: &Plain<'_>, label: &Label) -> Option<Done>
    ensures { result ≡ done_at runner.now.stage label.now }
{
    match runner.configuration() {
        Some(configuration) => done_by(configuration, label),
        None => None,
    }
}

/// Adds lines that aren't known, up to so many.
fn fill(lines: &mut Vec<u32>, count: usize) -> Result<(), NoMemory>
    ensures { OnOk result (lines.new.items ≡ lines.old.items ++ replicate (count - length lines.old.items) 0) }
{
    if lines.len() < count {
        lines.resize(count, 0)?;
    }
    Ok(())
}

/// Sets the line that an instance did last.
fn set_line(lines: &mut Vec<u32>, pid: u32, line: u32) -> Result<(), NoMemory>
    ensures { OnOk result (lines.new.items ≡ with_line lines.old.items pid (Some line)) }
{
    fill(lines, pid as usize + 1)?;
    lines[pid as usize] = line;
    Ok(())
}

/// Notes the item that an instance did last, where it did one.
fn note_done(lines: &mut Vec<u32>, done: Option<Done>) -> Result<(), NoMemory>
    ensures { OnOk result (lines.new.items ≡ with_done lines.old.items done) }
{
    match done {
        Some(Done { pid, line }) => set_line(lines, pid, line),
        None => Ok(()),
    }
}

/// Notes a label, and the item that it has an instance do.
pub fn note(notes: &mut Notes, done: Option<Done>, label: &Label) -> Result<(), NoMemory>
    requires { (p : ℕ) → slice_index notes.old.counts.items p + 2 < 2 ^ 64 }
    ensures lines { OnOk result (notes.new.lines.items ≡ with_done notes.old.lines.items done) }
    ensures counts { OnOk result (Counted (takers label.now) notes.old.counts.items notes.new.counts.items) }
{
    note_done(&mut notes.lines, done)?;
    count_label(&mut notes.counts, label)
}
