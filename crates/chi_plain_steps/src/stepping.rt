//! The taking of a label.

ghost use Rattle.std.specs.Prelude.{◌≡◌, ◌≢◌, [], None, Some, IfOk, IfSome, IsSomeAnd, MatchOption, OnErr, length, option_map, slice_get};
ghost use Rattle.chi_core.specs.declared.statement.CStat.{out-CStat};
ghost use Rattle.chi_core.specs.declared.verdict.Verdict.TheVariants as verdict;
ghost use Rattle.chi_core.specs.Step.{line_in, line_of, local, name_of, step};
ghost use Rattle.chi_core_frame.specs.Terms.{first_of, item_of};
ghost use Rattle.chi_plain_steps.specs.Takings.{Appends, HasName, IsRight, StopsAs, Takes};

use crate::configuration::Configuration;
use crate::deed::Done;
use chi_base::NoMemory;
use chi_core::{CStat, Core, FaultKind, Label, Verdict, View};
use chi_core_frame::{Stop, Task};
use chi_token::Bytes;
use std::alloc::Global;

/// What taking a label did.
#[derive(Debug, Drop)]
pub enum Went {
    /// So much is left of the bound.
    On(u64),
    /// The run has ended so.
    Over(Verdict),
    /// It costs more than is left.
    Spent,
}

/// The line of a statement.
fn line_in(statement: &CStat) -> u32
    ensures { result ≡ line_in (out-CStat statement.now) }
{
    match statement {
        CStat::Declare(line, _, _) => *line,
        CStat::Assign(line, _, _) => *line,
        CStat::If(line, _, _) => *line,
        CStat::While(line, _, _) => *line,
        CStat::For(line, _, _, _) => *line,
        CStat::Break(line) => *line,
        CStat::Continue(line) => *line,
        CStat::Pass(line) => *line,
        CStat::Return(line, _) => *line,
        CStat::Exit(line, _) => *line,
        CStat::Write(line, _, _) => *line,
        CStat::Select(line, _) => *line,
        CStat::Run(line, _) => *line,
        CStat::Start(line, _) => *line,
        CStat::Finish(line, _) => *line,
    }
}

/// The line of an item.
fn line_of(task: &Task<'_>) -> u32
    ensures { result ≡ line_of (item_of task.now) }
{
    match task {
        Task::Do(statement) => line_in(statement),
        Task::Loop(line, _, _) => *line,
        Task::Walk(line, _, _, _) => *line,
    }
}

/// The verdict of a fault in an instance of the definition of this number.
fn fault(
    alloc: Global,
    core: &Core,
    definition: u32,
    line: u32,
    kind: FaultKind,
) -> Result<Verdict, NoMemory>
    requires { name_of core.now definition ≢ None }
    ensures { IfOk result (λ v. MatchOption (name_of core.now definition) ⊥ (λ name. v ≡ verdict.Fault kind name line)) }
{
    let process = &core.procs.as_slice()[definition as usize];
    let name = Bytes::copy_of(alloc, process.name.as_slice())?;
    Ok(Verdict::Fault(kind, name, line))
}

/// An item isn't done.
fn stopped(
    alloc: Global,
    core: &Core,
    definition: u32,
    line: u32,
    stop: Stop,
) -> Result<Went, NoMemory>
    requires { HasName stop (name_of core.now definition) }
    ensures { IfOk result (λ went. StopsAs stop (name_of core.now definition) line went) }
{
    match stop {
        Stop::Fault(kind) => Ok(Went::Over(fault(alloc, core, definition, line, kind)?)),
        Stop::Spent => Ok(Went::Spent),
        Stop::NoMemory => Err(NoMemory),
    }
}

impl<'a> Configuration<'a> {
    /// The line of the first item of instance `pid`.
    pub fn line_at(&self, pid: u32) -> u32
        requires { IsSomeAnd (slice_get self.now.instances pid) (λ i. first_of i.term ≢ None) }
        ensures { IfSome (slice_get self.now.instances pid) (λ i. option_map line_of (first_of i.term) ≡ Some result) }
    {
        let instance = &self.instances[pid as usize];
        match instance.first() {
            Some(task) => line_of(task),
            None => unreachable!(),
        }
    }

    /// Instance `pid`, which runs, does an item.
    fn local(
        &mut self,
        alloc: Global,
        core: &'a Core,
        pid: u32,
        mut view: View,
        out: &mut Vec<u8>,
    ) -> Result<Went, NoMemory>
        requires { IsRight (local core.now self.old pid (slice_get self.old.instances pid) view) }
        ensures taken { IfOk result (λ went. Appends out.old.items out.new.items
            (λ text. Takes (local core.now self.old pid (slice_get self.old.instances pid) view) self.old self.new text went)) }
        ensures kept { OnErr result (out.new.items ≡ out.old.items) }
    {
        let line = self.line_at(pid);
        let definition = self.instances[pid as usize].definition();
        match self.perform(alloc, core, pid, &mut view, out) {
            Ok(Done::On) => {
                self.use_up(&view);
                Ok(Went::On(view.left))
            }
            Ok(Done::Exits(value)) => Ok(Went::Over(Verdict::Exit(value))),
            Err(stop) => Ok(stopped(alloc, core, definition, line, stop)?),
        }
    }

    /// Takes a label, where so much is left of the bound. What costs too much changes nothing.
    #[tactic(auto, using(crate::proofs::Moves::moving))]
    pub fn take(
        &mut self,
        alloc: Global,
        core: &'a Core,
        label: &Label,
        left: u64,
        out: &mut Vec<u8>,
    ) -> Result<Went, NoMemory>
        requires { IsRight (step core.now self.old label.now left) }
        ensures taken { IfOk result (λ went. Appends out.old.items out.new.items
            (λ text. Takes (step core.now self.old label.now left) self.old self.new text went)) }
        ensures kept { OnErr result (out.new.items ≡ out.old.items) }
    {
        if left == 0 {
            return Ok(Went::Spent);
        }
        let view = self.view(left - 1);
        match label {
            Label::Local(pid) => return self.local(alloc, core, *pid, view, out),
            Label::Pair(pid, number, other, accepting) => {
                self.pair(alloc, *pid, *number, *other, *accepting, &view)?;
            }
            Label::Wake(pid, number) => self.wake(alloc, *pid, *number, &view)?,
            Label::Join(pid) => self.join(*pid, &view),
            Label::Advance => self.advance(&view),
        }
        self.use_up(&view);
        Ok(Went::On(left - 1))
    }
}
