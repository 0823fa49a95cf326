//! How the first item of an experiment is done.

ghost use Rattle.std.specs.Prelude.{◌≡◌, ◌≢◌, IfErr, IfOk, drop};
ghost use Rattle.chi_core.specs.declared.experiment.XStat.{out-XStat};
ghost use Rattle.chi_core.specs.declared.statement.CStat.{out-CStat};
ghost use Rattle.chi_core.specs.Answer.{Amiss, Gives};
ghost use Rattle.chi_core.specs.Step.{line_in};
ghost use Rattle.chi_core_frame.specs.Stops.{Stops};
ghost use Rattle.chi_plain_eval.specs.Surroundings.{value_in};
ghost use Rattle.chi_xper.specs.Deeds.{did_of, first_done};
ghost use Rattle.chi_xper.specs.Items.{done_stat, line_at, line_of};
ghost use Rattle.chi_xper.specs.Tasks.{item_of};

use crate::blocks::{begin_walk, choose, test_loop};
use crate::course::Course;
use crate::deed::Deed;
use crate::lines::{call, do_line};
use crate::term::{Head, Task};
use chi_core::{CStat, Core, XStat};
use chi_core_frame::Stop;
use chi_plain_eval::Surroundings;
use std::alloc::Global;

/// The line of a statement without blocks.
fn line_in(statement: &CStat) -> u32
    ensures { result ≡ line_in (out-CStat statement.now) }
{
    match statement {
        CStat::Declare(line, _, _) => *line,
        CStat::Assign(line, _, _) => *line,
        CStat::If(line, _, _) => *line,
        CStat::While(line, _, _) => *line,
        CStat::For(line, _, _, _) => *line,
        CStat::Break(line) => *line,
        CStat::Continue(line) => *line,
        CStat::Pass(line) => *line,
        CStat::Return(line, _) => *line,
        CStat::Exit(line, _) => *line,
        CStat::Write(line, _, _) => *line,
        CStat::Select(line, _) => *line,
        CStat::Run(line, _) => *line,
        CStat::Start(line, _) => *line,
        CStat::Finish(line, _) => *line,
    }
}

/// The line of a statement.
fn line_at(statement: &XStat) -> u32
    ensures { result ≡ line_at (out-XStat statement.now) }
{
    match statement {
        XStat::Line(statement) => line_in(statement),
        XStat::If(line, _, _) => *line,
        XStat::While(line, _, _) => *line,
        XStat::For(line, _, _, _) => *line,
        XStat::RunModel(line, _, _, _, _) => *line,
    }
}

/// The line of an item.
pub fn line_of(task: &Task<'_>) -> u32
    ensures { result ≡ line_of (item_of task.now) }
{
    match task {
        Task::Do(statement) => line_at(statement),
        Task::Loop(line, _, _) => *line,
        Task::Walk(line, _, _, _) => *line,
    }
}

/// A statement, which stands first.
#[tactic(auto, using(chi_core_frame::proofs::Stopping::stopping, crate::proofs::Layers::statements))]
fn do_stat<'a>(
    alloc: Global,
    core: &Core,
    scene: &Surroundings<'_>,
    statement: &'a XStat,
    course: &mut Course<'a>,
) -> Result<Deed, Stop>
    requires { done_stat core.now (value_in scene.now course.old.variables) course.old.variables (out-XStat statement.now) (drop 1 course.old.term) course.old.view ≢ Amiss }
    ensures done { IfOk result (λ deed. done_stat core.now (value_in scene.now course.old.variables) course.old.variables (out-XStat statement.now) (drop 1 course.old.term) course.old.view ≡ Gives (did_of course.new.variables course.new.term deed) course.new.view) }
    ensures stops { IfErr result (λ stop. Stops stop (done_stat core.now (value_in scene.now course.old.variables) course.old.variables (out-XStat statement.now) (drop 1 course.old.term) course.old.view)) }
    ensures count { course.new.count ≡ course.old.count }
{
    match statement {
        XStat::Line(line) => Ok(do_line(alloc, core, scene, line, course)?),
        XStat::If(_, branches, otherwise) => {
            let tests = branches.as_slice();
            let last = otherwise.as_slice();
            choose(alloc, scene, tests, last, course)?;
            Ok(Deed::Goes)
        }
        XStat::While(line, test, block) => {
            let turn = block.as_slice();
            test_loop(alloc, scene, *line, test, turn, course)?;
            Ok(Deed::Goes)
        }
        XStat::For(line, slots, e, block) => {
            let names = slots.as_slice();
            let turn = block.as_slice();
            begin_walk(alloc, scene, *line, names, e, turn, course)?;
            Ok(Deed::Goes)
        }
        XStat::RunModel(_, target, model, arguments, widen) => {
            let values = arguments.as_slice();
            Ok(call(alloc, scene, target, *model, values, *widen, course)?)
        }
    }
}

/// The first item, which there is.
#[tactic(auto, using(chi_core_frame::proofs::Stopping::stopping, crate::proofs::Layers::items))]
pub fn do_first(
    alloc: Global,
    core: &Core,
    scene: &Surroundings<'_>,
    course: &mut Course<'_>,
) -> Result<Deed, Stop>
    requires { first_done core.now (value_in scene.now course.old.variables) course.old.variables course.old.term course.old.view ≢ Amiss }
    ensures done { IfOk result (λ deed. first_done core.now (value_in scene.now course.old.variables) course.old.variables course.old.term course.old.view ≡ Gives (did_of course.new.variables course.new.term deed) course.new.view) }
    ensures stops { IfErr result (λ stop. Stops stop (first_done core.now (value_in scene.now course.old.variables) course.old.variables course.old.term course.old.view)) }
    ensures count { course.new.count ≡ course.old.count }
{
    match course.term.head() {
        Head::Do(statement) => Ok(do_stat(alloc, core, scene, statement, course)?),
        Head::Loop(line, test, block) => {
            test_loop(alloc, scene, line, test, block, course)?;
            Ok(Deed::Goes)
        }
        Head::Walk => {
            course.term.walk(alloc, &mut course.variables)?;
            Ok(Deed::Goes)
        }
        Head::End => unreachable!(),
    }
}
