//! The items that have blocks: branches, loops and walks.

ghost use Rattle.std.specs.Prelude.{◌≡◌, ◌≢◌, IfErr, OnOk, drop};
ghost use Rattle.chi_core.specs.Answer.{Amiss, Gives};
ghost use Rattle.chi_core_frame.specs.Stops.{Stops};
ghost use Rattle.chi_plain_eval.specs.Surroundings.{value_in};
ghost use Rattle.chi_xper.specs.Items.{chosen, quietly, tested, walking};

use crate::course::Course;
use chi_core::{CExpr, XBranch, XStat};
use chi_core_frame::{Elements, Stop};
use chi_plain_eval::{Surroundings, truth_in, value_of};
use std::alloc::Global;

/// A walk over a container, whose statement stands first.
#[tactic(auto, using(chi_core_frame::proofs::Stopping::stopping, crate::proofs::Nested::beginning))]
pub fn begin_walk<'a>(
    alloc: Global,
    scene: &Surroundings<'_>,
    line: u32,
    slots: &'a [u32],
    e: &CExpr,
    block: &'a [XStat],
    course: &mut Course<'a>,
) -> Result<(), Stop>
    requires { walking (value_in scene.now course.old.variables) course.old.variables line slots.now e.now block.now (drop 1 course.old.term) course.old.view ≢ Amiss }
    ensures goes { OnOk result (walking (value_in scene.now course.old.variables) course.old.variables line slots.now e.now block.now (drop 1 course.old.term) course.old.view ≡ Gives (quietly course.new.variables course.new.term) course.new.view) }
    ensures stops { IfErr result (λ stop. Stops stop (walking (value_in scene.now course.old.variables) course.old.variables line slots.now e.now block.now (drop 1 course.old.term) course.old.view)) }
    ensures count { course.new.count ≡ course.old.count }
{
    let container = value_of(alloc, scene, &course.variables, e, &mut course.view)?;
    course.term.drop_first();
    course
        .term
        .put_walk(line, slots, Elements::of(container), block)?;
    Ok(())
}

/// The test of a loop, whose statement or turn stands first.
#[tactic(auto, using(chi_core_frame::proofs::Stopping::stopping, crate::proofs::Nested::testing))]
pub fn test_loop<'a>(
    alloc: Global,
    scene: &Surroundings<'_>,
    line: u32,
    test: &'a CExpr,
    block: &'a [XStat],
    course: &mut Course<'a>,
) -> Result<(), Stop>
    requires { tested (value_in scene.now course.old.variables) course.old.variables line test.now block.now (drop 1 course.old.term) course.old.view ≢ Amiss }
    ensures goes { OnOk result (tested (value_in scene.now course.old.variables) course.old.variables line test.now block.now (drop 1 course.old.term) course.old.view ≡ Gives (quietly course.new.variables course.new.term) course.new.view) }
    ensures stops { IfErr result (λ stop. Stops stop (tested (value_in scene.now course.old.variables) course.old.variables line test.now block.now (drop 1 course.old.term) course.old.view)) }
    ensures count { course.new.count ≡ course.old.count }
{
    let value = value_of(alloc, scene, &course.variables, test, &mut course.view)?;
    course.term.drop_first();
    if truth_in(&value) {
        course.term.put_loop(line, test, block)?;
        course.term.put_first(block)?;
    }
    Ok(())
}

/// The branches of an `if`, whose statement stands first.
#[tactic(auto, using(chi_core_frame::proofs::Stopping::stopping, crate::proofs::Choosing::choosing))]
pub fn choose<'a>(
    alloc: Global,
    scene: &Surroundings<'_>,
    branches: &'a [XBranch],
    otherwise: &'a [XStat],
    course: &mut Course<'a>,
) -> Result<(), Stop>
    requires { chosen (value_in scene.now course.old.variables) course.old.variables branches.now otherwise.now (drop 1 course.old.term) course.old.view ≢ Amiss }
    ensures goes { OnOk result (chosen (value_in scene.now course.old.variables) course.old.variables branches.now otherwise.now (drop 1 course.old.term) course.old.view ≡ Gives (quietly course.new.variables course.new.term) course.new.view) }
    ensures stops { IfErr result (λ stop. Stops stop (chosen (value_in scene.now course.old.variables) course.old.variables branches.now otherwise.now (drop 1 course.old.term) course.old.view)) }
    ensures count { course.new.count ≡ course.old.count }
{
    let variables = &course.variables;
    let term = &mut course.term;
    let view = &mut course.view;
    for branch in branches {
        let holds = value_of(alloc, scene, variables, &branch.test, view)?;
        if truth_in(&holds) {
            term.drop_first();
            term.put_first(branch.block.as_slice())?;
            return Ok(());
        }
    }
    term.drop_first();
    term.put_first(otherwise)?;
    Ok(())
}
