//! Statements without blocks, and calls of models.

ghost use Rattle.std.specs.Prelude.{◌≡◌, ◌≢◌, [], IfErr, IfOk, OnOk, drop};
ghost use Rattle.chi_core.specs.declared.statement.CStat.{out-CStat};
ghost use Rattle.chi_core.specs.Answer.{Amiss, Gives, then_do};
ghost use Rattle.chi_core.specs.Performing.{written};
ghost use Rattle.chi_core.specs.Terms as terms;
ghost use Rattle.chi_core.specs.Terms.{act_stat};
ghost use Rattle.chi_core_frame.specs.Stops.{Stops};
ghost use Rattle.chi_plain_eval.specs.Surroundings.{value_in};
ghost use Rattle.chi_xper.specs.Deeds.{did_of, is_alone};
ghost use Rattle.chi_xper.specs.Items.{calling, done_line, lined};

use crate::course::Course;
use crate::deed::{Call, Deed};
use chi_core::{CExpr, CStat, CTarget, Core, FaultKind, View};
use chi_core_frame::{self as frame, Stop, Variables};
use chi_format::{RenderFault, render, rendered_where_allowed};
use chi_plain_eval::{Surroundings, act, spot_of, values_of};
use chi_value::Piece;
use std::alloc::Global;
use std::slice;

/// The text of a format's pieces with the values of expressions.
#[tactic(auto, using(chi_core_frame::proofs::Stopping::stopping))]
fn written(
    alloc: Global,
    core: &Core,
    scene: &Surroundings<'_>,
    variables: &Variables,
    pieces: &[Piece],
    values: &[CExpr],
    view: &mut View,
) -> Result<Vec<u8>, Stop>
    requires { written core.now (value_in scene.now variables.now) pieces.now values.now view.old ≢ Amiss }
    ensures text { IfOk result (λ text. written core.now (value_in scene.now variables.now) pieces.now values.now view.old ≡ Gives text.items view.new) }
    ensures stops { IfErr result (λ stop. Stops stop (written core.now (value_in scene.now variables.now) pieces.now values.now view.old)) }
{
    rendered_where_allowed();
    let values = values_of(alloc, scene, variables, values, view)?;
    match render(alloc, pieces, values.as_slice(), &core.names) {
        Ok(text) => Ok(text),
        Err(RenderFault::Limit) => Err(Stop::Fault(FaultKind::TooLarge)),
        Err(RenderFault::NoMemory) => Err(Stop::NoMemory),
    }
}

/// A statement that functions have too.
#[tactic(auto, using(crate::proofs::Single::sharing))]
fn act_alone(
    alloc: Global,
    scene: &Surroundings<'_>,
    variables: &mut Variables,
    statement: &CStat,
    view: &mut View,
) -> Result<(), Stop>
    requires { then_do (act_stat (value_in scene.now variables.old) variables.old (out-CStat statement.now) ([]) view.old) (lined ([])) ≢ Amiss }
    ensures goes { OnOk result (act_stat (value_in scene.now variables.old) variables.old (out-CStat statement.now) ([]) view.old ≡ Gives (terms.On variables.new []) view.new) }
    ensures stops { IfErr result (λ stop. Stops stop (act_stat (value_in scene.now variables.old) variables.old (out-CStat statement.now) ([]) view.old)) }
{
    let mut term = frame::Term::new(alloc, slice::from_ref(statement))?;
    match act(alloc, scene, variables, &mut term, view)? {
        None => {
            if term.is_empty() {
                Ok(())
            } else {
                unreachable!()
            }
        }
        Some(_) => unreachable!(),
    }
}

/// Whether a statement is done as where nothing else is left.
fn is_alone(statement: &CStat) -> bool
    ensures { result ≡ is_alone (out-CStat statement.now) }
{
    match statement {
        CStat::Break(_) | CStat::Continue(_) | CStat::Write(_, _, _) => false,
        CStat::Declare(_, _, _)
        | CStat::Assign(_, _, _)
        | CStat::If(_, _, _)
        | CStat::While(_, _, _)
        | CStat::For(_, _, _, _)
        | CStat::Pass(_)
        | CStat::Return(_, _)
        | CStat::Exit(_, _)
        | CStat::Select(_, _)
        | CStat::Run(_, _)
        | CStat::Start(_, _)
        | CStat::Finish(_, _) => true,
    }
}

/// A statement without blocks, which stands first.
#[tactic(auto, using(chi_core_frame::proofs::Stopping::stopping, crate::proofs::Single::lines))]
pub fn do_line(
    alloc: Global,
    core: &Core,
    scene: &Surroundings<'_>,
    statement: &CStat,
    course: &mut Course<'_>,
) -> Result<Deed, Stop>
    requires { done_line core.now (value_in scene.now course.old.variables) course.old.variables (out-CStat statement.now) (drop 1 course.old.term) course.old.view ≢ Amiss }
    ensures done { IfOk result (λ deed. done_line core.now (value_in scene.now course.old.variables) course.old.variables (out-CStat statement.now) (drop 1 course.old.term) course.old.view ≡ Gives (did_of course.new.variables course.new.term deed) course.new.view) }
    ensures stops { IfErr result (λ stop. Stops stop (done_line core.now (value_in scene.now course.old.variables) course.old.variables (out-CStat statement.now) (drop 1 course.old.term) course.old.view)) }
    ensures count { course.new.count ≡ course.old.count }
{
    if is_alone(statement) {
        act_alone(
            alloc,
            scene,
            &mut course.variables,
            statement,
            &mut course.view,
        )?;
        course.term.drop_first();
        return Ok(Deed::Goes);
    }
    match statement {
        CStat::Break(_) => {
            course.term.drop_first();
            course.term.leave_loop();
            Ok(Deed::Goes)
        }
        CStat::Continue(_) => {
            course.term.drop_first();
            course.term.back_to_loop();
            Ok(Deed::Goes)
        }
        CStat::Write(_, pieces, values) => {
            let shown = pieces.as_slice();
            let text = written(
                alloc,
                core,
                scene,
                &course.variables,
                shown,
                values.as_slice(),
                &mut course.view,
            )?;
            course.term.drop_first();
            Ok(Deed::Writes(text))
        }
        CStat::Declare(_, _, _)
        | CStat::Assign(_, _, _)
        | CStat::If(_, _, _)
        | CStat::While(_, _, _)
        | CStat::For(_, _, _, _)
        | CStat::Pass(_)
        | CStat::Return(_, _)
        | CStat::Exit(_, _)
        | CStat::Select(_, _)
        | CStat::Run(_, _)
        | CStat::Start(_, _)
        | CStat::Finish(_, _) => unreachable!(),
    }
}

/// The call of a model, which stands first: the arguments, and then the target's indexes.
#[tactic(auto, using(chi_core_frame::proofs::Stopping::stopping, crate::proofs::Single::calls_models))]
pub fn call(
    alloc: Global,
    scene: &Surroundings<'_>,
    target: &CTarget,
    model: u32,
    arguments: &[CExpr],
    widen: bool,
    course: &mut Course<'_>,
) -> Result<Deed, Stop>
    requires { calling (value_in scene.now course.old.variables) course.old.variables target.now model arguments.now widen (drop 1 course.old.term) course.old.view ≢ Amiss }
    ensures done { IfOk result (λ deed. calling (value_in scene.now course.old.variables) course.old.variables target.now model arguments.now widen (drop 1 course.old.term) course.old.view ≡ Gives (did_of course.new.variables course.new.term deed) course.new.view) }
    ensures stops { IfErr result (λ stop. Stops stop (calling (value_in scene.now course.old.variables) course.old.variables target.now model arguments.now widen (drop 1 course.old.term) course.old.view)) }
    ensures count { course.new.count ≡ course.old.count }
{
    let arguments = values_of(alloc, scene, &course.variables, arguments, &mut course.view)?;
    let spot = spot_of(alloc, scene, &course.variables, target, &mut course.view)?;
    course.term.drop_first();
    Ok(Deed::Calls(Call {
        model,
        arguments,
        spot,
        widen,
    }))
}
