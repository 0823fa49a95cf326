//! Calls of functions, and their bodies.

ghost use Rattle.std.specs.Prelude.{◌≡◌, ◌≢◌, IfOk, IfErr, map};
ghost use Rattle.chi_core.specs.Answer.{Gives, Amiss, in_turn, then_do};
ghost use Rattle.chi_core.specs.Functions.{exec};
ghost use Rattle.chi_core.specs.Terms.{Do};
ghost use Rattle.chi_plain_eval.specs.Calls.{meaning, run_by};
ghost use Rattle.chi_core_frame.specs.Stops.{Stops};
ghost use Rattle.chi_plain_eval.specs.Surroundings.{scene_in};

use crate::calls::Calls;
use crate::expressions::eval_all;
use crate::here::Here;
use crate::items::act;
use crate::surroundings::function;
use chi_core::{CExpr, CStat, FaultKind, View};
use chi_core_frame::{Stop, Term, Variables};
use chi_value::Value;

/// A call of a function, whose arguments are evaluated from left to right.
#[cycle(eval)]
#[tactic(auto, using(chi_core_frame::proofs::Stopping::stopping, crate::proofs::Operating::gathering))]
pub fn call_with(
    parts: &[CExpr],
    here: &Here<'_>,
    number: u32,
    variables: &Variables,
    view: &mut View,
) -> Result<Value, Stop>
    requires { then_do (in_turn (map (meaning here.now variables.now) parts.now) view.old) (run_by here.now number) ≢ Amiss }
    ensures value { IfOk result (λ v. then_do (in_turn (map (meaning here.now variables.now) parts.now) view.old) (run_by here.now number) ≡ Gives v view.new) }
    ensures stops { IfErr result (λ stop. Stops stop (then_do (in_turn (map (meaning here.now variables.now) parts.now) view.old) (run_by here.now number))) }
{
    let arguments = eval_all(parts, here, variables, view)?;
    call(number, arguments, here, view)
}

/// A call of a function.
#[cycle(eval)]
#[tactic(auto, using(chi_core_frame::proofs::Stopping::stopping, crate::proofs::Turns::calling))]
pub fn call(
    number: u32,
    arguments: Vec<Value>,
    here: &Here<'_>,
    view: &mut View,
) -> Result<Value, Stop>
    requires { run_by here.now number arguments.items view.old ≢ Amiss }
    ensures value { IfOk result (λ v. run_by here.now number arguments.items view.old ≡ Gives v view.new) }
    ensures stops { IfErr result (λ stop. Stops stop (run_by here.now number arguments.items view.old)) }
{
    match here.room.calls {
        Calls::Never => unreachable!(),
        Calls::Within(more) => {
            if more == 0 {
                return Err(Stop::Fault(FaultKind::CallDepth));
            }
            let f = function(here.surroundings, number, arguments.len());
            let mut variables = Variables::new(here.alloc, f.slots.as_slice().len(), arguments)?;
            let body = f.body.as_slice();
            let inner = here.room.within(Calls::Within(more - 1));
            let there = Here {
                alloc: here.alloc,
                surroundings: here.surroundings,
                room: inner,
            };
            run_body(body, &there, &mut variables, view)
        }
    }
}

/// A function's body, item by item.
#[cycle(eval)]
#[tactic(auto, using(chi_core_frame::proofs::Stopping::stopping, crate::proofs::Turns::turns))]
fn run_body(
    body: &[CStat],
    here: &Here<'_>,
    variables: &mut Variables,
    view: &mut View,
) -> Result<Value, Stop>
    requires { exec view.old.left (run_by here.now) (scene_in here.now.surroundings.now) variables.old (map Do body.now) view.old ≢ Amiss }
    ensures value { IfOk result (λ v. exec view.old.left (run_by here.now) (scene_in here.now.surroundings.now) variables.old (map Do body.now) view.old ≡ Gives v view.new) }
    ensures stops { IfErr result (λ stop. Stops stop (exec view.old.left (run_by here.now) (scene_in here.now.surroundings.now) variables.old (map Do body.now) view.old)) }
{
    let mut term = Term::new(here.alloc, body)?;
    for turn in 0..view.left {
        if term.is_empty() {
            return Err(Stop::Fault(FaultKind::NoReturn));
        }
        if view.left == 0 {
            return Err(Stop::Spent);
        }
        view.left -= 1;
        match act(&mut term, here, variables, view)? {
            Some(value) => return Ok(value),
            None => {}
        }
    }
    if term.is_empty() {
        Err(Stop::Fault(FaultKind::NoReturn))
    } else {
        Err(Stop::Spent)
    }
}
