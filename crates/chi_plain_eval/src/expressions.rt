//! Expressions, with calls of functions.

ghost use Rattle.std.specs.Prelude.{◌≡◌, ◌≢◌, Err, IfOk, IfErr, OnOk, map};
ghost use Rattle.chi_core.specs.Answer.{Gives, Amiss, in_turn};
ghost use Rattle.chi_core_frame.specs.Alike.{AreAlikeBut};
ghost use Rattle.chi_plain_eval.specs.Calls.{meaning};
ghost use Rattle.chi_core_frame.specs.Stops.{Stops};

use crate::bodies::call_with;
use crate::here::Here;
use crate::inserting::{InsertBy, insert_by, insert_off};
use crate::literals::{build, repeat_each};
use crate::operators::{operate, operate_off, part, second_where};
use crate::surroundings::constant;
use chi_core::{CExpr, View};
use chi_core_frame::{Stop, Variables, copy_of, fresh_of};
use chi_value::Value;

/// The value of an expression.
#[cycle(eval)]
pub fn eval(
    e: &CExpr,
    here: &Here<'_>,
    variables: &Variables,
    view: &mut View,
) -> Result<Value, Stop>
    requires { meaning here.now variables.now e.now view.old ≢ Amiss }
    ensures value { IfOk result (λ v. meaning here.now variables.now e.now view.old ≡ Gives v view.new) }
    ensures stops { IfErr result (λ stop. Stops stop (meaning here.now variables.now e.now view.old)) }
{
    match here.room.deeper() {
        Some(room) => {
            let inner = Here {
                alloc: here.alloc,
                surroundings: here.surroundings,
                room,
            };
            eval_within(e, &inner, variables, view)
        }
        None => Err(Stop::NoMemory),
    }
}

// The same, with the headroom of the expressions within it.
#[cycle(eval)]
#[inline(always)]
#[tactic(auto, using(crate::proofs::Standing::standing), unfolding(chi_core::specs::Evaluation::eval))]
fn eval_within(
    e: &CExpr,
    here: &Here<'_>,
    variables: &Variables,
    view: &mut View,
) -> Result<Value, Stop>
    requires { meaning here.now variables.now e.now view.old ≢ Amiss }
    ensures value { IfOk result (λ v. meaning here.now variables.now e.now view.old ≡ Gives v view.new) }
    ensures stops { IfErr result (λ stop. Stops stop (meaning here.now variables.now e.now view.old)) }
{
    match e {
        CExpr::Lit(value) => copy_of(here.alloc, value),
        CExpr::Var(slot) => copy_of(here.alloc, variables.get(*slot)),
        CExpr::Const(number) => copy_of(here.alloc, constant(here.surroundings, *number)),
        CExpr::Op(name, parts) => { operate(parts.as_slice(), here, *name, variables, view) }
        CExpr::And(a, b) => second_where(a.get(), here, b.get(), true, variables, view),
        CExpr::Or(a, b) => second_where(a.get(), here, b.get(), false, variables, view),
        CExpr::Build(kind, parts) => { build(parts.as_slice(), here, *kind, variables, view) }
        CExpr::Part(a, number) => part(a.get(), here, *number, variables, view),
        CExpr::Call(number, parts) => {
            call_with(parts.as_slice(), here, *number, variables, view)
        }
        CExpr::InsertBy(a, b, number) => {
            let parts = InsertBy {
                list: a.get(),
                element: b.get(),
                function: *number,
            };
            insert_by(&parts, here, variables, view)
        }
        CExpr::Default(shape) => fresh_of(here.alloc, shape, view),
        CExpr::Repeat(count, each) => {
            repeat_each(count.get(), here, each.get(), variables, view)
        }
    }
}

/// As eval, where the value of a variable is let go of once all is there of which an operator or an insertion makes
/// something: what has a copy of it, and else shares it with nobody, changes where it is.
#[cycle(eval)]
#[tactic(auto, using(crate::proofs::Standing::standing), unfolding(chi_core::specs::Evaluation::eval))]
pub fn eval_off(
    e: &CExpr,
    here: &Here<'_>,
    slot: u32,
    variables: &mut Variables,
    view: &mut View,
) -> Result<Value, Stop>
    requires { meaning here.now variables.old e.now view.old ≢ Amiss }
    ensures value { IfOk result (λ v. meaning here.now variables.old e.now view.old ≡ Gives v view.new) }
    ensures stops { IfErr result (λ stop. Stops stop (meaning here.now variables.old e.now view.old)) }
    ensures alike { OnOk result (AreAlikeBut slot variables.old variables.new) }
    ensures kept { result ≡ Err Stop.Spent → variables.new ≡ variables.old }
{
    match e {
        CExpr::Op(name, parts) => {
            let operands = parts.as_slice();
            operate_off(operands, here, *name, slot, variables, view)
        }
        CExpr::InsertBy(a, b, number) => {
            let list = a.get();
            let element = b.get();
            let parts = InsertBy {
                list,
                element,
                function: *number,
            };
            insert_off(&parts, here, slot, variables, view)
        }
        _ => eval(e, here, variables, view),
    }
}

/// The values of expressions, from left to right.
#[cycle(eval)]
#[tactic(auto, using(chi_core_frame::proofs::Stopping::stopping))]
pub fn eval_all(
    parts: &[CExpr],
    here: &Here<'_>,
    variables: &Variables,
    view: &mut View,
) -> Result<Vec<Value>, Stop>
    requires { in_turn (map (meaning here.now variables.now) parts.now) view.old ≢ Amiss }
    ensures values { IfOk result (λ vs. in_turn (map (meaning here.now variables.now) parts.now) view.old ≡ Gives vs.items view.new) }
    ensures stops { IfErr result (λ stop. Stops stop (in_turn (map (meaning here.now variables.now) parts.now) view.old)) }
{
    let mut values = Vec::new(here.alloc);
    for part in parts {
        let value = eval(part, here, variables, view)?;
        values.push(value)?;
    }
    Ok(values)
}
