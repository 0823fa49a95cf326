//! The items of terms that functions and processes share.

ghost use Rattle.std.specs.Prelude.{◌≡◌, ◌≢◌, Err, IfOk, IfErr, drop};
ghost use Rattle.chi_core.specs.Answer.{Gives, Amiss};
ghost use Rattle.chi_core.specs.Terms.{act_stat, assigned, chosen, declared, tested, walking};
ghost use Rattle.chi_core.specs.declared.statement.CStat.{out-CStat};
ghost use Rattle.chi_plain_eval.specs.Calls.{meaning};
ghost use Rattle.chi_core_frame.specs.Stops.{Stops};
ghost use Rattle.chi_plain_eval.specs.Terms.{act_first, came_to};

use crate::expressions::{eval, eval_all};
use crate::here::Here;
use crate::places::spots_of;
use crate::reading::truth_of;
use crate::setting::{parted_of, set_each, set_to, whole_of};
use chi_core::{Branch, CExpr, CStat, CTarget, View};
use chi_core_frame::{Elements, Head, Stop, Term, Variables, spread, store_each};
use chi_value::Value;

/// The parts of a `while`.
#[derive(Clone, Copy)]
struct While<'a> {
    line: u32,
    test: &'a CExpr,
    block: &'a [CStat],
}

/// The parts of a `for`.
#[derive(Clone, Copy)]
struct For<'a> {
    line: u32,
    slots: &'a [u32],
    over: &'a CExpr,
    block: &'a [CStat],
}

/// The first item of a term.
#[cycle(eval)]
#[tactic(auto, using(chi_core_frame::proofs::Stopping::stopping, crate::proofs::Turns::acts, crate::proofs::Acting::walks))]
pub fn act<'a>(
    term: &mut Term<'a>,
    here: &Here<'_>,
    variables: &mut Variables,
    view: &mut View,
) -> Result<Option<Value>, Stop>
    requires { act_first (meaning here.now variables.old) variables.old term.old view.old ≢ Amiss }
    ensures value { IfOk result (λ r. act_first (meaning here.now variables.old) variables.old term.old view.old ≡ Gives (came_to r variables.new term.new) view.new) }
    ensures stops { IfErr result (λ stop. Stops stop (act_first (meaning here.now variables.old) variables.old term.old view.old)) }
    ensures kept { result ≡ Err Stop.Spent → (variables.new ≡ variables.old) × (term.new ≡ term.old) }
{
    match term.head() {
        Head::Do(statement) => act_on(statement, here, term, variables, view),
        Head::Loop(line, test, block) => {
            let parts = While { line, test, block };
            test_loop(&parts, here, term, variables, view)
        }
        Head::Walk => {
            term.walk(here.alloc, variables)?;
            Ok(None)
        }
        Head::End => unreachable!(),
    }
}

/// A statement, which stands first.
#[cycle(eval)]
#[tactic(auto, using(chi_core_frame::proofs::Stopping::stopping, crate::proofs::Acting::acting))]
fn act_on<'a>(
    statement: &'a CStat,
    here: &Here<'_>,
    term: &mut Term<'a>,
    variables: &mut Variables,
    view: &mut View,
) -> Result<Option<Value>, Stop>
    requires { act_stat (meaning here.now variables.old) variables.old (out-CStat statement.now) (drop 1 term.old) view.old ≢ Amiss }
    ensures value { IfOk result (λ r. act_stat (meaning here.now variables.old) variables.old (out-CStat statement.now) (drop 1 term.old) view.old ≡ Gives (came_to r variables.new term.new) view.new) }
    ensures stops { IfErr result (λ stop. Stops stop (act_stat (meaning here.now variables.old) variables.old (out-CStat statement.now) (drop 1 term.old) view.old)) }
    ensures kept { result ≡ Err Stop.Spent → (variables.new ≡ variables.old) × (term.new ≡ term.old) }
{
    match statement {
        CStat::Declare(_, slot, e) => { declare(e, here, *slot, term, variables, view) }
        CStat::Assign(_, targets, values) => {
            let places = targets.as_slice();
            let expressions = values.as_slice();
            assign(expressions, here, places, term, variables, view)
        }
        CStat::If(_, branches, otherwise) => {
            let tests = branches.as_slice();
            let last = otherwise.as_slice();
            choose(tests, here, last, term, variables, view)
        }
        CStat::While(line, test, block) => {
            let turn = block.as_slice();
            let parts = While {
                line: *line,
                test,
                block: turn,
            };
            test_loop(&parts, here, term, variables, view)
        }
        CStat::For(line, slots, e, block) => {
            let names = slots.as_slice();
            let turn = block.as_slice();
            let parts = For {
                line: *line,
                slots: names,
                over: e,
                block: turn,
            };
            begin_walk(&parts, here, term, variables, view)
        }
        CStat::Break(_) => {
            term.drop_first();
            term.leave_loop();
            Ok(None)
        }
        CStat::Continue(_) => {
            term.drop_first();
            term.back_to_loop();
            Ok(None)
        }
        CStat::Pass(_) => {
            term.drop_first();
            Ok(None)
        }
        CStat::Return(_, e) => Ok(Some(eval(e, here, variables, view)?)),
        CStat::Exit(_, _) => unreachable!(),
        CStat::Write(_, _, _) => unreachable!(),
        CStat::Select(_, _) => unreachable!(),
        CStat::Run(_, _) => unreachable!(),
        CStat::Start(_, _) => unreachable!(),
        CStat::Finish(_, _) => unreachable!(),
    }
}

/// A declaration, which stands first.
#[cycle(eval)]
#[tactic(auto, using(chi_core_frame::proofs::Stopping::stopping, crate::proofs::Wholes::declaring))]
fn declare(
    e: &CExpr,
    here: &Here<'_>,
    slot: u32,
    term: &mut Term<'_>,
    variables: &mut Variables,
    view: &mut View,
) -> Result<Option<Value>, Stop>
    requires { declared (meaning here.now variables.old) variables.old slot e.now (drop 1 term.old) view.old ≢ Amiss }
    ensures value { IfOk result (λ r. declared (meaning here.now variables.old) variables.old slot e.now (drop 1 term.old) view.old ≡ Gives (came_to r variables.new term.new) view.new) }
    ensures stops { IfErr result (λ stop. Stops stop (declared (meaning here.now variables.old) variables.old slot e.now (drop 1 term.old) view.old)) }
    ensures kept { result ≡ Err Stop.Spent → (variables.new ≡ variables.old) × (term.new ≡ term.old) }
{
    set_to(e, here, slot, variables, view)?;
    term.drop_first();
    Ok(None)
}

/// A walk over a container, whose statement stands first.
#[cycle(eval)]
#[tactic(auto, using(chi_core_frame::proofs::Stopping::stopping, crate::proofs::Acting::beginning))]
fn begin_walk<'a>(
    parts: &For<'a>,
    here: &Here<'_>,
    term: &mut Term<'a>,
    variables: &Variables,
    view: &mut View,
) -> Result<Option<Value>, Stop>
    requires { walking (meaning here.now variables.now) variables.now parts.now.line parts.now.slots.now parts.now.over.now parts.now.block.now (drop 1 term.old) view.old ≢ Amiss }
    ensures value { IfOk result (λ r. walking (meaning here.now variables.now) variables.now parts.now.line parts.now.slots.now parts.now.over.now parts.now.block.now (drop 1 term.old) view.old ≡ Gives (came_to r variables.now term.new) view.new) }
    ensures stops { IfErr result (λ stop. Stops stop (walking (meaning here.now variables.now) variables.now parts.now.line parts.now.slots.now parts.now.over.now parts.now.block.now (drop 1 term.old) view.old)) }
    ensures kept { result ≡ Err Stop.Spent → term.new ≡ term.old }
{
    let container = eval(parts.over, here, variables, view)?;
    term.drop_first();
    term.put_walk(
        parts.line,
        parts.slots,
        Elements::of(container),
        parts.block,
    )?;
    Ok(None)
}

/// The test of a loop, whose statement or turn stands first.
#[cycle(eval)]
#[tactic(auto, using(chi_core_frame::proofs::Stopping::stopping, crate::proofs::Acting::testing))]
fn test_loop<'a>(
    parts: &While<'a>,
    here: &Here<'_>,
    term: &mut Term<'a>,
    variables: &Variables,
    view: &mut View,
) -> Result<Option<Value>, Stop>
    requires { tested (meaning here.now variables.now) variables.now parts.now.line parts.now.test.now parts.now.block.now (drop 1 term.old) view.old ≢ Amiss }
    ensures value { IfOk result (λ r. tested (meaning here.now variables.now) variables.now parts.now.line parts.now.test.now parts.now.block.now (drop 1 term.old) view.old ≡ Gives (came_to r variables.now term.new) view.new) }
    ensures stops { IfErr result (λ stop. Stops stop (tested (meaning here.now variables.now) variables.now parts.now.line parts.now.test.now parts.now.block.now (drop 1 term.old) view.old)) }
    ensures kept { result ≡ Err Stop.Spent → term.new ≡ term.old }
{
    let value = eval(parts.test, here, variables, view)?;
    term.drop_first();
    if truth_of(value) {
        term.put_loop(parts.line, parts.test, parts.block)?;
        term.put_first(parts.block)?;
        Ok(None)
    } else {
        Ok(None)
    }
}

/// The branches of an `if`, whose statement stands first.
#[cycle(eval)]
#[tactic(auto, using(chi_core_frame::proofs::Stopping::stopping, crate::proofs::Choosing::choosing))]
fn choose<'a>(
    branches: &'a [Branch],
    here: &Here<'_>,
    otherwise: &'a [CStat],
    term: &mut Term<'a>,
    variables: &Variables,
    view: &mut View,
) -> Result<Option<Value>, Stop>
    requires { chosen (meaning here.now variables.now) variables.now branches.now otherwise.now (drop 1 term.old) view.old ≢ Amiss }
    ensures value { IfOk result (λ r. chosen (meaning here.now variables.now) variables.now branches.now otherwise.now (drop 1 term.old) view.old ≡ Gives (came_to r variables.now term.new) view.new) }
    ensures stops { IfErr result (λ stop. Stops stop (chosen (meaning here.now variables.now) variables.now branches.now otherwise.now (drop 1 term.old) view.old)) }
    ensures kept { result ≡ Err Stop.Spent → term.new ≡ term.old }
{
    for branch in branches {
        let holds = eval(&branch.test, here, variables, view)?;
        if truth_of(holds) {
            term.drop_first();
            term.put_first(branch.block.as_slice())?;
            return Ok(None);
        }
    }
    term.drop_first();
    term.put_first(otherwise)?;
    Ok(None)
}

/// An assignment, which stands first: the values, spread over the targets, then the targets' indexes,
/// then the stores.
#[cycle(eval)]
#[tactic(auto, using(chi_core_frame::proofs::Stopping::stopping, crate::proofs::Wholes::assigning))]
fn assign(
    values: &[CExpr],
    here: &Here<'_>,
    targets: &[CTarget],
    term: &mut Term<'_>,
    variables: &mut Variables,
    view: &mut View,
) -> Result<Option<Value>, Stop>
    requires { assigned (meaning here.now variables.old) variables.old targets.now values.now (drop 1 term.old) view.old ≢ Amiss }
    ensures value { IfOk result (λ r. assigned (meaning here.now variables.old) variables.old targets.now values.now (drop 1 term.old) view.old ≡ Gives (came_to r variables.new term.new) view.new) }
    ensures stops { IfErr result (λ stop. Stops stop (assigned (meaning here.now variables.old) variables.old targets.now values.now (drop 1 term.old) view.old)) }
    ensures kept { result ≡ Err Stop.Spent → (variables.new ≡ variables.old) × (term.new ≡ term.old) }
{
    match whole_of(targets, values) {
        Some((slot, e)) => {
            set_to(e, here, slot, variables, view)?;
            term.drop_first();
            Ok(None)
        }
        None => assign_several(values, here, targets, term, variables, view),
    }
}

/// An assignment, which stands first, to several targets or to parts of variables.
#[cycle(eval)]
#[tactic(auto, using(chi_core_frame::proofs::Stopping::stopping, crate::proofs::Released::assigning))]
fn assign_several(
    values: &[CExpr],
    here: &Here<'_>,
    targets: &[CTarget],
    term: &mut Term<'_>,
    variables: &mut Variables,
    view: &mut View,
) -> Result<Option<Value>, Stop>
    requires { assigned (meaning here.now variables.old) variables.old targets.now values.now (drop 1 term.old) view.old ≢ Amiss }
    ensures value { IfOk result (λ r. assigned (meaning here.now variables.old) variables.old targets.now values.now (drop 1 term.old) view.old ≡ Gives (came_to r variables.new term.new) view.new) }
    ensures stops { IfErr result (λ stop. Stops stop (assigned (meaning here.now variables.old) variables.old targets.now values.now (drop 1 term.old) view.old)) }
    ensures kept { result ≡ Err Stop.Spent → (variables.new ≡ variables.old) × (term.new ≡ term.old) }
{
    match parted_of(targets, values) {
        Some((slot, e)) => {
            set_each(e, here, slot, targets, variables, view)?;
            term.drop_first();
            Ok(None)
        }
        None => assign_all(values, here, targets, term, variables, view),
    }
}

/// An assignment, which stands first, of any values to any targets.
#[cycle(eval)]
#[tactic(auto, using(chi_core_frame::proofs::Stopping::stopping, crate::proofs::Assigned::assigning))]
fn assign_all(
    values: &[CExpr],
    here: &Here<'_>,
    targets: &[CTarget],
    term: &mut Term<'_>,
    variables: &mut Variables,
    view: &mut View,
) -> Result<Option<Value>, Stop>
    requires { assigned (meaning here.now variables.old) variables.old targets.now values.now (drop 1 term.old) view.old ≢ Amiss }
    ensures value { IfOk result (λ r. assigned (meaning here.now variables.old) variables.old targets.now values.now (drop 1 term.old) view.old ≡ Gives (came_to r variables.new term.new) view.new) }
    ensures stops { IfErr result (λ stop. Stops stop (assigned (meaning here.now variables.old) variables.old targets.now values.now (drop 1 term.old) view.old)) }
    ensures kept { result ≡ Err Stop.Spent → (variables.new ≡ variables.old) × (term.new ≡ term.old) }
{
    let given = eval_all(values, here, variables, view)?;
    let each = spread(here.alloc, targets, given)?;
    let spots = spots_of(targets, here, variables, view)?;
    store_each(here.alloc, spots, each, variables, view)?;
    term.drop_first();
    Ok(None)
}
