//! How many instructions the parts of statements have.

ghost use Rattle.std.specs.Prelude.{◌≡◌, ◌+◌, IfOk, [], ◌∷◌};
ghost use Rattle.chi_core.specs.declared.communication.CComm.TheVariants as comm;
ghost use Rattle.chi_code.specs.Aims as aims;
ghost use Rattle.chi_code.specs.Sizes as sizes;

use crate::adding::plus;
use crate::measure::{size_of, sizes_of};
use chi_base::{Items, NoMemory};
use chi_core::{CComm, CElem, CExpr, CStep, CTarget};

fn step_indexes_of(step: &CStep) -> Result<u64, NoMemory>
    ensures { IfOk result (λ n. n ≡ sizes.sizes (aims.step_indexes (step.now ∷ []))) }
{
    match step {
        CStep::Index(e) => size_of(e),
        CStep::Part(_) => Ok(0),
    }
}

#[tactic(auto, using(crate::proofs::MeasuredParts::step_indexes_next))]
fn steps_indexes_of(steps: &[CStep]) -> Result<u64, NoMemory>
    ensures { IfOk result (λ n. n ≡ sizes.sizes (aims.step_indexes steps.now)) }
{
    let mut count = 0;
    for step in steps {
        count = plus(count, step_indexes_of(step)?)?;
    }
    Ok(count)
}

fn target_indexes_of(target: &CTarget) -> Result<u64, NoMemory>
    ensures { IfOk result (λ n. n ≡ sizes.sizes (aims.step_indexes target.now.steps)) }
{
    steps_indexes_of(target.steps.as_slice())
}

#[tactic(auto, using(crate::proofs::MeasuredParts::indexes_next))]
fn indexes_of(targets: &[CTarget]) -> Result<u64, NoMemory>
    ensures { IfOk result (λ n. n ≡ sizes.sizes (aims.indexes_of targets.now)) }
{
    let mut count = 0;
    for target in targets {
        count = plus(count, target_indexes_of(target)?)?;
    }
    Ok(count)
}

fn some_indexes_of(target: &Option<CTarget>) -> Result<u64, NoMemory>
    ensures { IfOk result (λ n. n ≡ sizes.sizes (aims.some_indexes target.now)) }
{
    match target {
        None => Ok(0),
        Some(target) => target_indexes_of(target),
    }
}

fn step_into_of(step: &CStep) -> Result<u64, NoMemory>
    ensures { IfOk result (λ n. n ≡ sizes.into_size (step.now ∷ [])) }
{
    match step {
        CStep::Index(e) => plus(size_of(e)?, 1),
        CStep::Part(_) => Ok(1),
    }
}

#[tactic(auto, using(crate::proofs::MeasuredParts::into_next))]
fn into_of(steps: &[CStep]) -> Result<u64, NoMemory>
    ensures { IfOk result (λ n. n ≡ sizes.into_size steps.now) }
{
    let mut count = 0;
    for step in steps {
        count = plus(count, step_into_of(step)?)?;
    }
    Ok(count)
}

fn read_of(target: &CTarget) -> Result<u64, NoMemory>
    ensures { IfOk result (λ n. n ≡ sizes.read_size target.now) }
{
    plus(into_of(target.steps.as_slice())?, 1)
}

pub(crate) fn guard_of(guard: &Option<CExpr>) -> Result<u64, NoMemory>
    ensures { IfOk result (λ n. n ≡ sizes.guard_size guard.now) }
{
    match guard {
        None => Ok(0),
        Some(g) => plus(size_of(g)?, 1),
    }
}

pub(crate) fn exit_of(value: &Option<CExpr>) -> Result<u64, NoMemory>
    ensures { IfOk result (λ n. n ≡ sizes.exit_size value.now) }
{
    match value {
        None => Ok(2),
        Some(e) => plus(size_of(e)?, 2),
    }
}

fn send_of(target: &CTarget, value: &Option<CExpr>) -> Result<u64, NoMemory>
    ensures { IfOk result (λ n. n ≡ sizes.comm_size (comm.Send target.now value.now)) }
{
    match value {
        None => plus(read_of(target)?, 1),
        Some(e) => {
            let first = plus(read_of(target)?, 1)?;
            plus(first, size_of(e)?)
        }
    }
}

pub(crate) fn comm_of(comm: &CComm) -> Result<u64, NoMemory>
    ensures { IfOk result (λ n. n ≡ sizes.comm_size comm.now) }
{
    match comm {
        CComm::Send(target, value) => send_of(target, value),
        CComm::Receive(target, _) => plus(read_of(target)?, 1),
        CComm::Delay(e) => plus(size_of(e)?, 1),
        CComm::Timer(e) => plus(size_of(e)?, 1),
    }
}

/// Whether the values of an assignment are one tuple for several targets.
#[tactic(auto, using(crate::proofs::MeasuredParts::spread_by, crate::proofs::MeasuredParts::no_spread_by))]
pub fn is_spread(targets: &Items<CTarget>, es: &Items<CExpr>) -> bool
    ensures { result ≡ aims.is_spread targets.now es.now }
{
    targets.as_slice().len() >= 2 && es.as_slice().len() == 1
}

#[tactic(auto, using(crate::proofs::MeasuredParts::spread_sizes))]
fn spread_of(targets: &Items<CTarget>, es: &Items<CExpr>) -> u64
    ensures { result ≡ sizes.spread_size targets.now es.now }
{
    if is_spread(targets, es) { 1 } else { 0 }
}

pub(crate) fn assign_of(targets: &Items<CTarget>, es: &Items<CExpr>) -> Result<u64, NoMemory>
    ensures { IfOk result (λ n. n ≡ sizes.sizes es.now + sizes.spread_size targets.now es.now + sizes.sizes (aims.indexes_of targets.now) + 2) }
{
    let values = plus(sizes_of(es)?, spread_of(targets, es))?;
    let indexes = plus(indexes_of(targets.as_slice())?, 2)?;
    plus(values, indexes)
}

fn make_of(target: &Option<CTarget>, es: &Items<CExpr>) -> Result<u64, NoMemory>
    ensures { IfOk result (λ n. n ≡ sizes.sizes es.now + sizes.sizes (aims.some_indexes target.now) + 1) }
{
    let first = plus(sizes_of(es)?, 1)?;
    plus(first, some_indexes_of(target)?)
}

#[cycle(element_of)]
#[tactic(auto, using(crate::proofs::MeasuredParts::size_make, crate::proofs::MeasuredParts::size_unwind))]
fn element_of(x: &CElem) -> Result<u64, NoMemory>
    ensures { IfOk result (λ n. n ≡ sizes.element_size x.now) }
{
    match x {
        CElem::Make(target, _, es) => make_of(target, es),
        CElem::Unwind(_, e, elements) => {
            let first = plus(size_of(e)?, 3)?;
            plus(first, elements_of(elements.as_slice())?)
        }
    }
}

/// Of elements, one after another.
#[cycle(element_of)]
#[tactic(auto, using(crate::proofs::Measures::total_next))]
pub(crate) fn elements_of(xs: &[CElem]) -> Result<u64, NoMemory>
    ensures { IfOk result (λ n. n ≡ sizes.elements_size xs.now) }
{
    let mut count = 0;
    for x in xs {
        count = plus(count, element_of(x)?)?;
    }
    Ok(count)
}
