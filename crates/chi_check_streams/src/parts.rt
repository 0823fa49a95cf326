//! Targets, communications and elements with their streams. Where memory is refused, what is at hand is let go by
//! calls of `drop`: what goes out of scope where a function returns is laid out part by part in its proof.

ghost use Rattle.std.specs.Prelude.{◌≡◌, map, IfOk, OnOk};
ghost use Rattle.chi_core.specs.declared.communication.CComm.TheVariants as comm;
ghost use Rattle.chi_core.specs.declared.statement.CAlt.TheVariants as alternative;
ghost use Rattle.chi_check_streams.specs.Streams as spec;

use crate::expressions::{expression, expressions};
use chi_base::{Items, NoMemory};
use chi_core::{CAlt, CComm, CElem, CExpr, CStat, CStep, CTarget};
use std::alloc::Global;

fn step(alloc: Global, s: CStep, count: &mut u64) -> Result<CStep, NoMemory>
    ensures part { IfOk result (λ r. r ≡ (spec.of_step s count.old).part) }
    ensures next { OnOk result (count.new ≡ (spec.of_step s count.old).next) }
{
    match s {
        CStep::Index(index) => Ok(CStep::Index(expression(alloc, index, count)?)),
        CStep::Part(number) => Ok(CStep::Part(number)),
    }
}

fn steps(alloc: Global, all: Items<CStep>, count: &mut u64) -> Result<Items<CStep>, NoMemory>
    ensures part { IfOk result (λ r. r ≡ (spec.each (map spec.of_step all) count.old).part) }
    ensures next { OnOk result (count.new ≡ (spec.each (map spec.of_step all) count.old).next) }
{
    let mut done = Vec::new(alloc);
    for part in all.into_vec(alloc)? {
        done.push(step(alloc, part, count)?)?;
    }
    Ok(Items::of(alloc, done)?)
}

pub(crate) fn target(alloc: Global, t: CTarget, count: &mut u64) -> Result<CTarget, NoMemory>
    ensures part { IfOk result (λ r. r ≡ (spec.of_target t count.old).part) }
    ensures next { OnOk result (count.new ≡ (spec.of_target t count.old).next) }
{
    let CTarget { slot, steps: all } = t;
    let steps = steps(alloc, all, count)?;
    Ok(CTarget { slot, steps })
}

pub(crate) fn targets(
    alloc: Global,
    all: Items<CTarget>,
    count: &mut u64,
) -> Result<Items<CTarget>, NoMemory>
    ensures part { IfOk result (λ r. r ≡ (spec.each (map spec.of_target all) count.old).part) }
    ensures next { OnOk result (count.new ≡ (spec.each (map spec.of_target all) count.old).next) }
{
    let mut done = Vec::new(alloc);
    for part in all.into_vec(alloc)? {
        done.push(target(alloc, part, count)?)?;
    }
    Ok(Items::of(alloc, done)?)
}

pub(crate) fn some_expression(
    alloc: Global,
    e: Option<CExpr>,
    count: &mut u64,
) -> Result<Option<CExpr>, NoMemory>
    ensures part { IfOk result (λ r. r ≡ (spec.some spec.of_expression e count.old).part) }
    ensures next { OnOk result (count.new ≡ (spec.some spec.of_expression e count.old).next) }
{
    match e {
        None => Ok(None),
        Some(e) => Ok(Some(expression(alloc, e, count)?)),
    }
}

fn some_target(
    alloc: Global,
    t: Option<CTarget>,
    count: &mut u64,
) -> Result<Option<CTarget>, NoMemory>
    ensures part { IfOk result (λ r. r ≡ (spec.some spec.of_target t count.old).part) }
    ensures next { OnOk result (count.new ≡ (spec.some spec.of_target t count.old).next) }
{
    match t {
        None => Ok(None),
        Some(t) => Ok(Some(target(alloc, t, count)?)),
    }
}

fn sending(
    alloc: Global,
    to: CTarget,
    value: Option<CExpr>,
    count: &mut u64,
) -> Result<CComm, NoMemory>
    ensures part { IfOk result (λ c. c ≡ comm.Send to (spec.some spec.of_expression value count.old).part) }
    ensures next { OnOk result (count.new ≡ (spec.some spec.of_expression value count.old).next) }
{
    match some_expression(alloc, value, count) {
        Ok(value) => Ok(CComm::Send(to, value)),
        Err(refusal) => {
            drop(to);
            Err(refusal)
        }
    }
}

fn communication(alloc: Global, c: CComm, count: &mut u64) -> Result<CComm, NoMemory>
    ensures part { IfOk result (λ r. r ≡ (spec.of_communication c count.old).part) }
    ensures next { OnOk result (count.new ≡ (spec.of_communication c count.old).next) }
{
    match c {
        CComm::Send(to, value) => match target(alloc, to, count) {
            Ok(to) => sending(alloc, to, value, count),
            Err(refusal) => {
                drop(value);
                Err(refusal)
            }
        },
        CComm::Receive(from, slot) => Ok(CComm::Receive(target(alloc, from, count)?, slot)),
        CComm::Delay(length) => Ok(CComm::Delay(expression(alloc, length, count)?)),
        CComm::Timer(timer) => Ok(CComm::Timer(expression(alloc, timer, count)?)),
    }
}

/// A guard, if there is one, and what is offered where it holds.
#[derive(Drop)]
pub(crate) struct Offer {
    guard: Option<CExpr>,
    comm: CComm,
}

fn offering(
    alloc: Global,
    guard: Option<CExpr>,
    comm: CComm,
    count: &mut u64,
) -> Result<Offer, NoMemory>
    ensures guard { IfOk result (λ o. o.guard ≡ guard) }
    ensures comm { IfOk result (λ o. o.comm ≡ (spec.of_communication comm count.old).part) }
    ensures next { OnOk result (count.new ≡ (spec.of_communication comm count.old).next) }
{
    match communication(alloc, comm, count) {
        Ok(comm) => Ok(Offer { guard, comm }),
        Err(refusal) => {
            drop(guard);
            Err(refusal)
        }
    }
}

pub(crate) fn offered(
    alloc: Global,
    guard: Option<CExpr>,
    comm: CComm,
    count: &mut u64,
) -> Result<Offer, NoMemory>
    ensures guard { IfOk result (λ o. o.guard ≡ (spec.some spec.of_expression guard count.old).part) }
    ensures comm { IfOk result (λ o. o.comm ≡ (spec.of_communication comm (spec.some spec.of_expression guard count.old).next).part) }
    ensures next { OnOk result (count.new ≡ (spec.of_communication comm (spec.some spec.of_expression guard count.old).next).next) }
{
    match some_expression(alloc, guard, count) {
        Ok(guard) => offering(alloc, guard, comm, count),
        Err(refusal) => {
            drop(comm);
            Err(refusal)
        }
    }
}

/// The alternative of an offer that is followed by this block.
pub(crate) fn followed(offer: Offer, block: Items<CStat>) -> CAlt
    ensures { result ≡ alternative.Guarded offer.guard offer.comm block }
{
    let Offer { guard, comm } = offer;
    CAlt::Guarded(guard, comm, block)
}

#[cycle(element)]
#[tactic(auto, using(crate::proofs::Equations::part_make, crate::proofs::Equations::next_make, crate::proofs::Equations::part_unwind_elements, crate::proofs::Equations::next_unwind_elements))]
fn element(alloc: Global, e: CElem, count: &mut u64) -> Result<CElem, NoMemory>
    ensures part { IfOk result (λ r. r ≡ (spec.of_element e count.old).part) }
    ensures next { OnOk result (count.new ≡ (spec.of_element e count.old).next) }
{
    match e {
        CElem::Make(t, process, arguments) => {
            let t = some_target(alloc, t, count)?;
            match expressions(alloc, arguments, count) {
                Ok(arguments) => Ok(CElem::Make(t, process, arguments)),
                Err(refusal) => {
                    drop(t);
                    Err(refusal)
                }
            }
        }
        CElem::Unwind(slots, container, inner) => {
            let container = expression(alloc, container, count)?;
            match elements(alloc, inner, count) {
                Ok(inner) => Ok(CElem::Unwind(slots, container, inner)),
                Err(refusal) => {
                    drop(container);
                    Err(refusal)
                }
            }
        }
    }
}

#[cycle(element)]
pub(crate) fn elements(
    alloc: Global,
    all: Items<CElem>,
    count: &mut u64,
) -> Result<Items<CElem>, NoMemory>
    ensures part { IfOk result (λ r. r ≡ (spec.each (map spec.of_element all) count.old).part) }
    ensures next { OnOk result (count.new ≡ (spec.each (map spec.of_element all) count.old).next) }
{
    let mut done = Vec::new(alloc);
    for part in all.into_vec(alloc)? {
        done.push(element(alloc, part, count)?)?;
    }
    Ok(Items::of(alloc, done)?)
}
