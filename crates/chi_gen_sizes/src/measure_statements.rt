//! How many instructions statements and their parts have, in a walk or not. Each is measured once.

ghost use Rattle.std.specs.Prelude.{◌≡◌, IfOk};
ghost use Rattle.chi_code.specs.Sizes.{leaving};
ghost use Rattle.chi_gen_sizes.specs.Measuring.{AltMeasured, AltsMeasured, BlockMeasured, BranchMeasured, BranchesMeasured, StatMeasured};

use crate::adding::plus;
use crate::measure::{size_of, sizes_of};
use crate::measure_parts::{assign_of, comm_of, elements_of, exit_of, guard_of};
use crate::measured::{Measured, around, choice, guarded, select, unwound, whole};
use chi_base::{Items, NoMemory};
use chi_core::{Branch, CAlt, CStat};
use std::alloc::Global;

/// Of a break.
fn leaving_of(walks: bool) -> u64
    ensures { result ≡ leaving walks }
{
    if walks { 3 } else { 2 }
}

#[cycle(statement)]
fn statement(alloc: Global, x: &CStat, walks: bool) -> Result<Measured, NoMemory>
    ensures { IfOk result (λ m. StatMeasured walks x.now m) }
{
    match x {
        CStat::Declare(_, _, e) => {
            let size = plus(size_of(e)?, 2)?;
            Ok(whole(alloc, size)?)
        }
        CStat::Assign(_, targets, es) => {
            let size = assign_of(targets, es)?;
            Ok(whole(alloc, size)?)
        }
        CStat::If(_, tests, otherwise) => {
            let tests = tests.as_slice();
            let otherwise = otherwise.as_slice();
            let parts = branches(alloc, tests, walks)?;
            let others = block(alloc, otherwise, walks)?;
            Ok(choice(parts, others)?)
        }
        CStat::While(_, test, inner) => {
            let more = plus(size_of(test)?, 3)?;
            let inner = inner.as_slice();
            let parts = block(alloc, inner, false)?;
            Ok(around(alloc, more, parts)?)
        }
        CStat::For(_, _, e, inner) => {
            let more = plus(size_of(e)?, 5)?;
            let inner = inner.as_slice();
            let parts = block(alloc, inner, true)?;
            Ok(around(alloc, more, parts)?)
        }
        CStat::Break(_) => Ok(whole(alloc, leaving_of(walks))?),
        CStat::Continue(_) => Ok(whole(alloc, 2)?),
        CStat::Pass(_) => Ok(whole(alloc, 1)?),
        CStat::Return(_, e) => {
            let size = plus(size_of(e)?, 2)?;
            Ok(whole(alloc, size)?)
        }
        CStat::Exit(_, value) => {
            let size = exit_of(value)?;
            Ok(whole(alloc, size)?)
        }
        CStat::Write(_, _, es) => {
            let size = plus(sizes_of(es)?, 2)?;
            Ok(whole(alloc, size)?)
        }
        CStat::Select(_, xs) => {
            let xs = xs.as_slice();
            let parts = alternatives(alloc, xs, walks)?;
            Ok(select(alloc, parts)?)
        }
        CStat::Run(_, xs) => {
            let inner = xs.as_slice();
            let size = plus(elements_of(inner)?, 2)?;
            Ok(whole(alloc, size)?)
        }
        CStat::Start(_, xs) => {
            let inner = xs.as_slice();
            let size = plus(elements_of(inner)?, 1)?;
            Ok(whole(alloc, size)?)
        }
        CStat::Finish(_, es) => {
            let size = plus(sizes_of(es)?, 2)?;
            Ok(whole(alloc, size)?)
        }
    }
}

/// Statements in turn.
#[cycle(statement)]
pub fn block(alloc: Global, xs: &[CStat], walks: bool) -> Result<Items<Measured>, NoMemory>
    ensures { IfOk result (λ ms. BlockMeasured walks xs.now ms) }
{
    let mut done = Vec::new(alloc);
    for x in xs {
        let one = statement(alloc, x, walks)?;
        done.push(one)?;
    }
    Ok(Items::of(alloc, done)?)
}

#[cycle(statement)]
fn branch(alloc: Global, x: &Branch, walks: bool) -> Result<Measured, NoMemory>
    ensures { IfOk result (λ m. BranchMeasured walks x.now m) }
{
    let more = plus(size_of(&x.test)?, 2)?;
    let inner = x.block.as_slice();
    let parts = block(alloc, inner, walks)?;
    Ok(around(alloc, more, parts)?)
}

#[cycle(statement)]
fn branches(alloc: Global, xs: &[Branch], walks: bool) -> Result<Items<Measured>, NoMemory>
    ensures { IfOk result (λ ms. BranchesMeasured walks xs.now ms) }
{
    let mut done = Vec::new(alloc);
    for x in xs {
        let one = branch(alloc, x, walks)?;
        done.push(one)?;
    }
    Ok(Items::of(alloc, done)?)
}

#[cycle(statement)]
fn alternative(alloc: Global, x: &CAlt, walks: bool) -> Result<Measured, NoMemory>
    ensures { IfOk result (λ m. AltMeasured walks x.now m) }
{
    match x {
        CAlt::Guarded(guard, comm, body) => {
            let size = plus(guard_of(guard)?, comm_of(comm)?)?;
            let body = body.as_slice();
            let parts = block(alloc, body, walks)?;
            Ok(guarded(alloc, size, parts)?)
        }
        CAlt::Unwind(_, e, inner) => {
            let more = plus(size_of(e)?, 3)?;
            let inner = inner.as_slice();
            let parts = alternatives(alloc, inner, walks)?;
            Ok(unwound(alloc, more, parts)?)
        }
    }
}

#[cycle(statement)]
fn alternatives(alloc: Global, xs: &[CAlt], walks: bool) -> Result<Items<Measured>, NoMemory>
    ensures { IfOk result (λ ms. AltsMeasured walks xs.now ms) }
{
    let mut done = Vec::new(alloc);
    for x in xs {
        let one = alternative(alloc, x, walks)?;
        done.push(one)?;
    }
    Ok(Items::of(alloc, done)?)
}
