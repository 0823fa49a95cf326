//! Guards, communications and what is started, to their code.

ghost use Rattle.std.specs.Prelude.{◌≡◌, IfOk, OnOk};
ghost use Rattle.chi_core.specs.declared.communication.CComm.TheVariants as comm;
ghost use Rattle.chi_core.specs.declared.element.CElem.TheVariants as element;
ghost use Rattle.chi_gen_parts.specs.Added.{AddsComm, AddsElem, AddsElems, AddsGuard, AddsSpread};
ghost use Rattle.chi_gen_parts.specs.Soundness.{SoundCommAt, SoundTargetAt};

use crate::copies::slots_copy;
use crate::expressing::{expression, expressions};
use crate::offered::Offered;
use crate::targets::{read, some_aim, some_indexes};
use crate::writer::{fill, hole, number_of, place, put};
use chi_base::{Items, NoMemory};
use chi_code::Instr;
use chi_core::{CComm, CElem, CExpr, CTarget};
use chi_gen_sizes::is_spread;
use std::alloc::Global;

/// A guard, which leads to a place where it doesn't hold.
pub fn guard(
    alloc: Global,
    end: u64,
    test: &Option<CExpr>,
    code: &mut Vec<Instr>,
) -> Result<(), NoMemory>
    ensures { OnOk result (AddsGuard end test.now code.old.items code.new.items) }
{
    match test {
        None => Ok(()),
        Some(test) => {
            expression(alloc, test, code)?;
            put(code, Instr::IfFalse(end))?;
            Ok(())
        }
    }
}

/// A copy of the names of the unwinds around.
fn named(alloc: Global, names: &[u32]) -> Result<Items<u32>, NoMemory>
    ensures { IfOk result (λ s. s ≡ names.now) }
{
    Ok(Items::of(alloc, Vec::from_slice(alloc, names)?)?)
}

fn send(
    within: &Offered<'_>,
    target: &CTarget,
    value: &Option<CExpr>,
    code: &mut Vec<Instr>,
) -> Result<(), NoMemory>
    requires { SoundTargetAt within.now.slots.now target.now }
    ensures { OnOk result (AddsComm within.now.slots.now within.now.names.now within.now.body (comm.Send target.now value.now) code.old.items code.new.items) }
{
    let alloc = within.alloc;
    read(alloc, within.slots, target, code)?;
    match value {
        None => {
            let names = named(alloc, within.names)?;
            put(code, Instr::SendVoid(within.body, names))?;
            Ok(())
        }
        Some(e) => {
            expression(alloc, e, code)?;
            let names = named(alloc, within.names)?;
            put(code, Instr::Send(within.body, names))?;
            Ok(())
        }
    }
}

fn receive(
    within: &Offered<'_>,
    target: &CTarget,
    slot: &Option<u32>,
    code: &mut Vec<Instr>,
) -> Result<(), NoMemory>
    requires { SoundTargetAt within.now.slots.now target.now }
    ensures { OnOk result (AddsComm within.now.slots.now within.now.names.now within.now.body (comm.Receive target.now slot.now) code.old.items code.new.items) }
{
    let alloc = within.alloc;
    read(alloc, within.slots, target, code)?;
    let names = named(alloc, within.names)?;
    match slot {
        None => {
            put(code, Instr::ReceiveVoid(within.body, names))?;
            Ok(())
        }
        Some(slot) => {
            put(code, Instr::Receive(within.body, *slot, names))?;
            Ok(())
        }
    }
}

fn delay(within: &Offered<'_>, e: &CExpr, code: &mut Vec<Instr>) -> Result<(), NoMemory>
    ensures { OnOk result (AddsComm within.now.slots.now within.now.names.now within.now.body (comm.Delay e.now) code.old.items code.new.items) }
{
    expression(within.alloc, e, code)?;
    let names = named(within.alloc, within.names)?;
    put(code, Instr::Delay(within.body, names))?;
    Ok(())
}

fn timer(within: &Offered<'_>, e: &CExpr, code: &mut Vec<Instr>) -> Result<(), NoMemory>
    ensures { OnOk result (AddsComm within.now.slots.now within.now.names.now within.now.body (comm.Timer e.now) code.old.items code.new.items) }
{
    expression(within.alloc, e, code)?;
    let names = named(within.alloc, within.names)?;
    put(code, Instr::Timer(within.body, names))?;
    Ok(())
}

/// A communication.
pub fn communication(
    within: &Offered<'_>,
    comm: &CComm,
    code: &mut Vec<Instr>,
) -> Result<(), NoMemory>
    requires { SoundCommAt within.now.slots.now comm.now }
    ensures { OnOk result (AddsComm within.now.slots.now within.now.names.now within.now.body comm.now code.old.items code.new.items) }
{
    match comm {
        CComm::Send(target, value) => {
            send(within, target, value, code)?;
            Ok(())
        }
        CComm::Receive(target, slot) => {
            receive(within, target, slot, code)?;
            Ok(())
        }
        CComm::Delay(e) => {
            delay(within, e, code)?;
            Ok(())
        }
        CComm::Timer(e) => {
            timer(within, e, code)?;
            Ok(())
        }
    }
}

/// A spread, where one tuple has the values of several targets.
pub fn spread(
    targets: &Items<CTarget>,
    es: &Items<CExpr>,
    code: &mut Vec<Instr>,
) -> Result<(), NoMemory>
    ensures { OnOk result (AddsSpread targets.now es.now code.old.items code.new.items) }
{
    if is_spread(targets, es) {
        put(code, Instr::Spread(number_of(targets)?))?;
        Ok(())
    } else {
        Ok(())
    }
}

fn make(
    alloc: Global,
    target: &Option<CTarget>,
    process: u32,
    es: &Items<CExpr>,
    code: &mut Vec<Instr>,
) -> Result<(), NoMemory>
    ensures { OnOk result (AddsElem (element.Make target.now process es.now) code.old.items code.new.items) }
{
    expressions(alloc, es, code)?;
    some_indexes(alloc, target, code)?;
    put(code, Instr::Make(process, some_aim(alloc, target)?))?;
    Ok(())
}

#[cycle(element)]
fn element(alloc: Global, x: &CElem, code: &mut Vec<Instr>) -> Result<(), NoMemory>
    ensures { OnOk result (AddsElem x.now code.old.items code.new.items) }
{
    match x {
        CElem::Make(target, process, es) => {
            make(alloc, target, *process, es, code)?;
            Ok(())
        }
        CElem::Unwind(names, e, inner) => {
            let inner = inner.as_slice();
            expression(alloc, e, code)?;
            put(code, Instr::Walk)?;
            let own = slots_copy(alloc, names)?;
            let top = hole(code)?;
            elements(alloc, inner, code)?;
            put(code, Instr::Jump(top))?;
            let end = place(code);
            fill(code, top, Instr::Next(end, own));
            Ok(())
        }
    }
}

/// What is started, one after another.
#[cycle(element)]
fn elements(alloc: Global, xs: &[CElem], code: &mut Vec<Instr>) -> Result<(), NoMemory>
    ensures { OnOk result (AddsElems xs.now code.old.items code.new.items) }
{
    for x in xs {
        element(alloc, x, code)?;
    }
    Ok(())
}

/// What is started, one after another.
pub fn all_elements(alloc: Global, xs: &Items<CElem>, code: &mut Vec<Instr>) -> Result<(), NoMemory>
    ensures { OnOk result (AddsElems xs.now code.old.items code.new.items) }
{
    elements(alloc, xs.as_slice(), code)
}
