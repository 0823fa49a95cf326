//! Targets: as instructions have them, their indexes, and the expressions that read them.

ghost use Rattle.std.specs.Prelude.{◌≡◌, ◌≢◌, map, OnOk, IfOk, None, Some, [], ◌∷◌, slice_get};
ghost use Rattle.chi_types.specs.declared.ty.Ty.{out-Ty};
ghost use Rattle.chi_core.specs.declared.target.CStep.TheVariants as step;
ghost use Rattle.chi_code.specs.Aims as aims;
ghost use Rattle.chi_gen_parts.specs.Added.{AddsExprs, AddsInto, AddsRead};
ghost use Rattle.chi_gen_parts.specs.Soundness.{LeadsFrom, SoundTargetAt};

use crate::expressing::expression;
use crate::writer::put;
use chi_base::{Items, NoMemory};
use chi_code::{Aim, AimStep, Instr};
use chi_core::{CExpr, CStep, CTarget, OpName};
use chi_token::Bytes;
use chi_types::Ty;
use std::alloc::Global;

fn aim_step(step: &CStep) -> AimStep
    ensures { result ≡ aims.aim_step step.now }
{
    match step {
        CStep::Index(_) => AimStep::Index,
        CStep::Part(number) => AimStep::Part(*number),
    }
}

fn aim_steps(alloc: Global, steps: &[CStep]) -> Result<Items<AimStep>, NoMemory>
    ensures { IfOk result (λ r. r ≡ map aims.aim_step steps.now) }
{
    let mut done = Vec::new(alloc);
    for step in steps {
        done.push(aim_step(step))?;
    }
    Ok(Items::of(alloc, done)?)
}

fn aim(alloc: Global, target: &CTarget) -> Result<Aim, NoMemory>
    ensures { IfOk result (λ r. r ≡ aims.aim_of target.now) }
{
    Ok(Aim {
        slot: target.slot,
        steps: aim_steps(alloc, target.steps.as_slice())?,
    })
}

/// Targets as instructions have them.
pub fn aims(alloc: Global, targets: &[CTarget]) -> Result<Items<Aim>, NoMemory>
    ensures { IfOk result (λ r. r ≡ map aims.aim_of targets.now) }
{
    let mut done = Vec::new(alloc);
    for target in targets {
        let one = aim(alloc, target)?;
        done.push(one)?;
    }
    Ok(Items::of(alloc, done)?)
}

pub(crate) fn some_aim(alloc: Global, target: &Option<CTarget>) -> Result<Option<Aim>, NoMemory>
    ensures { IfOk result (λ r. r ≡ aims.some_aim target.now) }
{
    match target {
        None => Ok(None),
        Some(target) => Ok(Some(aim(alloc, target)?)),
    }
}

/// The index of a step, if it has one.
#[tactic(auto, using(crate::proofs::AddedTargets::add_index, crate::proofs::AddedTargets::add_number))]
fn step_index(alloc: Global, step: &CStep, code: &mut Vec<Instr>) -> Result<(), NoMemory>
    ensures { OnOk result (AddsExprs (aims.step_indexes (step.now ∷ [])) code.old.items code.new.items) }
{
    match step {
        CStep::Index(e) => {
            expression(alloc, e, code)?;
            Ok(())
        }
        CStep::Part(_) => Ok(()),
    }
}

fn step_indexes(alloc: Global, steps: &[CStep], code: &mut Vec<Instr>) -> Result<(), NoMemory>
    ensures { OnOk result (AddsExprs (aims.step_indexes steps.now) code.old.items code.new.items) }
{
    for step in steps {
        step_index(alloc, step, code)?;
    }
    Ok(())
}

fn indexes_of(alloc: Global, target: &CTarget, code: &mut Vec<Instr>) -> Result<(), NoMemory>
    ensures { OnOk result (AddsExprs (aims.step_indexes target.now.steps) code.old.items code.new.items) }
{
    step_indexes(alloc, target.steps.as_slice(), code)
}

/// The indexes of targets.
pub fn indexes(alloc: Global, targets: &[CTarget], code: &mut Vec<Instr>) -> Result<(), NoMemory>
    ensures { OnOk result (AddsExprs (aims.indexes_of targets.now) code.old.items code.new.items) }
{
    for target in targets {
        indexes_of(alloc, target, code)?;
    }
    Ok(())
}

/// The indexes of a target, if there is one.
#[tactic(auto, using(crate::proofs::AddedExpressions::add_none))]
pub(crate) fn some_indexes(
    alloc: Global,
    target: &Option<CTarget>,
    code: &mut Vec<Instr>,
) -> Result<(), NoMemory>
    ensures { OnOk result (AddsExprs (aims.some_indexes target.now) code.old.items code.new.items) }
{
    match target {
        None => Ok(()),
        Some(target) => indexes_of(alloc, target, code),
    }
}

/// The type of a slot.
#[tactic(auto, using(crate::proofs::Sounding::at_place))]
fn type_of<'a>(slots: &'a [Ty], slot: u32) -> &'a Ty
    requires { slice_get slots.now slot ≢ None }
    ensures { slice_get slots.now slot ≡ Some result.now }
{
    &slots[slot as usize]
}

/// The part of a tuple's type.
#[tactic(auto, using(crate::proofs::Sounding::at_place))]
fn part_of<'a>(parts: &'a [(Bytes, Ty)], number: u32) -> &'a (Bytes, Ty)
    requires { slice_get parts.now number ≢ None }
    ensures { slice_get parts.now number ≡ Some result.now }
{
    &parts[number as usize]
}

/// Steps into a value of a type, as the expression that reads there.
#[cycle(into)]
fn into(alloc: Global, ty: &Ty, steps: &[CStep], code: &mut Vec<Instr>) -> Result<(), NoMemory>
    requires { LeadsFrom ty.now steps.now }
    ensures { OnOk result (AddsInto (out-Ty ty.now) steps.now code.old.items code.new.items) }
{
    let Some((first, rest)) = steps.split_first() else {
        return Ok(());
    };
    match first {
        CStep::Index(e) => into_index(alloc, ty, e, rest, code),
        CStep::Part(number) => into_part(alloc, ty, *number, rest, code),
    }
}

#[cycle(into)]
fn into_index(
    alloc: Global,
    ty: &Ty,
    e: &CExpr,
    steps: &[CStep],
    code: &mut Vec<Instr>,
) -> Result<(), NoMemory>
    requires { LeadsFrom ty.now (step.Index e.now ∷ steps.now) }
    ensures { OnOk result (AddsInto (out-Ty ty.now) (step.Index e.now ∷ steps.now) code.old.items code.new.items) }
{
    match ty {
        Ty::ListOf(inner) => {
            expression(alloc, e, code)?;
            put(code, Instr::Op(OpName::Index, 2))?;
            into(alloc, inner.get(), steps, code)?;
            Ok(())
        }
        Ty::DictOf(_, inner) => {
            expression(alloc, e, code)?;
            put(code, Instr::Op(OpName::Lookup, 2))?;
            into(alloc, inner.get(), steps, code)?;
            Ok(())
        }
        _ => unreachable!(),
    }
}

#[cycle(into)]
fn into_part(
    alloc: Global,
    ty: &Ty,
    number: u32,
    steps: &[CStep],
    code: &mut Vec<Instr>,
) -> Result<(), NoMemory>
    requires { LeadsFrom ty.now (step.Part number ∷ steps.now) }
    ensures { OnOk result (AddsInto (out-Ty ty.now) (step.Part number ∷ steps.now) code.old.items code.new.items) }
{
    match ty {
        Ty::TupleOf(parts) => {
            let parts = parts.as_slice();
            let part = part_of(parts, number);
            put(code, Instr::Part(number))?;
            into(alloc, &part.1, steps, code)?;
            Ok(())
        }
        _ => unreachable!(),
    }
}

/// The expression that reads a target, where each slot has a type.
pub(crate) fn read(
    alloc: Global,
    slots: &[Ty],
    target: &CTarget,
    code: &mut Vec<Instr>,
) -> Result<(), NoMemory>
    requires { SoundTargetAt slots.now target.now }
    ensures { OnOk result (AddsRead slots.now target.now code.old.items code.new.items) }
{
    let ty = type_of(slots, target.slot);
    put(code, Instr::Load(target.slot))?;
    into(alloc, ty, target.steps.as_slice(), code)?;
    Ok(())
}
