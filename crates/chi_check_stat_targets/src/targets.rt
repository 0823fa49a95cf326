//! Targets: what a name is where something is stored, and a step into a part of it.

#![tactic(auto, using(chi_check_types::proofs::Firsts::first_of_none))]

ghost use Rattle.std.specs.Prelude.{◌≡◌, [], Some, None, IfOk, OnOk};
ghost use Rattle.std.specs.Option.{option_copied};
ghost use Rattle.chi_types.specs.declared.ty.Ty.{out-Ty};
ghost use Rattle.chi_check_types.specs.Faults.{first_of};
ghost use Rattle.chi_check_stat_rules.specs.Targets as spec;

use chi_base::{Items, NoMemory};
use chi_check_expr_rules::{converted, core_of, field_in, is_int, one_more, settle};
use chi_check_stat_rules::Aim;
use chi_check_types::{Fault, Known, Made, NameKind, Scope, is_predefined, note, rules};
use chi_core::{CStep, CTarget};
use chi_token::{Bytes, Place};
use chi_tree::Name;
use chi_types::{Ty, fits};
use std::alloc::Global;

fn untyped_target(place: Place, kind: NameKind, kept: &mut Option<Fault>) -> Option<Aim>
    ensures made { result ≡ (spec.untyped_target place kind).made }
    ensures noted { kept.new ≡ first_of kept.old (spec.untyped_target place kind).faults }
{
    match kind {
        NameKind::Variable => None,
        _ => {
            note(kept, rules::TARGET, place);
            None
        }
    }
}

fn whole(alloc: Global, slot: u32, ty: &Ty) -> Result<Aim, NoMemory>
    ensures { IfOk result (λ a. a ≡ spec.aim slot [] ty.now) }
{
    let ty = ty.copy(alloc)?;
    match Items::of(alloc, Vec::new(alloc)) {
        Ok(steps) => Ok(Aim {
            target: CTarget { slot, steps },
            ty,
        }),
        Err(refusal) => {
            drop(ty);
            Err(refusal)
        }
    }
}

fn visible_target(
    alloc: Global,
    place: Place,
    known: Option<&Known>,
    kept: &mut Option<Fault>,
) -> Result<Option<Aim>, NoMemory>
    ensures made { IfOk result (λ a. a ≡ (spec.visible_target place (option_copied known.entry)).made) }
    ensures noted { OnOk result (kept.new ≡ first_of kept.old (spec.visible_target place (option_copied known.entry)).faults) }
{
    match known {
        None => {
            note(kept, rules::VISIBLE_NAME, place);
            Ok(None)
        }
        Some(Known::Var(slot, ty)) => Ok(Some(whole(alloc, *slot, ty)?)),
        Some(Known::Untyped(kind)) => Ok(untyped_target(place, *kind, kept)),
        Some(_) => {
            note(kept, rules::TARGET, place);
            Ok(None)
        }
    }
}

/// What a name comes to as a target.
pub fn named_target(
    alloc: Global,
    scope: &Scope,
    name: &Name,
    kept: &mut Option<Fault>,
) -> Result<Option<Aim>, NoMemory>
    ensures made { IfOk result (λ a. a ≡ (spec.named_target scope.now name.now).made) }
    ensures noted { OnOk result (kept.new ≡ first_of kept.old (spec.named_target scope.now name.now).faults) }
{
    if is_predefined(&name.text) {
        note(kept, rules::TARGET, name.place);
        return Ok(None);
    }
    visible_target(alloc, name.place, scope.known(&name.text), kept)
}

/// Nothing is stored there: the target and the index are let go.
fn refused(aim: Aim, index: Made) -> Option<Aim>
    ensures { result ≡ None }
{
    drop(aim);
    drop(index);
    None
}

fn stepped(alloc: Global, aim: Aim, step: CStep, ty: Ty) -> Result<Option<Aim>, NoMemory>
    ensures { IfOk result (λ a. a ≡ Some (spec.stepped aim step ty)) }
{
    let Aim { target, ty: whole } = aim;
    drop(whole);
    let CTarget { slot, steps } = target;
    match one_more(alloc, steps, step) {
        Ok(steps) => Ok(Some(Aim {
            target: CTarget { slot, steps },
            ty,
        })),
        Err(refusal) => {
            drop(ty);
            Err(refusal)
        }
    }
}

fn to_element(alloc: Global, aim: Aim, element: Ty, index: Made) -> Result<Option<Aim>, NoMemory>
    ensures { IfOk result (λ a. a ≡ spec.to_element aim element index) }
{
    if is_int(&index.ty) {
        stepped(alloc, aim, CStep::Index(core_of(index)), element)
    } else {
        drop(element);
        Ok(refused(aim, index))
    }
}

fn to_key(
    alloc: Global,
    aim: Aim,
    key: &Ty,
    value: Ty,
    index: Made,
) -> Result<Option<Aim>, NoMemory>
    ensures { IfOk result (λ a. a ≡ spec.to_key aim key.now value index) }
{
    if !fits(&index.ty, key) {
        drop(value);
        return Ok(refused(aim, index));
    }
    match converted(alloc, index, key) {
        Ok(index) => stepped(alloc, aim, CStep::Index(index), value),
        Err(refusal) => {
            drop(aim);
            drop(value);
            Err(refusal)
        }
    }
}

fn entry_types(alloc: Global, key: &Ty, value: &Ty) -> Result<(Ty, Ty), NoMemory>
    ensures { IfOk result (λ types. types ≡ (key.now, value.now)) }
{
    let key = key.copy(alloc)?;
    match value.copy(alloc) {
        Ok(value) => Ok((key, value)),
        Err(refusal) => {
            drop(key);
            Err(refusal)
        }
    }
}

fn indexed(alloc: Global, aim: Aim, index: Made) -> Result<Option<Aim>, NoMemory>
    ensures { IfOk result (λ a. a ≡ spec.indexed (out-Ty aim.ty) aim index) }
{
    match &aim.ty {
        Ty::ListOf(element) => match element.get().copy(alloc) {
            Ok(element) => to_element(alloc, aim, element, index),
            Err(refusal) => {
                drop(aim);
                drop(index);
                Err(refusal)
            }
        },
        Ty::DictOf(key, value) => match entry_types(alloc, key.get(), value.get()) {
            Ok((key, value)) => to_key(alloc, aim, &key, value, index),
            Err(refusal) => {
                drop(aim);
                drop(index);
                Err(refusal)
            }
        },
        _ => Ok(refused(aim, index)),
    }
}

fn is_text(ty: &Ty) -> bool
    ensures { result ≡ spec.is_text (out-Ty ty.now) }
{
    match ty {
        Ty::Text => true,
        _ => false,
    }
}

/// A step by an index. The first place is that of the target's name, the second that of `[`.
pub fn index_step(
    alloc: Global,
    name: Place,
    place: Place,
    aim: Option<Aim>,
    index: Option<Made>,
    kept: &mut Option<Fault>,
) -> Result<Option<Aim>, NoMemory>
    ensures made { IfOk result (λ a. a ≡ (spec.index_step name place aim index).made) }
    ensures noted { OnOk result (kept.new ≡ first_of kept.old (spec.index_step name place aim index).faults) }
{
    let Some(aim) = aim else {
        drop(index);
        return Ok(None);
    };
    if is_text(&aim.ty) {
        note(kept, rules::TARGET, name);
        drop(aim);
        drop(index);
        return Ok(None);
    }
    let Some(index) = index else {
        drop(aim);
        return Ok(None);
    };
    Ok(settle(indexed(alloc, aim, index)?, rules::INDEX, place, kept))
}

fn field_of(alloc: Global, name: &Bytes, aim: Aim) -> Result<Option<Aim>, NoMemory>
    ensures { IfOk result (λ a. a ≡ spec.field_of name.now aim) }
{
    match field_in(alloc, &aim.ty, name) {
        Ok(Some((number, ty))) => stepped(alloc, aim, CStep::Part(number), ty),
        Ok(None) => {
            drop(aim);
            Ok(None)
        }
        Err(refusal) => {
            drop(aim);
            Err(refusal)
        }
    }
}

/// A step by the name of a field.
pub fn field_step(
    alloc: Global,
    name: &Name,
    aim: Option<Aim>,
    kept: &mut Option<Fault>,
) -> Result<Option<Aim>, NoMemory>
    ensures made { IfOk result (λ a. a ≡ (spec.field_step name.now aim).made) }
    ensures noted { OnOk result (kept.new ≡ first_of kept.old (spec.field_step name.now aim).faults) }
{
    let Some(aim) = aim else {
        return Ok(None);
    };
    Ok(settle(
        field_of(alloc, &name.text, aim)?,
        rules::FIELD,
        name.place,
        kept,
    ))
}
