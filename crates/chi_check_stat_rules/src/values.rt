//! Values where a type is wanted: initial values, values of constants, conditions, and instances that are waited for.
//! Those that are refused are dropped by calls of `drop`, as endings drop theirs.

#![tactic(auto, using(chi_check_types::proofs::Firsts::first_of_none, chi_check_types::proofs::Firsts::first_of_append, chi_check_expr_rules::proofs::Barred::made_barred, chi_check_expr_rules::proofs::Barred::faults_barred))]

ghost use Rattle.std.specs.Prelude.{◌≡◌, map, not, IfOk, OnOk};
ghost use Rattle.std.specs.List.{list_any};
ghost use Rattle.std.specs.Option.{option_copied};
ghost use Rattle.chi_types.specs.declared.ty.Ty.{out-Ty};
ghost use Rattle.chi_types.specs.Same.{beside};
ghost use Rattle.chi_types.specs.Plain.{holds};
ghost use Rattle.chi_check_types.specs.Faults.{first_of, are_none};
ghost use Rattle.chi_check_stat_rules.specs.Values as spec;

use chi_base::NoMemory;
use chi_check_expr_rules::{converted, core_of, settle};
use chi_check_types::{Fault, Made, note, rules};
use chi_core::CExpr;
use chi_token::{Bytes, Place};
use chi_types::{Ty, fits};
use std::alloc::Global;

/// The value as one of a type, where it fits that.
pub fn fitted(alloc: Global, made: Made, wanted: &Ty) -> Result<Option<CExpr>, NoMemory>
    ensures { IfOk result (λ e. e ≡ spec.fitted made wanted.now) }
{
    if !fits(&made.ty, wanted) {
        drop(made);
        return Ok(None);
    }
    Ok(Some(converted(alloc, made, wanted)?))
}

/// An initial value, whose `=` stands at the place.
pub fn initial_value(
    alloc: Global,
    equals: Place,
    made: Option<Made>,
    ty: Option<&Ty>,
    kept: &mut Option<Fault>,
) -> Result<Option<CExpr>, NoMemory>
    ensures made { IfOk result (λ e. e ≡ (spec.initial_value equals made (option_copied ty.entry)).made) }
    ensures noted { OnOk result (kept.new ≡ first_of kept.old (spec.initial_value equals made (option_copied ty.entry)).faults) }
{
    let Some(made) = made else {
        return Ok(None);
    };
    let Some(ty) = ty else {
        drop(made);
        return Ok(None);
    };
    Ok(settle(fitted(alloc, made, ty)?, rules::INITIAL_VALUE, equals, kept))
}

#[cycle(lives)]
fn lives(ty: &Ty) -> bool
    ensures { result ≡ spec.lives ty.now }
{
    match ty {
        Ty::Chan(_, _) | Ty::Dist(_) | Ty::Timer | Ty::Inst => true,
        Ty::TupleOf(parts) => any_lives(parts.as_slice()),
        Ty::ListOf(inner) | Ty::SetOf(inner) => lives(inner.get()),
        Ty::DictOf(key, value) => lives(key.get()) || lives(value.get()),
        Ty::Bool | Ty::Int | Ty::Real | Ty::Text | Ty::Void | Ty::Choice(_) => false,
    }
}

#[cycle(lives)]
fn any_lives(parts: &[(Bytes, Ty)]) -> bool
    ensures { result ≡ list_any holds (map (beside spec.lives) parts.now) }
{
    for part in parts {
        if lives(&part.1) {
            return true;
        }
    }
    false
}

fn note_living(equals: Place, ty: Option<&Ty>, kept: &mut Option<Fault>) -> bool
    ensures barred { result ≡ not (are_none (spec.constant_rule equals (option_copied ty.entry))) }
    ensures noted { kept.new ≡ first_of kept.old (spec.constant_rule equals (option_copied ty.entry)) }
{
    let Some(ty) = ty else {
        return false;
    };
    if !lives(ty) {
        return false;
    }
    note(kept, rules::INITIAL_VALUE, equals);
    true
}

/// The value of a constant, whose `=` stands at the place.
pub fn constant_value(
    alloc: Global,
    equals: Place,
    made: Option<Made>,
    ty: Option<&Ty>,
    kept: &mut Option<Fault>,
) -> Result<Option<CExpr>, NoMemory>
    ensures made { IfOk result (λ e. e ≡ (spec.constant_value equals made (option_copied ty.entry)).made) }
    ensures noted { OnOk result (kept.new ≡ first_of kept.old (spec.constant_value equals made (option_copied ty.entry)).faults) }
{
    let barred = note_living(equals, ty, kept);
    let value = initial_value(alloc, equals, made, ty, kept)?;
    Ok(if barred { None } else { value })
}

fn as_bool(made: Made) -> Option<CExpr>
    ensures { result ≡ spec.as_bool made }
{
    match &made.ty {
        Ty::Bool => Some(core_of(made)),
        _ => {
            drop(made);
            None
        }
    }
}

/// A condition or a guard, at its first token.
pub fn condition(place: Place, made: Option<Made>, kept: &mut Option<Fault>) -> Option<CExpr>
    ensures made { result ≡ (spec.condition place made).made }
    ensures noted { kept.new ≡ first_of kept.old (spec.condition place made).faults }
{
    let Some(made) = made else {
        return None;
    };
    settle(as_bool(made), rules::CONDITION, place, kept)
}

/// Whether a type is that of instances.
pub fn is_inst(ty: &Ty) -> bool
    ensures { result ≡ spec.is_inst (out-Ty ty.now) }
{
    match ty {
        Ty::Inst => true,
        _ => false,
    }
}

fn as_instance(made: Made) -> Option<CExpr>
    ensures { result ≡ spec.as_instance made }
{
    if is_inst(&made.ty) {
        Some(core_of(made))
    } else {
        drop(made);
        None
    }
}

/// An instance that is waited for, at its first token.
pub fn finished_one(place: Place, made: Option<Made>, kept: &mut Option<Fault>) -> Option<CExpr>
    ensures made { result ≡ (spec.finished_one place made).made }
    ensures noted { kept.new ≡ first_of kept.old (spec.finished_one place made).faults }
{
    let Some(made) = made else {
        return None;
    };
    settle(as_instance(made), rules::FINISH, place, kept)
}
