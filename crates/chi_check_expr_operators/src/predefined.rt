//! What predefined names make of their arguments, by the types of these. Distributions that draw
//! get their streams later, when all of a program is known.

ghost use Rattle.std.specs.Prelude.{◌≡◌, Some, IfOk};
ghost use Rattle.chi_types.specs.declared.ty.Ty.{out-Ty};
ghost use Rattle.chi_types.specs.declared.ty.Ty.TheVariants as ty;
ghost use Rattle.chi_core.specs.declared.expression.CExpr.TheVariants as expression;
ghost use Rattle.chi_core.specs.declared.op_name.OpName.TheVariants as op;
ghost use Rattle.chi_check_expr_rules.specs.Conversions as conversion;
ghost use Rattle.chi_check_expr_rules.specs.PredefinedCalls as spec;

use crate::arguments::{only, pair};
use crate::outcomes::{dist_of, enumerated_type, keys_type, popped_type, values_type};
use chi_base::{Boxed, Items, NoMemory};
use chi_check_expr_rules::{
    all_converted, are_ints, both_as, both_refused, core_and_type, core_of, is_int, number_of,
    on_it, on_two, refused, wanting, with_cores,
};
use chi_check_types::{Made, Predefined, is_drawn};
use chi_core::{CExpr, OpName};
use chi_types::Ty;
use std::alloc::Global;

fn absolute(alloc: Global, m: Made) -> Result<Option<Made>, NoMemory>
    ensures { IfOk result (λ n. n ≡ spec.absolute m) }
{
    match &m.ty {
        Ty::Int => on_it(alloc, OpName::Abs, m, Ty::Int),
        Ty::Real => on_it(alloc, OpName::Abs, m, Ty::Real),
        _ => Ok(refused(m)),
    }
}

fn sign(alloc: Global, m: Made) -> Result<Option<Made>, NoMemory>
    ensures { IfOk result (λ n. n ≡ spec.sign m) }
{
    match &m.ty {
        Ty::Int => on_it(alloc, OpName::Sign, m, Ty::Int),
        Ty::Real => on_it(alloc, OpName::Sign, m, Ty::Int),
        _ => Ok(refused(m)),
    }
}

fn is_counted(ty: &Ty) -> bool
    ensures { result ≡ spec.is_counted (out-Ty ty.now) }
{
    match ty {
        Ty::Text | Ty::ListOf(_) | Ty::SetOf(_) | Ty::DictOf(_, _) => true,
        _ => false,
    }
}

fn counted(alloc: Global, name: OpName, outcome: Ty, m: Made) -> Result<Option<Made>, NoMemory>
    ensures { IfOk result (λ n. n ≡ spec.counted name outcome m) }
{
    if is_counted(&m.ty) {
        on_it(alloc, name, m, outcome)
    } else {
        drop(outcome);
        Ok(refused(m))
    }
}

/// An operation on what it takes apart, where it has a type.
fn taken_by(
    alloc: Global,
    name: OpName,
    m: Made,
    outcome: Option<Ty>,
) -> Result<Option<Made>, NoMemory>
    ensures { IfOk result (λ n. n ≡ spec.taken_by name m outcome) }
{
    match outcome {
        Some(outcome) => on_it(alloc, name, m, outcome),
        None => Ok(refused(m)),
    }
}

fn popped(alloc: Global, m: Made) -> Result<Option<Made>, NoMemory>
    ensures { IfOk result (λ n. n ≡ spec.popped m) }
{
    match popped_type(alloc, &m.ty) {
        Ok(outcome) => taken_by(alloc, OpName::Pop, m, outcome),
        Err(refusal) => {
            drop(m);
            Err(refusal)
        }
    }
}

fn enumerated(alloc: Global, m: Made) -> Result<Option<Made>, NoMemory>
    ensures { IfOk result (λ n. n ≡ spec.enumerated m) }
{
    match enumerated_type(alloc, &m.ty) {
        Ok(outcome) => taken_by(alloc, OpName::Enumerate, m, outcome),
        Err(refusal) => {
            drop(m);
            Err(refusal)
        }
    }
}

fn keys(alloc: Global, m: Made) -> Result<Option<Made>, NoMemory>
    ensures { IfOk result (λ n. n ≡ spec.keys m) }
{
    match keys_type(alloc, &m.ty) {
        Ok(outcome) => taken_by(alloc, OpName::DictKeys, m, outcome),
        Err(refusal) => {
            drop(m);
            Err(refusal)
        }
    }
}

fn values(alloc: Global, m: Made) -> Result<Option<Made>, NoMemory>
    ensures { IfOk result (λ n. n ≡ spec.values m) }
{
    match values_type(alloc, &m.ty) {
        Ok(outcome) => taken_by(alloc, OpName::DictValues, m, outcome),
        Err(refusal) => {
            drop(m);
            Err(refusal)
        }
    }
}

fn constant(alloc: Global, m: Made) -> Result<Option<Made>, NoMemory>
    ensures { IfOk result (λ n. n ≡ spec.constant m) }
{
    if !is_drawn(&m.ty) {
        return Ok(refused(m));
    }
    match dist_of(alloc, &m.ty) {
        Ok(outcome) => on_it(alloc, OpName::Constant, m, outcome),
        Err(refusal) => {
            drop(m);
            Err(refusal)
        }
    }
}

fn is_list(ty: &Ty) -> bool
    ensures { result ≡ spec.is_list (out-Ty ty.now) }
{
    match ty {
        Ty::ListOf(_) => true,
        _ => false,
    }
}

fn deleted(alloc: Global, list: Made, index: Made) -> Result<Option<Made>, NoMemory>
    ensures { IfOk result (λ n. n ≡ spec.deleted list index) }
{
    if !is_list(&list.ty) || !is_int(&index.ty) {
        return Ok(both_refused(list, index));
    }
    let (list, ty) = core_and_type(list);
    Ok(Some(on_two(alloc, OpName::Del, list, core_of(index), ty)?))
}

fn between_as(alloc: Global, number: &Ty, a: Made, b: Made) -> Result<Option<Made>, NoMemory>
    ensures { IfOk result (λ n. n ≡ Some (conversion.both_as op.Uniform number.now a b (ty.Dist number.now))) }
{
    match dist_of(alloc, number) {
        Ok(outcome) => Ok(Some(both_as(alloc, OpName::Uniform, number, a, b, outcome)?)),
        Err(refusal) => {
            drop(a);
            drop(b);
            Err(refusal)
        }
    }
}

/// A distribution between two numbers, which are converted to the type of their number.
fn between(alloc: Global, number: Option<Ty>, a: Made, b: Made) -> Result<Option<Made>, NoMemory>
    ensures { IfOk result (λ n. n ≡ spec.between number a b) }
{
    match number {
        Some(ty) => between_as(alloc, &ty, a, b),
        None => Ok(both_refused(a, b)),
    }
}

fn uniform(alloc: Global, a: Made, b: Made) -> Result<Option<Made>, NoMemory>
    ensures { IfOk result (λ n. n ≡ spec.uniform a b) }
{
    let number = number_of(&a.ty, &b.ty);
    between(alloc, number, a, b)
}

/// Int where all are ints, real where all are numbers and one of them is a real.
fn common_numbers(alloc: Global, numbers: &[Made]) -> Result<Option<Ty>, NoMemory>
    ensures { IfOk result (λ t. t ≡ spec.common_numbers numbers.now) }
{
    let Some((first, others)) = numbers.split_first() else {
        return Ok(None);
    };
    let mut ty = first.ty.copy(alloc)?;
    for other in others {
        match number_of(&ty, &other.ty) {
            None => return Ok(None),
            Some(common) => ty = common,
        }
    }
    Ok(Some(ty))
}

fn extreme(alloc: Global, name: OpName, numbers: Items<Made>) -> Result<Option<Made>, NoMemory>
    ensures { IfOk result (λ n. n ≡ spec.extreme name numbers) }
{
    let Some(ty) = common_numbers(alloc, numbers.as_slice())? else {
        return Ok(None);
    };
    let core = CExpr::Op(name, all_converted(alloc, numbers, &ty)?);
    Ok(Some(Made { core, ty }))
}

fn ranged(alloc: Global, operands: Items<CExpr>) -> Result<Option<Made>, NoMemory>
    ensures { IfOk result (λ n. n ≡ Some (conversion.made (expression.Op op.Range operands) (ty.ListOf ty.Int))) }
{
    let ty = Ty::ListOf(Boxed::new(alloc, Ty::Int)?);
    let core = CExpr::Op(OpName::Range, operands);
    Ok(Some(Made { core, ty }))
}

fn range(alloc: Global, bounds: Items<Made>) -> Result<Option<Made>, NoMemory>
    ensures { IfOk result (λ n. n ≡ spec.range bounds) }
{
    if !are_ints(bounds.as_slice()) {
        return Ok(None);
    }
    let operands = with_cores(alloc, Vec::new(alloc), bounds)?;
    ranged(alloc, operands)
}

fn bernoulli(alloc: Global, arguments: Items<Made>) -> Result<Option<Made>, NoMemory>
    ensures { IfOk result (λ n. n ≡ spec.bernoulli arguments) }
{
    let outcome = Ty::Dist(Boxed::new(alloc, Ty::Bool)?);
    wanting(alloc, OpName::Bernoulli, &[Ty::Real], outcome, arguments)
}

fn binomial(alloc: Global, arguments: Items<Made>) -> Result<Option<Made>, NoMemory>
    ensures { IfOk result (λ n. n ≡ spec.binomial arguments) }
{
    let outcome = Ty::Dist(Boxed::new(alloc, Ty::Int)?);
    wanting(
        alloc,
        OpName::Binomial,
        &[Ty::Int, Ty::Real],
        outcome,
        arguments,
    )
}

fn exponential(alloc: Global, arguments: Items<Made>) -> Result<Option<Made>, NoMemory>
    ensures { IfOk result (λ n. n ≡ spec.exponential arguments) }
{
    let outcome = Ty::Dist(Boxed::new(alloc, Ty::Real)?);
    wanting(alloc, OpName::Exponential, &[Ty::Real], outcome, arguments)
}

/// What a name makes of its one argument.
fn of_one(alloc: Global, name: Predefined, arguments: Items<Made>) -> Result<Option<Made>, NoMemory>
    ensures { IfOk result (λ n. n ≡ spec.one (spec.of_single name) arguments) }
{
    let Some(m) = only(alloc, arguments)? else {
        return Ok(None);
    };
    of_single(alloc, name, m)
}

fn of_single(alloc: Global, name: Predefined, m: Made) -> Result<Option<Made>, NoMemory>
    ensures { IfOk result (λ n. n ≡ spec.of_single name m) }
{
    match name {
        Predefined::Abs => absolute(alloc, m),
        Predefined::Sign => sign(alloc, m),
        Predefined::Size => counted(alloc, OpName::Size, Ty::Int, m),
        Predefined::Empty => counted(alloc, OpName::Empty, Ty::Bool, m),
        Predefined::Pop => popped(alloc, m),
        Predefined::Enumerate => enumerated(alloc, m),
        Predefined::DictKeys => keys(alloc, m),
        Predefined::DictValues => values(alloc, m),
        Predefined::Constant => constant(alloc, m),
        _ => Ok(refused(m)),
    }
}

fn deletion(alloc: Global, arguments: Items<Made>) -> Result<Option<Made>, NoMemory>
    ensures { IfOk result (λ n. n ≡ spec.two spec.deleted arguments) }
{
    let Some((list, index)) = pair(alloc, arguments)? else {
        return Ok(None);
    };
    deleted(alloc, list, index)
}

fn draw_between(alloc: Global, arguments: Items<Made>) -> Result<Option<Made>, NoMemory>
    ensures { IfOk result (λ n. n ≡ spec.two spec.uniform arguments) }
{
    let Some((a, b)) = pair(alloc, arguments)? else {
        return Ok(None);
    };
    uniform(alloc, a, b)
}

/// What a predefined name makes of its arguments.
pub fn predefined(
    alloc: Global,
    name: Predefined,
    arguments: Items<Made>,
) -> Result<Option<Made>, NoMemory>
    ensures { IfOk result (λ n. n ≡ spec.predefined name arguments) }
{
    match name {
        Predefined::Min => extreme(alloc, OpName::Min, arguments),
        Predefined::Max => extreme(alloc, OpName::Max, arguments),
        Predefined::Floor => wanting(alloc, OpName::Floor, &[Ty::Real], Ty::Int, arguments),
        Predefined::Ceil => wanting(alloc, OpName::Ceil, &[Ty::Real], Ty::Int, arguments),
        Predefined::Round => wanting(alloc, OpName::Round, &[Ty::Real], Ty::Int, arguments),
        Predefined::Del => deletion(alloc, arguments),
        Predefined::Insert => Ok(None),
        Predefined::Range => range(alloc, arguments),
        Predefined::Uniform => draw_between(alloc, arguments),
        Predefined::Bernoulli => bernoulli(alloc, arguments),
        Predefined::Binomial => binomial(alloc, arguments),
        Predefined::Exponential => exponential(alloc, arguments),
        Predefined::Ready => wanting(alloc, OpName::Ready, &[Ty::Timer], Ty::Bool, arguments),
        Predefined::Finished => wanting(alloc, OpName::Finished, &[Ty::Inst], Ty::Bool, arguments),
        _ => of_one(alloc, name, arguments),
    }
}
