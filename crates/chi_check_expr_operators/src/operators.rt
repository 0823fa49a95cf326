//! The operators of chains, `^` and the prefixes, by the types of their operands.

ghost use Rattle.std.specs.Prelude.{◌≡◌, [], ◌∷◌, Some, IfOk};
ghost use Rattle.chi_types.specs.declared.ty.Ty.{out-Ty};
ghost use Rattle.chi_check_expr_rules.specs.Conversions as conversion;
ghost use Rattle.chi_check_expr_rules.specs.Operators as spec;

use chi_base::{Boxed, Items, NoMemory};
use chi_check_expr_rules::{
    all_converted, both_refused, core_and_type, core_of, list_of_one, list_of_two, number_of,
    on_it, on_one, on_two, refused, wanting,
};
use chi_check_types::Made;
use chi_core::{CExpr, OpName};
use chi_tree::{Operator, PrefixSign};
use chi_types::{Ty, same};
use std::alloc::Global;

fn both_converted(alloc: Global, a: Made, b: Made, ty: &Ty) -> Result<Items<CExpr>, NoMemory>
    ensures { IfOk result (λ es. es ≡ conversion.converted a ty.now ∷ conversion.converted b ty.now ∷ []) }
{
    let operands = list_of_two(alloc, a, b)?;
    all_converted(alloc, operands, ty)
}

/// An operation on two numbers, which are converted to the type that it comes to.
fn to_type(alloc: Global, name: OpName, ty: Ty, a: Made, b: Made) -> Result<Option<Made>, NoMemory>
    ensures { IfOk result (λ m. m ≡ Some (conversion.both_as name ty a b ty)) }
{
    let operands = both_converted(alloc, a, b, &ty)?;
    let core = CExpr::Op(name, operands);
    Ok(Some(Made { core, ty }))
}

/// An operation on two numbers, which are converted to the type of their number.
fn calculated(
    alloc: Global,
    name: OpName,
    number: Option<Ty>,
    a: Made,
    b: Made,
) -> Result<Option<Made>, NoMemory>
    ensures { IfOk result (λ m. m ≡ spec.calculated name number a b) }
{
    match number {
        Some(ty) => to_type(alloc, name, ty, a, b),
        None => Ok(both_refused(a, b)),
    }
}

fn arithmetic(alloc: Global, name: OpName, a: Made, b: Made) -> Result<Option<Made>, NoMemory>
    ensures { IfOk result (λ m. m ≡ spec.arithmetic name a b) }
{
    let number = number_of(&a.ty, &b.ty);
    calculated(alloc, name, number, a, b)
}

/// An operation that comes to the type of its first operand.
fn of_first(alloc: Global, name: OpName, a: Made, b: Made) -> Result<Option<Made>, NoMemory>
    ensures { IfOk result (λ m. m ≡ Some (conversion.as_they_are name (a ∷ b ∷ []) a.ty)) }
{
    let (left, ty) = core_and_type(a);
    Ok(Some(on_two(alloc, name, left, core_of(b), ty)?))
}

fn of_same(alloc: Global, name: OpName, a: Made, b: Made) -> Result<Option<Made>, NoMemory>
    ensures { IfOk result (λ m. m ≡ spec.of_same name a b) }
{
    if same(&a.ty, &b.ty) {
        of_first(alloc, name, a, b)
    } else {
        Ok(both_refused(a, b))
    }
}

fn add(alloc: Global, a: Made, b: Made) -> Result<Option<Made>, NoMemory>
    ensures { IfOk result (λ m. m ≡ spec.add_by (out-Ty a.ty) a b) }
{
    match &a.ty {
        Ty::Text => of_same(alloc, OpName::Add, a, b),
        Ty::ListOf(_) => of_same(alloc, OpName::Add, a, b),
        Ty::SetOf(_) => of_same(alloc, OpName::Add, a, b),
        Ty::DictOf(_, _) => of_same(alloc, OpName::Add, a, b),
        _ => arithmetic(alloc, OpName::Add, a, b),
    }
}

fn is_set_of(element: &Ty, ty: &Ty) -> bool
    ensures { result ≡ spec.is_set_of element.now (out-Ty ty.now) }
{
    match ty {
        Ty::SetOf(own) => same(own.get(), element),
        _ => false,
    }
}

fn subtract(alloc: Global, a: Made, b: Made) -> Result<Option<Made>, NoMemory>
    ensures { IfOk result (λ m. m ≡ spec.subtract_by (out-Ty a.ty) a b) }
{
    match &a.ty {
        Ty::SetOf(_) => of_same(alloc, OpName::Sub, a, b),
        Ty::DictOf(key, _) => {
            if is_set_of(key.get(), &b.ty) {
                of_first(alloc, OpName::Sub, a, b)
            } else {
                Ok(both_refused(a, b))
            }
        }
        _ => arithmetic(alloc, OpName::Sub, a, b),
    }
}

fn multiply(alloc: Global, a: Made, b: Made) -> Result<Option<Made>, NoMemory>
    ensures { IfOk result (λ m. m ≡ spec.multiply_by (out-Ty a.ty) a b) }
{
    match &a.ty {
        Ty::SetOf(_) => of_same(alloc, OpName::Mul, a, b),
        _ => arithmetic(alloc, OpName::Mul, a, b),
    }
}

fn is_bool(ty: &Ty) -> bool
    ensures { result ≡ spec.is_bool (out-Ty ty.now) }
{
    match ty {
        Ty::Bool => true,
        _ => false,
    }
}

fn are_bools(a: &Made, b: &Made) -> bool
    ensures { result ≡ spec.are_bools a.now b.now }
{
    is_bool(&a.ty) && is_bool(&b.ty)
}

fn boxed_two(
    alloc: Global,
    left: CExpr,
    right: CExpr,
) -> Result<(Boxed<CExpr>, Boxed<CExpr>), NoMemory>
    ensures { IfOk result (λ both. both ≡ (left, right)) }
{
    let left = Boxed::new(alloc, left)?;
    let right = Boxed::new(alloc, right)?;
    Ok((left, right))
}

fn conjunction(alloc: Global, a: Made, b: Made) -> Result<Option<Made>, NoMemory>
    ensures { IfOk result (λ m. m ≡ spec.conjunction a b) }
{
    if !are_bools(&a, &b) {
        return Ok(both_refused(a, b));
    }
    let (left, right) = boxed_two(alloc, core_of(a), core_of(b))?;
    let core = CExpr::And(left, right);
    Ok(Some(Made { core, ty: Ty::Bool }))
}

fn disjunction(alloc: Global, a: Made, b: Made) -> Result<Option<Made>, NoMemory>
    ensures { IfOk result (λ m. m ≡ spec.disjunction a b) }
{
    if !are_bools(&a, &b) {
        return Ok(both_refused(a, b));
    }
    let (left, right) = boxed_two(alloc, core_of(a), core_of(b))?;
    let core = CExpr::Or(left, right);
    Ok(Some(Made { core, ty: Ty::Bool }))
}

fn of_ints(alloc: Global, name: OpName, a: Made, b: Made) -> Result<Option<Made>, NoMemory>
    ensures { IfOk result (λ m. m ≡ spec.of_ints name a b) }
{
    let operands = list_of_two(alloc, a, b)?;
    wanting(alloc, name, &[Ty::Int, Ty::Int], Ty::Int, operands)
}

fn divide(alloc: Global, a: Made, b: Made) -> Result<Option<Made>, NoMemory>
    ensures { IfOk result (λ m. m ≡ spec.divide a b) }
{
    let operands = list_of_two(alloc, a, b)?;
    wanting(
        alloc,
        OpName::Divide,
        &[Ty::Real, Ty::Real],
        Ty::Real,
        operands,
    )
}

/// What an operator of a chain makes of its operands.
pub(crate) fn binary(
    alloc: Global,
    operator: Operator,
    a: Made,
    b: Made,
) -> Result<Option<Made>, NoMemory>
    ensures { IfOk result (λ m. m ≡ spec.binary operator a b) }
{
    match operator {
        Operator::Or => disjunction(alloc, a, b),
        Operator::And => conjunction(alloc, a, b),
        Operator::Add => add(alloc, a, b),
        Operator::Subtract => subtract(alloc, a, b),
        Operator::Multiply => multiply(alloc, a, b),
        Operator::Divide => divide(alloc, a, b),
        Operator::DivideWhole => of_ints(alloc, OpName::Div, a, b),
        Operator::Remainder => of_ints(alloc, OpName::Mod, a, b),
    }
}

/// What `^` makes of its operands.
pub(crate) fn power(alloc: Global, a: Made, b: Made) -> Result<Option<Made>, NoMemory>
    ensures { IfOk result (λ m. m ≡ spec.power a b) }
{
    of_ints(alloc, OpName::Power, a, b)
}

fn negated(alloc: Global, m: Made) -> Result<Option<Made>, NoMemory>
    ensures { IfOk result (λ n. n ≡ spec.negated (out-Ty m.ty) m) }
{
    match &m.ty {
        Ty::Int => on_it(alloc, OpName::Neg, m, Ty::Int),
        Ty::Real => on_it(alloc, OpName::Neg, m, Ty::Real),
        _ => Ok(refused(m)),
    }
}

fn unchanged(m: Made) -> Option<Made>
    ensures { result ≡ spec.unchanged (out-Ty m.ty) m }
{
    match &m.ty {
        Ty::Int => Some(m),
        Ty::Real => Some(m),
        _ => refused(m),
    }
}

fn sampled(alloc: Global, m: Made) -> Result<Option<Made>, NoMemory>
    ensures { IfOk result (λ n. n ≡ spec.sampled (out-Ty m.ty) m) }
{
    let (core, ty) = core_and_type(m);
    match ty {
        Ty::Dist(drawn) => {
            let outcome = drawn.into_inner();
            Ok(Some(on_one(alloc, OpName::Sample, core, outcome)?))
        }
        ty => Ok(refused(Made { core, ty })),
    }
}

/// What an operator makes of the operand after it.
pub(crate) fn prefixed(alloc: Global, sign: PrefixSign, m: Made) -> Result<Option<Made>, NoMemory>
    ensures { IfOk result (λ n. n ≡ spec.prefixed sign m) }
{
    match sign {
        PrefixSign::Not => {
            let operands = list_of_one(alloc, m)?;
            wanting(alloc, OpName::Not, &[Ty::Bool], Ty::Bool, operands)
        }
        PrefixSign::Minus => negated(alloc, m),
        PrefixSign::Plus => Ok(unchanged(m)),
        PrefixSign::Sample => sampled(alloc, m),
    }
}
