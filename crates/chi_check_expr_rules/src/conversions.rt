//! What stands in the core where a value serves for one of another type, and operations on
//! operands of the types that they want.

ghost use Rattle.std.specs.Prelude.{◌≡◌, [], ◌∷◌, ◌++◌, map, IfOk};
ghost use Rattle.chi_types.specs.declared.ty.Ty.{out-Ty};
ghost use Rattle.chi_types.specs.Fits.{widens};
ghost use Rattle.chi_core.specs.declared.expression.CExpr.TheVariants as expression;
ghost use Rattle.chi_check_expr_rules.specs.Conversions as spec;

use crate::lists::{list_of_one, list_of_two};
use chi_base::{Items, NoMemory};
use chi_check_types::Made;
use chi_core::{CExpr, OpName};
use chi_types::{Ty, fits};
use std::alloc::Global;

fn widens(given: &Ty, wanted: &Ty) -> bool
    ensures { result ≡ widens (out-Ty given.now) (out-Ty wanted.now) }
{
    match (given, wanted) {
        (Ty::Int, Ty::Real) => true,
        (_, _) => false,
    }
}

/// An int where a real is wanted is converted; nothing else is.
pub fn converted(alloc: Global, made: Made, wanted: &Ty) -> Result<CExpr, NoMemory>
    ensures { IfOk result (λ e. e ≡ spec.converted made wanted.now) }
{
    let Made { core, ty } = made;
    if !widens(&ty, wanted) {
        return Ok(core);
    }
    Ok(CExpr::Op(OpName::Widen, list_of_one(alloc, core)?))
}

/// Each part, brought to the wanted type: an int where a real is wanted, by a conversion; any other as it is.
pub fn all_converted(
    alloc: Global,
    parts: Items<Made>,
    wanted: &Ty,
) -> Result<Items<CExpr>, NoMemory>
    ensures { IfOk result (λ es. es ≡ map (λ m. spec.converted m wanted.now) parts) }
{
    let mut cores = Vec::new(alloc);
    for part in parts.into_vec(alloc)? {
        cores.push(converted(alloc, part, wanted)?)?;
    }
    Ok(Items::of(alloc, cores)?)
}

/// The cores of all parts, after others.
pub fn with_cores(
    alloc: Global,
    before: Vec<CExpr>,
    parts: Items<Made>,
) -> Result<Items<CExpr>, NoMemory>
    ensures { IfOk result (λ es. es ≡ before.items ++ map (λ m. m.core) parts) }
{
    let mut cores = before;
    for part in parts.into_vec(alloc)? {
        cores.push(part.core)?;
    }
    Ok(Items::of(alloc, cores)?)
}

/// The operands as they are wanted; none where their number differs or one doesn't fit.
pub fn passed(
    alloc: Global,
    operands: Items<Made>,
    wanted: &[Ty],
) -> Result<Option<Items<CExpr>>, NoMemory>
    ensures { IfOk result (λ es. es ≡ spec.passed operands wanted.now) }
{
    let mut cores = Vec::new(alloc);
    let mut others = wanted;
    for operand in operands.into_vec(alloc)? {
        let Some((ty, rest)) = others.split_first() else {
            return Ok(None);
        };
        if !fits(&operand.ty, ty) {
            return Ok(None);
        }
        cores.push(converted(alloc, operand, ty)?)?;
        others = rest;
    }
    if !others.is_empty() {
        return Ok(None);
    }
    Ok(Some(Items::of(alloc, cores)?))
}

/// An operation on operands of the types that it wants.
pub fn wanting(
    alloc: Global,
    name: OpName,
    wanted: &[Ty],
    outcome: Ty,
    operands: Items<Made>,
) -> Result<Option<Made>, NoMemory>
    ensures { IfOk result (λ m. m ≡ spec.wanting name wanted.now outcome operands) }
{
    let Some(cores) = passed(alloc, operands, wanted)? else {
        return Ok(None);
    };
    let core = CExpr::Op(name, cores);
    Ok(Some(Made { core, ty: outcome }))
}

/// An operation on one operand as it is.
pub fn on_one(alloc: Global, name: OpName, operand: CExpr, outcome: Ty) -> Result<Made, NoMemory>
    ensures { IfOk result (λ m. m ≡ spec.made (expression.Op name (operand ∷ [])) outcome) }
{
    let core = CExpr::Op(name, list_of_one(alloc, operand)?);
    Ok(Made { core, ty: outcome })
}

/// An operation on two operands as they are.
pub fn on_two(
    alloc: Global,
    name: OpName,
    left: CExpr,
    right: CExpr,
    outcome: Ty,
) -> Result<Made, NoMemory>
    ensures { IfOk result (λ m. m ≡ spec.made (expression.Op name (left ∷ right ∷ [])) outcome) }
{
    let core = CExpr::Op(name, list_of_two(alloc, left, right)?);
    Ok(Made { core, ty: outcome })
}

/// An operation on two operands, each converted to one type.
pub fn both_as(
    alloc: Global,
    name: OpName,
    ty: &Ty,
    a: Made,
    b: Made,
    outcome: Ty,
) -> Result<Made, NoMemory>
    ensures { IfOk result (λ m. m ≡ spec.both_as name ty.now a b outcome) }
{
    let left = converted(alloc, a, ty)?;
    let right = converted(alloc, b, ty)?;
    on_two(alloc, name, left, right, outcome)
}

/// A test of two operands, each converted to the type that they have in common.
pub fn compared(
    alloc: Global,
    name: OpName,
    common: Option<Ty>,
    a: Made,
    b: Made,
) -> Result<Option<Made>, NoMemory>
    ensures { IfOk result (λ m. m ≡ spec.compared name common a b) }
{
    let Some(ty) = common else {
        return Ok(None);
    };
    Ok(Some(both_as(alloc, name, &ty, a, b, Ty::Bool)?))
}
