//! What is made, taken apart.

ghost use Rattle.std.specs.Prelude.{◌≡◌, [], ◌∷◌, Some, option_map, IfOk};
ghost use Rattle.chi_check_expr_rules.specs.Conversions as spec;

use crate::conversions::on_one;
use chi_base::NoMemory;
use chi_check_types::{Made, Meant};
use chi_core::{CExpr, OpName};
use chi_types::Ty;
use std::alloc::Global;

/// What was made, without its type.
pub fn core_of(m: Made) -> CExpr
    ensures { result ≡ m.core }
{
    let Made { core, ty: _ty } = m;
    core
}

/// What was made, and its type.
pub fn core_and_type(m: Made) -> (CExpr, Ty)
    ensures core { result.0 ≡ m.core }
    ensures type_of { result.1 ≡ m.ty }
{
    let Made { core, ty } = m;
    (core, ty)
}

/// The type that a tree means, without what is said of sizes.
pub fn type_meant(m: Meant) -> Ty
    ensures { result ≡ m.ty }
{
    let Meant { ty, sizes: _sizes } = m;
    ty
}

/// The type that a tree means, if it is a type.
pub fn type_of(meant: Option<Meant>) -> Option<Ty>
    ensures { result ≡ option_map (λ m. m.ty) meant }
{
    match meant {
        None => None,
        Some(meant) => Some(type_meant(meant)),
    }
}

/// An operation on what is made, as it is.
pub fn on_it(alloc: Global, name: OpName, m: Made, outcome: Ty) -> Result<Option<Made>, NoMemory>
    ensures { IfOk result (λ n. n ≡ Some (spec.as_they_are name (m ∷ []) outcome)) }
{
    Ok(Some(on_one(alloc, name, core_of(m), outcome)?))
}
