//! Tests of the types of parts.

ghost use Rattle.std.specs.Prelude.{◌≡◌};
ghost use Rattle.std.specs.List.{list_all};
ghost use Rattle.chi_types.specs.declared.ty.Ty.{out-Ty};
ghost use Rattle.chi_check_types.specs.TypeRules.{is_int};
ghost use Rattle.chi_check_expr_rules.specs.Operators.{number_of};

use chi_check_types::{Made, is_int};
use chi_types::Ty;

/// Whether each part is an int.
pub fn are_ints(parts: &[Made]) -> bool
    ensures { result ≡ list_all (λ m. is_int (out-Ty m.ty)) parts.now }
{
    parts.iter().all(|part| is_int(&part.ty))
}

/// The type of an operation on two numbers.
pub fn number_of(a: &Ty, b: &Ty) -> Option<Ty>
    ensures { result ≡ number_of (out-Ty a.now) (out-Ty b.now) }
{
    match (a, b) {
        (Ty::Int, Ty::Int) => Some(Ty::Int),
        (Ty::Int, Ty::Real) => Some(Ty::Real),
        (Ty::Real, Ty::Int) => Some(Ty::Real),
        (Ty::Real, Ty::Real) => Some(Ty::Real),
        (_, _) => None,
    }
}
