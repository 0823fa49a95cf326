ghost use Rattle.std.specs.Prelude.{◌≡◌, ◌||◌, IfOk};
ghost use Rattle.chi_types.specs.Fits.{widens};
ghost use Rattle.chi_types.specs.Joined.{joined};
ghost use Rattle.chi_types.specs.declared.ty.Ty.{out-Ty};

use crate::Ty;
use crate::sameness::same;
use chi_base::NoMemory;
use std::alloc::Global;

/// The type that two types have in common, the first where they are the same.
pub fn joined(alloc: Global, a: &Ty, b: &Ty) -> Result<Option<Ty>, NoMemory>
    ensures value { IfOk result (λ ty. ty ≡ joined a.now b.now) }
{
    if same(a, b) {
        let copy = a.copy(alloc)?;
        return Ok(Some(copy));
    }
    if are_int_and_real(a, b) {
        return Ok(Some(Ty::Real));
    }
    Ok(None)
}

fn are_int_and_real(a: &Ty, b: &Ty) -> bool
    ensures value { result ≡ (widens (out-Ty a.now) (out-Ty b.now) || widens (out-Ty b.now) (out-Ty a.now)) }
{
    match (a, b) {
        (Ty::Int, Ty::Real) | (Ty::Real, Ty::Int) => true,
        (_, _) => false,
    }
}
