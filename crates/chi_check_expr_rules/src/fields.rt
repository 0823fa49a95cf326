//! The part of a tuple that a name stands for.

ghost use Rattle.std.specs.Prelude.{◌≡◌, IfOk};
ghost use Rattle.chi_types.specs.declared.ty.Ty.{out-Ty};
ghost use Rattle.chi_check_expr_rules.specs.Parts as spec;

use chi_base::NoMemory;
use chi_token::Bytes;
use chi_types::Ty;
use std::alloc::Global;

/// The position and the type of the part of this name.
fn position_of(
    alloc: Global,
    name: &Bytes,
    parts: &[(Bytes, Ty)],
) -> Result<Option<(u32, Ty)>, NoMemory>
    ensures { IfOk result (λ found. found ≡ spec.position_from 0 name.now parts.now) }
{
    for (number, part) in parts.iter().enumerate() {
        if name.as_slice() == part.0.as_slice() {
            // Parts are numbered below 2^32: no source within 1,048,576 bytes has a tuple of more.
            let Ok(number) = u32::try_from(number) else {
                return Err(NoMemory);
            };
            let ty = part.1.copy(alloc)?;
            return Ok(Some((number, ty)));
        }
    }
    Ok(None)
}

/// The position and the type of the field of this name, where the type has one.
pub fn field_in(alloc: Global, ty: &Ty, name: &Bytes) -> Result<Option<(u32, Ty)>, NoMemory>
    ensures { IfOk result (λ found. found ≡ spec.field_in (out-Ty ty.now) name.now) }
{
    match ty {
        Ty::TupleOf(parts) => position_of(alloc, name, parts.as_slice()),
        _ => Ok(None),
    }
}
