//! Literals of one token.

ghost use Rattle.std.specs.Prelude.{◌≡◌, IfOk};
ghost use Rattle.chi_check_expr_rules.specs.Literals as spec;

use chi_base::NoMemory;
use chi_check_types::Made;
use chi_core::CExpr;
use chi_num::{read_int, read_real};
use chi_token::Bytes;
use chi_types::Ty;
use chi_value::Value;
use std::alloc::Global;

/// The int, where it is in range.
#[tactic(auto, using(crate::proofs::Numbers::int_read, crate::proofs::Numbers::int_unread))]
pub fn int_literal(digits: &Bytes) -> Option<Made>
    ensures { result ≡ spec.int_literal digits.now }
{
    match read_int(digits.as_slice()) {
        Ok(int) => Some(Made {
            core: CExpr::Lit(Value::Int(int)),
            ty: Ty::Int,
        }),
        Err(_) => None,
    }
}

/// The real rounded to the nearest unit, where that is in range.
#[tactic(auto, using(crate::proofs::Numbers::real_read, crate::proofs::Numbers::real_unread))]
pub fn real_literal(digits: &Bytes) -> Option<Made>
    ensures { result ≡ spec.real_literal digits.now }
{
    match read_real(digits.as_slice()) {
        Ok(real) => Some(Made {
            core: CExpr::Lit(Value::Real(real)),
            ty: Ty::Real,
        }),
        Err(_) => None,
    }
}

/// A literal of these bytes, of the type `string`.
pub fn text_literal(alloc: Global, bytes: &Bytes) -> Result<Made, NoMemory>
    ensures { IfOk result (λ m. m ≡ spec.text_literal bytes.now) }
{
    let text = Bytes::copy_of(alloc, bytes.as_slice())?;
    Ok(Made {
        core: CExpr::Lit(Value::Text(text)),
        ty: Ty::Text,
    })
}

/// The literal `true` or `false`.
pub fn bool_literal(truth: bool) -> Made
    ensures { result ≡ spec.bool_literal truth }
{
    Made {
        core: CExpr::Lit(Value::Bool(truth)),
        ty: Ty::Bool,
    }
}
