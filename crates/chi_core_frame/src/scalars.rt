//! Copies of values, of which numbers and truth values take no call.

ghost use Rattle.std.specs.Prelude.{◌≡◌, IfOk};

use chi_base::NoMemory;
use chi_value::Value;
use std::alloc::Global;

/// A copy of a value.
#[inline(always)]
pub fn copied(alloc: Global, value: &Value) -> Result<Value, NoMemory>
    ensures { IfOk result (λ copy. copy ≡ value.now) }
{
    match value {
        Value::Int(x) => Ok(Value::Int(*x)),
        Value::Real(x) => Ok(Value::Real(*x)),
        Value::Bool(x) => Ok(Value::Bool(*x)),
        _ => Ok(value.copy(alloc)?),
    }
}
