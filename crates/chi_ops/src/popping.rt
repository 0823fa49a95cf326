ghost use Rattle.std.specs.Prelude.{◌≡◌, IfOk, IfErr, IsTrue};
ghost use Rattle.chi_sets.specs.Dictionaries.{are_entries};
ghost use Rattle.chi_ops.specs.Conditions.{may_pop};
ghost use Rattle.chi_ops.specs.Operations.{pop, entry_and_rest};
ghost use Rattle.chi_ops.specs.Outcome.{gives};
ghost use Rattle.chi_ops.specs.Refusal.{Refuses};

use crate::OpFault;
use crate::made::{pair, parts_of, triple};
use chi_value::{Items, Value};
use std::alloc::Global;

/// The first and the rest: of a list its first element, of a set the least, of a dictionary the least key and what it has.
pub fn pop(alloc: Global, v: &Value) -> Result<Value, OpFault>
    requires fits { IsTrue (may_pop v.now) }
    ensures value { IfOk result (λ value. pop v.now ≡ gives value) }
    ensures refused { IfErr result (λ fault. Refuses fault (pop v.now)) }
{
    Ok(popped(alloc, v.copy(alloc)?)?)
}

/// As pop, of a value that is used up: where its elements aren't shared none is copied, and those of a list stay where
/// they are.
pub fn popped(alloc: Global, v: Value) -> Result<Value, OpFault>
    requires fits { IsTrue (may_pop v) }
    ensures value { IfOk result (λ value. pop v ≡ gives value) }
    ensures refused { IfErr result (λ fault. Refuses fault (pop v)) }
{
    match v {
        Value::ListOf(mut rest) => {
            if rest.len() == 0 {
                return Err(OpFault::Empty);
            }
            let first = rest.take_first(alloc)?;
            Ok(pair(alloc, first, Value::ListOf(rest))?)
        }
        Value::SetOf(mut rest) => {
            if rest.as_slice().is_empty() {
                return Err(OpFault::Empty);
            }
            let first = rest.take_first(alloc)?;
            Ok(pair(alloc, first, Value::SetOf(rest))?)
        }
        Value::DictOf(entries) => Ok(pop_entry(alloc, entries)?),
        _ => unreachable!(),
    }
}

/// The least key, what it has, and the rest.
fn pop_entry(alloc: Global, mut rest: Items) -> Result<Value, OpFault>
    requires { IsTrue (are_entries rest) }
    ensures value { IfOk result (λ value. entry_and_rest rest ≡ gives value) }
    ensures refused { IfErr result (λ fault. Refuses fault (entry_and_rest rest)) }
{
    if rest.as_slice().is_empty() {
        return Err(OpFault::Empty);
    }
    let first = rest.take_first(alloc)?;
    let (key, has) = parts_of(&first);
    Ok(triple(
        alloc,
        key.copy(alloc)?,
        has.copy(alloc)?,
        Value::DictOf(rest),
    )?)
}
