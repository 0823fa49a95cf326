ghost use Rattle.std.specs.Prelude.{◌≡◌, Some, IfOk, IsTrue, [], ◌∷◌};
ghost use Rattle.chi_sets.specs.Dictionaries.{is_entry, key_of, value_of};
ghost use Rattle.chi_value.specs.declared.value.Value.TheVariants.{TupleOf};

use chi_base::NoMemory;
use chi_value::{Items, Value};
use std::alloc::Global;

/// A tuple of two.
pub(crate) fn pair(alloc: Global, first: Value, second: Value) -> Result<Value, NoMemory>
    ensures made { IfOk result (λ value. value ≡ TupleOf (first ∷ second ∷ [])) }
{
    let mut parts = Vec::with_capacity(alloc, 2)?;
    parts.push(first)?;
    parts.push(second)?;
    Ok(Value::TupleOf(Items::of(alloc, parts)?))
}

/// A tuple of three.
pub(crate) fn triple(
    alloc: Global,
    first: Value,
    second: Value,
    third: Value,
) -> Result<Value, NoMemory>
    ensures made { IfOk result (λ value. value ≡ TupleOf (first ∷ second ∷ third ∷ [])) }
{
    let mut parts = Vec::with_capacity(alloc, 3)?;
    parts.push(first)?;
    parts.push(second)?;
    parts.push(third)?;
    Ok(Value::TupleOf(Items::of(alloc, parts)?))
}

/// The key of an entry and what it has.
pub(crate) fn parts_of(entry: &Value) -> (&Value, &Value)
    requires { IsTrue (is_entry entry.now) }
    ensures key { key_of entry.now ≡ Some result.0.now }
    ensures has { value_of entry.now ≡ Some result.1.now }
{
    match entry {
        Value::TupleOf(parts) => match parts.as_slice() {
            [key, has] => (key, has),
            _ => unreachable!(),
        },
        _ => unreachable!(),
    }
}
