use chi_base::NoMemory;
use chi_value::{Row, Value};
use std::alloc::Global;

pub(crate) fn list(alloc: Global, numbers: &[i64]) -> Result<Value, NoMemory> {
    let mut values = Vec::new(alloc);
    for &number in numbers {
        values.push(Value::Int(number))?;
    }
    Ok(Value::ListOf(Row::of(alloc, values)?))
}
