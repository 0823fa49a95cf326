ghost use Rattle.std.specs.Prelude.{◌≡◌, IfOk};

use crate::Value;
use chi_base::{Boxed, Copied, NoMemory};
use std::alloc::Global;

impl Value {
    /// The same value. What is in it is shared, and not copied.
    pub fn copy(&self, alloc: Global) -> Result<Value, NoMemory>
        ensures copied { IfOk result (λ value. value ≡ self.now) }
    {
        match self {
            Value::Bool(truth) => Ok(Value::Bool(*truth)),
            Value::Int(number) => Ok(Value::Int(*number)),
            Value::Real(real) => Ok(Value::Real(*real)),
            Value::Text(text) => Ok(Value::Text(text.copy()?)),
            Value::Choice(kind, position) => Ok(Value::Choice(*kind, *position)),
            Value::TupleOf(parts) => Ok(Value::TupleOf(parts.copy()?)),
            Value::ListOf(items) => Ok(Value::ListOf(items.copy()?)),
            Value::SetOf(items) => Ok(Value::SetOf(items.copy()?)),
            Value::DictOf(items) => Ok(Value::DictOf(items.copy()?)),
            Value::Chan(number) => Ok(Value::Chan(*number)),
            Value::Dist(dist) => Ok(Value::Dist(Boxed::new(alloc, *dist.get())?)),
            Value::Timer(due) => Ok(Value::Timer(*due)),
            Value::Inst(instance) => Ok(Value::Inst(*instance)),
        }
    }
}

impl Copied for Value {
    fn copied(&self, alloc: Global) -> Result<Value, NoMemory> {
        Ok(self.copy(alloc)?)
    }
}
