ghost use Rattle.std.specs.Prelude.{◌≡◌, Some, IfOk, IfErr, IsTrue, is_some};
ghost use Rattle.chi_sets.specs.Dictionaries.{entries_of};
ghost use Rattle.chi_ops.specs.Conditions.{may_build};
ghost use Rattle.chi_ops.specs.Operations.{build};
ghost use Rattle.chi_ops.specs.Outcome.{gives};
ghost use Rattle.chi_ops.specs.Refusal.{Refuses};

use crate::OpFault;
use crate::made::pair;
use crate::room::test_room;
use chi_base::NoMemory;
use chi_sets::{dictionary_of, set_of};
use chi_value::{Items, Kind, Row, Value};
use std::alloc::Global;

/// What a literal makes of its parts: of a dictionary they are a key, what it has, the next key and so on. A set drops
/// repeats, and in a dictionary the later of two pairs with one key wins.
pub fn build(alloc: Global, kind: Kind, parts: Vec<Value>) -> Result<Value, OpFault>
    requires fits { IsTrue (may_build kind parts.items) }
    ensures value { IfOk result (λ value. build kind parts.items ≡ gives value) }
    ensures refused { IfErr result (λ fault. Refuses fault (build kind parts.items)) }
{
    match kind {
        Kind::TupleOf => {
            test_room(parts.len(), 0)?;
            Ok(Value::TupleOf(Items::of(alloc, parts)?))
        }
        Kind::ListOf => {
            test_room(parts.len(), 0)?;
            Ok(Value::ListOf(Row::of(alloc, parts)?))
        }
        Kind::SetOf => {
            let items = set_of(alloc, parts)?;
            test_room(items.as_slice().len(), 0)?;
            Ok(Value::SetOf(items))
        }
        Kind::DictOf => {
            let entries = dictionary_of(alloc, entries_of(alloc, parts)?)?;
            test_room(entries.as_slice().len(), 0)?;
            Ok(Value::DictOf(entries))
        }
    }
}

/// A key, what it has, the next key and so on, as entries.
fn entries_of(alloc: Global, parts: Vec<Value>) -> Result<Vec<Value>, NoMemory>
    requires even { IsTrue (is_some (entries_of parts.items)) }
    ensures value { IfOk result (λ entries. entries_of parts.items ≡ Some entries.items) }
{
    let mut entries = Vec::new(alloc);
    let mut rest = parts.into_iter();
    while let Some(key) = rest.next() {
        match rest.next() {
            Some(has) => entries.push(pair(alloc, key, has)?)?,
            None => unreachable!(),
        }
    }
    Ok(entries)
}
