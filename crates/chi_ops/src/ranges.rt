ghost use Rattle.std.specs.Prelude.{◌≡◌, ◌≢◌, pos, map, IfOk, IfErr, FitsSigned};
ghost use Rattle.std.specs.Int.{w64};
ghost use Rattle.chi_value.specs.declared.value.Value.TheVariants.{Int};
ghost use Rattle.chi_ops.specs.Outcome.{gives};
ghost use Rattle.chi_ops.specs.Progression.{progression};
ghost use Rattle.chi_ops.specs.Refusal.{Refuses};
ghost use Rattle.chi_ops.specs.Sequences.{range};
ghost use Rattle.chi_ops.specs.Walking.{rest_of, IsWalk};

use crate::OpFault;
use crate::progression::count_from;
use crate::walk::Walk;
use chi_base::NoMemory;
use chi_value::{MOST_ELEMENTS, Row, Value};
use std::alloc::Global;

/// The list of the ints from one to before another, by a step.
pub fn range(alloc: Global, from: i64, upto: i64, by: i64) -> Result<Value, OpFault>
    ensures value { IfOk result (λ value. range from upto by ≡ gives value) }
    ensures refused { IfErr result (λ fault. Refuses fault (range from upto by)) }
{
    if by == 0 {
        return Err(OpFault::SliceStep);
    }
    if count_from(from, upto, by) > MOST_ELEMENTS as u128 {
        return Err(OpFault::Limit);
    }
    let ints = ints(alloc, from, upto, by)?;
    Ok(Value::ListOf(Row::of(alloc, ints)?))
}

/// The ints from one to before another, by a step.
fn ints(alloc: Global, from: i64, upto: i64, by: i64) -> Result<Vec<Value>, NoMemory>
    requires moves { by ≢ pos 0 }
    ensures value { IfOk result (λ ints. ints.items ≡ map Int (progression from upto by)) }
{
    let mut walk = walk_of(from, upto, by);
    let mut ints = Vec::new(alloc);
    while let Some(next) = walk.step() {
        ints.push(int(next))?;
    }
    Ok(ints)
}

fn walk_of(from: i64, upto: i64, by: i64) -> Walk
    requires moves { by ≢ pos 0 }
    ensures fit { IsWalk result }
    ensures ints { rest_of result ≡ progression from upto by }
    ensures first { FitsSigned w64 result.first }
    ensures last { FitsSigned w64 result.last }
{
    Walk::new(from as i128, upto as i128, by as i128)
}

fn int(number: i128) -> Value
    requires { FitsSigned w64 number }
    ensures { result ≡ Int number }
{
    Value::Int(number as i64)
}
