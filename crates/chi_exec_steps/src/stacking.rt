//! The stack of values.

ghost use Rattle.std.specs.Prelude.{◌≡◌, ◌<◌, ◌≤◌, [], ◌∷◌, ◌++◌, length, IfOk, IfErr, OnOk};
ghost use Rattle.chi_core_frame.specs.declared.stop.Stop.TheVariants.{NoMemory};

use chi_core_frame::Stop;
use chi_value::Value;
use std::alloc::Global;

/// Takes the topmost value.
#[inline(always)]
pub fn pop(stack: &mut Vec<Value>) -> Value
    requires { 0 < length stack.old.items }
    ensures { stack.old.items ≡ stack.new.items ++ result ∷ [] }
{
    match stack.pop() {
        Some(x) => x,
        None => unreachable!(),
    }
}

// A stack with a value more.
#[inline(never)]
fn grown(stack: Vec<Value>, x: Value) -> Result<Vec<Value>, Stop>
    ensures grown { IfOk result (λ s. s.items ≡ stack.items ++ x ∷ []) }
    ensures stops { IfErr result (λ stop. stop ≡ NoMemory) }
{
    let mut longer = stack;
    longer.push(x)?;
    Ok(longer)
}

/// Puts a value on top.
#[inline(always)]
pub fn put(stack: &mut Vec<Value>, x: Value, alloc: Global) -> Result<(), Stop>
    ensures put { OnOk result (stack.new.items ≡ stack.old.items ++ x ∷ []) }
    ensures stops { IfErr result (λ stop. stop ≡ NoMemory) }
{
    if stack.len() < stack.capacity() {
        stack.push_reserved(x);
        return Ok(());
    }
    let short = std::mem::replace(stack, Vec::new(alloc));
    *stack = grown(short, x)?;
    Ok(())
}

/// Takes the topmost values, the deepest first.
pub fn pop_many(stack: &mut Vec<Value>, n: usize) -> Result<Vec<Value>, Stop>
    requires { n ≤ length stack.old.items }
    ensures rest { IfOk result (λ xs. stack.old.items ≡ stack.new.items ++ xs.items) }
    ensures many { IfOk result (λ xs. length xs.items ≡ n) }
    ensures stops { IfErr result (λ stop. stop ≡ NoMemory) }
{
    let front = stack.len() - n;
    Ok(stack.split_off(front)?)
}
