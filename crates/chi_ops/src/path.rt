ghost use Rattle.std.specs.Prelude.{◌≡◌, IfOk, IsTrue};
ghost use Rattle.chi_value.specs.declared.value.Value.TheVariants.{Int};
ghost use Rattle.chi_ops.specs.Paths.{step_of, is_index, is_by};
ghost use Rattle.chi_ops.specs.Store.{by, part};

use chi_base::NoMemory;
use chi_value::Value;
use std::alloc::Global;

/// One step of a path into a value. Whether a step by a value is an index or a key is for the container to say: `At` in
/// a dictionary is its int as a key, and `Key` of an int in a list is an index.
#[derive(Debug, Drop)]
pub enum Path {
    /// An index into a list, which below 0 counts from the end.
    At(i64),
    /// A key into a dictionary.
    Key(Value),
    /// A part of a tuple, counted from 0.
    Part(u32),
}

/// The index of a step into a list.
pub(crate) fn index_of(step: &Path) -> i64
    requires { IsTrue (is_index (step_of step.now)) }
    ensures { step_of step.now ≡ by (Int result) }
{
    match step {
        Path::At(i) => *i,
        Path::Key(Value::Int(i)) => *i,
        _ => unreachable!(),
    }
}

/// The key of a step into a dictionary.
pub(crate) fn key_of(alloc: Global, step: &Path) -> Result<Value, NoMemory>
    requires { IsTrue (is_by (step_of step.now)) }
    ensures { IfOk result (λ key. step_of step.now ≡ by key) }
{
    match step {
        Path::At(i) => Ok(Value::Int(*i)),
        Path::Key(key) => Ok(key.copy(alloc)?),
        Path::Part(_) => unreachable!(),
    }
}
