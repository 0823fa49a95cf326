ghost use Rattle.std.specs.Prelude.{◌≡◌, ◌+◌, IfOk};

use chi_base::NoMemory;

/// The sum of two numbers of instructions.
pub fn plus(a: u64, b: u64) -> Result<u64, NoMemory>
    ensures { IfOk result (λ n. n ≡ a + b) }
{
    a.checked_add(b).ok_or(NoMemory)
}
