ghost use Rattle.std.specs.Prelude.{◌≡◌, ◌+◌, ◌<◌, ◌≤◌, OnOk, IfErr};
ghost use Rattle.chi_ops.specs.declared.fault.OpFault.TheVariants.{Limit};

use crate::OpFault;
use chi_value::MOST_ELEMENTS;

/// Whether so many elements or bytes and so many more may stand in one container or string.
pub(crate) fn test_room(size: usize, more: usize) -> Result<(), OpFault>
    ensures room { OnOk result (size + more ≤ MOST_ELEMENTS) }
    ensures refused { IfErr result (λ fault. (fault ≡ Limit) × (MOST_ELEMENTS < size + more)) }
{
    if size > MOST_ELEMENTS || more > MOST_ELEMENTS - size {
        return Err(OpFault::Limit);
    }
    Ok(())
}
