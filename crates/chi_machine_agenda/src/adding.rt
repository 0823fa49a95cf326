//! Room for more instances.

ghost use Rattle.std.specs.Prelude.{◌≤◌, OnOk};
ghost use Rattle.chi_machine_agenda.specs.Joining.{IsRoomier};
ghost use Rattle.chi_machine_agenda.specs.Kept.{HasRoom};

use crate::joining::Joins;
use chi_base::NoMemory;
use chi_order::{Dues, Ranks};

/// Room for so many instances at least. What was kept stands, also after a refusal.
pub(crate) fn make_room(
    ready: &mut Ranks,
    dues: &mut Dues,
    joins: &mut Joins,
    count: u32,
) -> Result<(), NoMemory>
    requires { count ≤ 100000 }
    ensures kept { IsRoomier ready.old dues.old joins.old ready.new dues.new joins.new }
    ensures room { OnOk result (HasRoom count ready.new dues.new joins.new.numbers joins.new.left.items joins.new.watchers) }
{
    ready.reserve(count)?;
    dues.reserve(count)?;
    joins.reserve(count as usize)
}
