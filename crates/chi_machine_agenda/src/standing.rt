ghost use Rattle.std.specs.Prelude.{◌≡◌, ◌∷◌, ◌++◌, ◌<◌, [], false, length, slice_get, slice_set, OnErr, OnOk};
ghost use Rattle.chi_machine_agenda.specs.declared.standing.Standing.TheVariants.{Running};

use chi_base::NoMemory;

/// How an instance stands. What it waits for is kept elsewhere.
#[derive(Clone, Copy, Debug)]
pub enum Standing {
    Running,
    Waiting,
    Joining,
    Finished,
}

/// How many instances there are.
#[inline(always)]
pub(crate) fn count(standings: &Vec<Standing>) -> usize
    ensures { result ≡ length standings.now.items }
{
    standings.len()
}

/// One instance more, which runs.
pub(crate) fn enlist(
    standings: &mut Vec<Standing>,
    finished: &mut Vec<bool>,
) -> Result<(), NoMemory>
    ensures standings { OnOk result (standings.new.items ≡ standings.old.items ++ Running ∷ []) }
    ensures finished { OnOk result (finished.new.items ≡ finished.old.items ++ false ∷ []) }
    ensures standings_err { OnErr result (standings.new.items ≡ standings.old.items) }
    ensures finished_err { OnErr result (finished.new.items ≡ finished.old.items) }
{
    standings.reserve(1)?;
    finished.push(false)?;
    standings.push_reserved(Standing::Running);
    Ok(())
}

/// An instance stands otherwise.
#[inline(always)]
pub(crate) fn stand(standings: &mut Vec<Standing>, pid: u32, standing: Standing)
    requires { pid < length standings.old.items }
    ensures { standings.new.items ≡ slice_set standings.old.items pid standing }
{
    standings[pid as usize] = standing;
}

/// How an instance stands, if it is there.
#[inline(always)]
pub(crate) fn standing_at(standings: &Vec<Standing>, pid: u32) -> Option<Standing>
    ensures { result ≡ slice_get standings.now.items pid }
{
    match standings.get(pid as usize) {
        Some(standing) => Some(*standing),
        None => None,
    }
}
