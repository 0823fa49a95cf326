//! Those that wait until others have finished: each watches one of them that hasn't, and looks again once that has.

ghost use Rattle.std.specs.Prelude.{◌≡◌, ◌<◌, ◌≤◌, true, false, [], length, get_or, OnOk, OnErr, IfOk, nat_eq, slice_set, if◌then◌else◌};
ghost use Rattle.chi_machine_agenda.specs.Joined.{freed, freed_by, has_ended, lowered, lowered_by, numbers_at, still, AreAhead, AreLeft, AreRoomy, AreSeen, IsSeen, IsWatched, SameLeft, Sees};
ghost use Rattle.chi_machine_agenda.specs.Joining.{Begins, Ends, Fails, SameJoins, Stays};
ghost use Rattle.chi_machine_agenda.specs.Phases.{AreThere};

use crate::marking::tell;
use crate::rows::Rows;
use chi_base::NoMemory;
use chi_order::Ranks;
use std::alloc::Global;

/// For each instance the numbers of those for which it waits, how many of these may be left, and who watches it. Those that
/// wait for nobody have none left, and some may watch that wait no more.
#[derive(Debug, Drop)]
pub struct Joins {
    numbers: Rows,
    left: Vec<usize>,
    watchers: Rows,
}

/// Whether an instance has finished.
#[inline(always)]
fn has_ended(finished: &Vec<bool>, pid: u32) -> bool
    ensures { result ≡ has_ended finished.now.items pid }
{
    match finished.get(pid as usize) {
        Some(ended) => *ended,
        None => false,
    }
}

/// How many numbers an instance may still have to wait for.
#[inline(always)]
fn left_of(left: &Vec<usize>, pid: u32) -> usize
    ensures { result ≡ get_or left.now.items pid 0 }
{
    match left.get(pid as usize) {
        Some(count) => *count,
        None => 0,
    }
}

/// That number is changed.
#[inline(always)]
fn leave(left: &mut Vec<usize>, pid: u32, count: usize)
    requires { pid < length left.old.items }
    ensures { left.new.items ≡ slice_set left.old.items pid count }
{
    left[pid as usize] = count;
}

/// Of so many numbers, up to which they are still waited for: all from there on have finished.
fn still(finished: &Vec<bool>, numbers: &[u32], count: usize) -> usize
    requires { count ≤ length numbers.now }
    ensures { result ≡ still finished.now.items numbers.now count }
{
    let mut left = count;
    while left > 0 {
        if !has_ended(finished, numbers[left - 1]) {
            return left;
        }
        left -= 1;
    }
    0
}

/// One of the numbers.
#[inline(always)]
fn number_of(numbers: &[u32], place: usize) -> u32
    requires { place < length numbers.now }
    ensures { result ≡ get_or numbers.now place 0 }
{
    numbers[place]
}

/// An instance, of whose numbers so many may still be waited for, watches the last of these that hasn't finished. How many
/// are left then.
fn watch(
    finished: &Vec<bool>,
    numbers: &[u32],
    count: usize,
    watchers: &mut Rows,
    pid: u32,
) -> Result<usize, NoMemory>
    requires within { count ≤ length numbers.now }
    requires there { AreThere (length watchers.old) numbers.now }
    ensures watched { IsWatched finished.now.items watchers.old watchers.new }
    ensures left { IfOk result (λ left. left ≡ still finished.now.items numbers.now count) }
    ensures seen { OnOk result (Sees numbers.now (still finished.now.items numbers.now count) watchers.new pid) }
{
    let left = still(finished, numbers, count);
    if left == 0 {
        return Ok(0);
    }
    watchers.push(number_of(numbers, left - 1), pid)?;
    Ok(left)
}

/// One that watched an instance watches another.
fn look(
    finished: &Vec<bool>,
    numbers: &Rows,
    left: &Vec<usize>,
    watchers: &mut Rows,
    pid: u32,
) -> Result<(), NoMemory>
    requires ahead { AreAhead (length watchers.old) numbers.now left.now.items }
    ensures watched { IsWatched finished.now.items watchers.old watchers.new }
    ensures seen { OnOk result (IsSeen finished.now.items numbers.now left.now.items watchers.new pid) }
{
    let had = left_of(left, pid);
    if had == 0 {
        return Ok(());
    }
    watch(finished, numbers.at(pid), had, watchers, pid)?;
    Ok(())
}

/// All that watched an instance, which has finished, watch others.
fn look_all(
    finished: &Vec<bool>,
    numbers: &Rows,
    left: &Vec<usize>,
    watchers: &mut Rows,
    pid: u32,
) -> Result<(), NoMemory>
    requires ahead { AreAhead (length watchers.old) numbers.now left.now.items }
    requires pid { pid < length watchers.old }
    requires ended { has_ended finished.now.items pid ≡ true }
    ensures watched { IsWatched finished.now.items watchers.old watchers.new }
    ensures seen { OnOk result (AreSeen finished.now.items numbers.now left.now.items (numbers_at watchers.old pid) watchers.new) }
{
    for i in 0..watchers.at(pid).len() {
        let watcher = watchers.number_at(pid, i);
        look(finished, numbers, left, watchers, watcher)?;
    }
    Ok(())
}

/// An instance is ready where none of its numbers is left.
#[inline(always)]
fn free(ready: &mut Ranks, pid: u32, left: usize)
    requires { pid < length ready.old }
    ensures { ready.new ≡ (if nat_eq left 0 then slice_set ready.old pid true else ready.old) }
{
    if left == 0 {
        ready.insert(pid);
    }
}

/// One that watched an instance, which has finished, passes over all its numbers that have. It is ready where none is left.
fn pass(finished: &Vec<bool>, numbers: &Rows, left: &mut Vec<usize>, ready: &mut Ranks, pid: u32)
    requires within { AreLeft numbers.now left.old.items }
    requires room { AreRoomy left.old.items ready.old }
    ensures left { left.new.items ≡ lowered_by finished.now.items numbers.now pid left.old.items }
    ensures ready { ready.new ≡ freed_by finished.now.items numbers.now pid left.old.items ready.old }
{
    let had = left_of(left, pid);
    if had == 0 {
        return;
    }
    let has = still(finished, numbers.at(pid), had);
    leave(left, pid, has);
    free(ready, pid, has);
}

/// So do all of these.
fn pass_all(
    finished: &Vec<bool>,
    numbers: &Rows,
    left: &mut Vec<usize>,
    ready: &mut Ranks,
    pids: &[u32],
)
    requires within { AreLeft numbers.now left.old.items }
    requires room { AreRoomy left.old.items ready.old }
    ensures left { left.new.items ≡ lowered finished.now.items numbers.now pids.now left.old.items }
    ensures ready { ready.new ≡ freed finished.now.items numbers.now pids.now left.old.items ready.old }
{
    for pid in pids {
        pass(finished, numbers, left, ready, *pid);
    }
}

/// Instance `pid`, which runs, waits until those of these numbers have finished. It is ready where all have.
pub(crate) fn join(
    finished: &Vec<bool>,
    ready: &mut Ranks,
    joins: &mut Joins,
    pid: u32,
    numbers: &[u32],
) -> Result<(), NoMemory>
    requires there { AreThere (length joins.old.watchers) numbers.now }
    requires ready { pid < length ready.old }
    requires numbers { pid < length joins.old.numbers }
    requires left { pid < length joins.old.left.items }
    ensures ok { OnOk result (Begins finished.now.items pid numbers.now ready.old joins.old ready.new joins.new) }
    ensures err { OnErr result (Fails finished.now.items pid numbers.now ready.old joins.old ready.new joins.new) }
{
    joins.numbers.set(pid, numbers)?;
    let left = watch(finished, numbers, numbers.len(), &mut joins.watchers, pid)?;
    leave(&mut joins.left, pid, left);
    tell(ready, pid, left == 0);
    Ok(())
}

/// Instance `pid`, which waited until others have finished, goes on.
pub(crate) fn end_join(ready: &mut Ranks, joins: &mut Joins, pid: u32)
    requires ready { pid < length ready.old }
    requires left { pid < length joins.old.left.items }
    ensures ready { ready.new ≡ slice_set ready.old pid true }
    ensures left { joins.new.left.items ≡ slice_set joins.old.left.items pid 0 }
    ensures numbers { joins.new.numbers ≡ joins.old.numbers }
    ensures watchers { joins.new.watchers ≡ joins.old.watchers }
{
    leave(&mut joins.left, pid, 0);
    ready.insert(pid);
}

/// Instance `pid`, which ran, has finished, or after a refusal still runs.
pub(crate) fn finish(
    finished: &mut Vec<bool>,
    ready: &mut Ranks,
    joins: &mut Joins,
    pid: u32,
) -> Result<(), NoMemory>
    requires ahead { AreAhead (length joins.old.watchers) joins.old.numbers joins.old.left.items }
    requires room { AreRoomy joins.old.left.items ready.old }
    requires ready { pid < length ready.old }
    requires finished { pid < length finished.old.items }
    requires runs { has_ended finished.old.items pid ≡ false }
    requires watchers { pid < length joins.old.watchers }
    ensures ok { OnOk result (Ends pid finished.old.items ready.old joins.old finished.new.items ready.new joins.new) }
    ensures err { OnErr result (Stays pid finished.old.items ready.old joins.old finished.new.items ready.new joins.new) }
{
    finished[pid as usize] = true;
    match look_all(
        finished,
        &joins.numbers,
        &joins.left,
        &mut joins.watchers,
        pid,
    ) {
        Ok(()) => {}
        Err(NoMemory) => {
            finished[pid as usize] = false;
            return Err(NoMemory);
        }
    }
    ready.remove(pid);
    pass_all(
        finished,
        &joins.numbers,
        &mut joins.left,
        ready,
        joins.watchers.at(pid),
    );
    Ok(())
}

impl Joins {
    /// For no instances. It takes no memory.
    pub(crate) fn new(alloc: Global) -> Joins
        ensures numbers { result.numbers ≡ [] }
        ensures left { result.left.items ≡ [] }
        ensures watchers { result.watchers ≡ [] }
    {
        Joins {
            numbers: Rows::new(alloc),
            left: Vec::new(alloc),
            watchers: Rows::new(alloc),
        }
    }

    /// Whether an instance has nobody left to wait for.
    #[inline(always)]
    pub(crate) fn is_free(&self, pid: u32) -> bool
        ensures { result ≡ nat_eq (get_or self.now.left.items pid 0) 0 }
    {
        left_of(&self.left, pid) == 0
    }

    /// Room for so many instances at least. New ones wait for nobody.
    pub(crate) fn reserve(&mut self, count: usize) -> Result<(), NoMemory>
        ensures kept { SameJoins self.old self.new }
        ensures numbers { OnOk result (count ≤ length self.new.numbers) }
        ensures left { OnOk result (count ≤ length self.new.left.items) }
        ensures watchers { OnOk result (count ≤ length self.new.watchers) }
    {
        self.numbers.reserve(count)?;
        lengthen(&mut self.left, count)?;
        self.watchers.reserve(count)
    }
}

/// None are left of new lists.
fn lengthen(left: &mut Vec<usize>, count: usize) -> Result<(), NoMemory>
    ensures room { OnOk result (count ≤ length left.new.items) }
    ensures more { length left.old.items ≤ length left.new.items }
    ensures kept { SameLeft left.old.items left.new.items }
{
    for _more in left.len()..count {
        left.push(0)?;
    }
    Ok(())
}
