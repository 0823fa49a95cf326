//! For whom instances wait that join, and whether one waits for itself.

ghost use Rattle.std.specs.Prelude.{◌≡◌, ◌≤◌, ◌<◌, [], ◌∷◌, length, nat_eq, IfOk, OnOk};
ghost use Rattle.std.specs.List.{list_any};
ghost use Rattle.chi_plain_open.specs.Instances.{state_of};
ghost use Rattle.chi_explain_waiting.specs.Finding.{Adds, IsMarked, Reaches};
ghost use Rattle.chi_explain_waiting.specs.Joins.{is_in_ring, not_over, once, waited, waited_in, with_number, with_numbers};

use chi_base::NoMemory;
use chi_plain_open::State;
use chi_plain_steps::Configuration;
use std::alloc::Global;

/// Instances that were found: their numbers, each once, and a mark for each that is there.
#[derive(Drop)]
pub struct Found {
    numbers: Vec<u32>,
    marks: Vec<bool>,
}

impl Found {
    /// None is found, of so many.
    #[tactic(auto, using(crate::proofs::Findings::finding))]
    fn new(alloc: Global, count: usize) -> Result<Found, NoMemory>
        ensures none { IfOk result (λ found. found.numbers.items ≡ []) }
        ensures marked { IfOk result (λ found. IsMarked found.numbers.items found.marks.items) }
        ensures room { IfOk result (λ found. length found.marks.items ≡ count) }
    {
        Ok(Found {
            numbers: Vec::new(alloc),
            marks: vec![in alloc; false; count]?,
        })
    }

    /// Whether an instance is found.
    fn has(&self, pid: u32) -> bool
        requires { IsMarked self.now.numbers.items self.now.marks.items }
        ensures { result ≡ list_any (λ q. nat_eq q pid) self.now.numbers.items }
    {
        let at = pid as usize;
        if at < self.marks.len() {
            self.marks[at]
        } else {
            self.numbers.as_slice().contains(&pid)
        }
    }

    /// Adds an instance, where it isn't found yet.
    #[tactic(auto, using(crate::proofs::Findings::finding))]
    fn add(&mut self, pid: u32) -> Result<(), NoMemory>
        requires { IsMarked self.old.numbers.items self.old.marks.items }
        ensures marked { OnOk result (IsMarked self.new.numbers.items self.new.marks.items) }
        ensures room { OnOk result (length self.new.marks.items ≡ length self.old.marks.items) }
        ensures adds { OnOk result (Adds self.old.numbers.items self.new.numbers.items (pid ∷ [])) }
        ensures once { OnOk result (self.new.numbers.items ≡ with_number self.old.numbers.items pid) }
    {
        if self.has(pid) {
            return Ok(());
        }
        self.numbers.push(pid)?;
        let at = pid as usize;
        if at < self.marks.len() {
            self.marks[at] = true;
        }
        Ok(())
    }

    /// Adds those of these instances that aren't found yet.
    #[tactic(auto, using(crate::proofs::Findings::finding))]
    fn add_all(&mut self, pids: &[u32]) -> Result<(), NoMemory>
        requires { IsMarked self.old.numbers.items self.old.marks.items }
        ensures marked { OnOk result (IsMarked self.new.numbers.items self.new.marks.items) }
        ensures room { OnOk result (length self.new.marks.items ≡ length self.old.marks.items) }
        ensures adds { OnOk result (Adds self.old.numbers.items self.new.numbers.items pids.now) }
        ensures once { OnOk result (self.new.numbers.items ≡ with_numbers self.old.numbers.items pids.now) }
    {
        for pid in pids {
            self.add(*pid)?;
        }
        Ok(())
    }
}

/// Those of these numbers of which there is no instance that has finished.
#[tactic(auto, using(crate::proofs::Numbers::numbering))]
pub fn not_over(
    alloc: Global,
    configuration: &Configuration<'_>,
    pids: &[u32],
) -> Result<Vec<u32>, NoMemory>
    ensures { IfOk result (λ some. some.items ≡ not_over configuration.now pids.now) }
{
    let mut some = Vec::new(alloc);
    for pid in pids {
        if !configuration.is_over(*pid) {
            some.push(*pid)?;
        }
    }
    Ok(some)
}

/// Each of these instances once, in the order in which they stand first. So many instances are there.
pub fn once(alloc: Global, count: usize, pids: &[u32]) -> Result<Vec<u32>, NoMemory>
    ensures { IfOk result (λ some. some.items ≡ once pids.now) }
{
    let mut found = Found::new(alloc, count)?;
    found.add_all(pids)?;
    let Found { numbers, .. } = found;
    Ok(numbers)
}

/// Those for which an instance waits that is in this state.
#[tactic(auto, using(crate::proofs::Rings::rings))]
fn waited_in(
    alloc: Global,
    configuration: &Configuration<'_>,
    state: &State<'_>,
) -> Result<Vec<u32>, NoMemory>
    ensures { IfOk result (λ some. some.items ≡ waited_in configuration.now (state_of state.now)) }
{
    match state {
        State::Joining(pids) => not_over(alloc, configuration, pids.as_slice()),
        State::Running | State::Waiting(_) | State::Finished => Ok(Vec::new(alloc)),
    }
}

/// Those of the numbers for which instance `pid` waits of which there is no instance that has finished.
#[tactic(auto, using(crate::proofs::Rings::rings))]
fn waited(alloc: Global, configuration: &Configuration<'_>, pid: u32) -> Result<Vec<u32>, NoMemory>
    ensures { IfOk result (λ some. some.items ≡ waited configuration.now pid) }
{
    match configuration.instances().get(pid as usize) {
        Some(instance) => waited_in(alloc, configuration, instance.state()),
        None => Ok(Vec::new(alloc)),
    }
}

/// Adds those for which the instances wait that were found as this number on, before another.
#[tactic(auto, using(crate::proofs::Findings::reaching))]
fn reach(
    alloc: Global,
    configuration: &Configuration<'_>,
    from: usize,
    to: usize,
    found: &mut Found,
) -> Result<(), NoMemory>
    requires marked { IsMarked found.old.numbers.items found.old.marks.items }
    requires order { from ≤ to }
    requires within { to ≤ length found.old.numbers.items }
    ensures marked { OnOk result (IsMarked found.new.numbers.items found.new.marks.items) }
    ensures room { OnOk result (length found.new.marks.items ≡ length found.old.marks.items) }
    ensures reaches { OnOk result (Reaches (waited configuration.now) from to found.old.numbers.items found.new.numbers.items) }
{
    for at in from..to {
        let pid = found.numbers[at];
        let more = waited(alloc, configuration, pid)?;
        found.add_all(&more)?;
    }
    Ok(())
}

/// Whether instance `pid` waits for itself, in a ring.
#[tactic(auto, using(crate::proofs::Rings::rings))]
pub fn is_in_ring(
    alloc: Global,
    configuration: &Configuration<'_>,
    pid: u32,
) -> Result<bool, NoMemory>
    requires { pid < length configuration.now.instances }
    ensures { IfOk result (λ ring. ring ≡ is_in_ring configuration.now pid) }
{
    let count = configuration.instances().len();
    let mut found = Found::new(alloc, count)?;
    let first = waited(alloc, configuration, pid)?;
    found.add_all(&first)?;
    let mut from = 0;
    for _round in 0..count {
        let to = found.numbers.len();
        reach(alloc, configuration, from, to, &mut found)?;
        from = to;
    }
    Ok(found.marks[pid as usize])
}
