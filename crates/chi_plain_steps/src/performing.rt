//! How an instance does its first item.

ghost use Rattle.std.specs.Prelude.{◌≡◌, ◌≢◌, ◌+◌, ◌<◌, ◌≤◌, ◌++◌, None, Some, IfErr, IfOk, IfSome, IsSomeAnd, OnErr, OnOk, Err, length, map, slice_get, unwrap_or};
ghost use Rattle.std.specs.Option.{option_copied};
ghost use Rattle.std.specs.List.{range_with_len};
ghost use Rattle.chi_core.specs.declared.limits.TheConstants.{MOST_INSTANCES, MOST_OFFERS};
ghost use Rattle.chi_core.specs.declared.program.Core.{Core};
ghost use Rattle.chi_core.specs.Answer.{Amiss, Gives};
ghost use Rattle.chi_core.specs.Config as config;
ghost use Rattle.chi_core.specs.Config.{has_finished, offers_in, scene_of, settled, with_instance};
ghost use Rattle.chi_core.specs.Performing.{quietly};
ghost use Rattle.chi_core_frame.specs.Stops.{Stops};
ghost use Rattle.chi_plain_eval.specs.Surroundings.{scene_in};
ghost use Rattle.chi_plain_open.specs.Instances.{rest_of, state_of};
ghost use Rattle.chi_plain_steps.specs.Plans.{IsFew, IsQuiet, change_by, change_of, made_in, offers_kept, own_of, performed_at, plan_of};
ghost use Rattle.chi_plain_steps.specs.Takings.{Appends};

use crate::configuration::Configuration;
use crate::deed::{Deed, Done};
use crate::planning::{self, is_own};
use chi_base::NoMemory;
use chi_core::{CStat, Core, View};
use chi_core_frame::{Stop, Task, Variables};
use chi_plain_eval::Surroundings;
use chi_plain_open::{Instance, State};
use chi_value::Value;
use std::alloc::Global;

/// The statement that comes first, where functions don't have it.
#[tactic(auto, using(crate::proofs::Owned::owning))]
pub fn own_statement<'a>(instance: &Instance<'a>) -> Option<&'a CStat>
    ensures { option_copied result ≡ own_of instance.now.term }
{
    match instance.first() {
        Some(Task::Do(statement)) => {
            let statement: &'a CStat = statement;
            if is_own(statement) {
                Some(statement)
            } else {
                None
            }
        }
        Some(Task::Loop(_, _, _)) => None,
        Some(Task::Walk(_, _, _, _)) => None,
        None => None,
    }
}

/// The numbers that so many new instances will have, where there are `count`.
#[tactic(auto, using(crate::proofs::Adding::numbering))]
fn next_numbers(alloc: Global, count: usize, new: usize) -> Result<Vec<u32>, NoMemory>
    requires { count + new ≤ MOST_INSTANCES }
    ensures { IfOk result (λ numbers. numbers.items ≡ range_with_len count new) }
{
    let mut numbers = Vec::new(alloc);
    for k in 0..new {
        numbers.push((count + k) as u32)?;
    }
    Ok(numbers)
}

/// New instances, each at rest where it has nothing to do, and for each whether it has finished.
#[tactic(auto, using(crate::proofs::Adding::adding))]
fn settle_all<'a>(
    alloc: Global,
    new: Vec<Instance<'a>>,
) -> Result<(Vec<Instance<'a>>, Vec<bool>), NoMemory>
    ensures settled { IfOk result (λ more. more.0.items ≡ map settled new.entry.items) }
    ensures flags { IfOk result (λ more. more.1.items ≡ map has_finished more.0.items) }
{
    let mut more = Vec::new(alloc);
    let mut flags = Vec::new(alloc);
    for mut instance in new {
        instance.settle();
        flags.push(instance.has_finished())?;
        more.push(instance)?;
    }
    Ok((more, flags))
}

/// What evaluations read.
fn surroundings<'s>(
    core: &'s Core,
    seed: u64,
    clock: i64,
    constants: &'s [Value],
    finished: &'s [bool],
) -> Surroundings<'s>
    ensures scene { scene_in result ≡ record { names = core.now.names; seed = seed; clock = clock; constants = constants.now; finished = finished.now } }
    ensures functions { result.functions.now ≡ core.now.funcs }
{
    Surroundings {
        functions: core.funcs.as_slice(),
        names: &core.names,
        seed,
        clock,
        constants,
        finished,
    }
}

impl<'a> Configuration<'a> {
    /// What evaluations read here.
    pub fn scene<'s>(&'s self, core: &'s Core) -> Surroundings<'s>
        ensures scene { scene_in result ≡ scene_of core.now self.now }
        ensures functions { result.functions.now ≡ core.now.funcs }
    {
        Surroundings {
            functions: core.funcs.as_slice(),
            names: &core.names,
            seed: self.seed,
            clock: self.clock,
            constants: self.constants.as_slice(),
            finished: self.finished.as_slice(),
        }
    }

    /// What the statement comes to that is the first item of instance `pid`, this one.
    pub fn plan(
        &self,
        alloc: Global,
        core: &'a Core,
        pid: u32,
        instance: &Instance<'a>,
        statement: &'a CStat,
        view: &mut View,
    ) -> Result<Deed<'a>, Stop>
        requires at { slice_get self.now.instances pid ≡ Some instance.now }
        requires own { own_of instance.now.term ≡ Some statement.now }
        requires well { performed_at core.now self.now pid view.old ≢ Amiss }
        ensures deed { IfOk result (λ deed. performed_at core.now self.now pid view.old
            ≡ Gives (change_of core.now self.now pid (rest_of instance.now) (plan_of instance.now.variables deed)) view.new) }
        ensures few { IfOk result (λ deed. length (offers_kept deed) ≤ MOST_OFFERS) }
        ensures stops { IfErr result (λ stop. Stops stop (performed_at core.now self.now pid view.old)) }
    {
        let scene = self.scene(core);
        let deed = planning::plan(alloc, core, &scene, instance.variables(), statement, view);
        let Surroundings {
            functions: _,
            names: _,
            seed: _,
            clock: _,
            constants: _,
            finished: _,
        } = scene;
        deed
    }

    /// The first item of instance `pid` is done, and it is in this state then, with these variables
    /// where they have changed.
    fn proceed(&mut self, pid: u32, variables: Option<Variables>, state: State<'a>)
        requires there { pid < length self.old.instances }
        requires few { length (offers_in (state_of state)) ≤ MOST_OFFERS }
        ensures { IfSome (slice_get self.old.instances pid) (λ i. self.new
            ≡ with_instance self.old pid (record (rest_of i) { variables = unwrap_or variables i.variables; state = state_of state.entry })) }
    {
        let instance = &mut self.instances[pid as usize];
        instance.proceed(variables, state);
        let finished = instance.has_finished();
        self.finished[pid as usize] = finished;
    }

    /// New instances have the next numbers.
    fn add(&mut self, alloc: Global, new: Vec<Instance<'a>>) -> Result<(), NoMemory>
        requires { length self.old.instances + length new.items ≤ MOST_INSTANCES }
        ensures { OnOk result (self.new ≡ record self.old { instances = self.old.instances ++ map settled new.entry.items }) }
    {
        let (mut more, mut flags) = settle_all(alloc, new)?;
        let before = self.finished.len();
        self.finished.append(&mut flags)?;
        match self.instances.append(&mut more) {
            Ok(()) => Ok(()),
            Err(_) => {
                self.finished.truncate(before);
                Err(NoMemory)
            }
        }
    }

    /// Instance `pid` does its first item, which is one that functions have too. What costs too much
    /// changes nothing.
    fn act(&mut self, alloc: Global, core: &Core, pid: u32, view: &mut View) -> Result<(), Stop>
        requires there { pid < length self.old.instances }
        requires well { performed_at core.now self.old pid view.old ≢ Amiss }
        requires shared { IfSome (slice_get self.old.instances pid) (λ i. own_of i.term ≡ None) }
        ensures acted { OnOk result (performed_at core.now self.old pid view.old ≡ Gives (quietly self.new) view.new) }
        ensures stops { IfErr result (λ stop. Stops stop (performed_at core.now self.old pid view.old)) }
        ensures kept { result ≡ Err Stop.Spent → self.new ≡ self.old }
    {
        let scene = surroundings(
            core,
            self.seed,
            self.clock,
            self.constants.as_slice(),
            self.finished.as_slice(),
        );
        let instance = &mut self.instances[pid as usize];
        let acted = instance.act(alloc, &scene, view);
        let Surroundings {
            functions: _,
            names: _,
            seed: _,
            clock: _,
            constants: _,
            finished: _,
        } = scene;
        let finished = instance.has_finished();
        self.finished[pid as usize] = finished;
        acted
    }

    /// Carries out what the first item of instance `pid` came to.
    fn carry_out(
        &mut self,
        alloc: Global,
        pid: u32,
        deed: Deed<'a>,
        out: &mut Vec<u8>,
    ) -> Result<Done, NoMemory>
        requires running { IsSomeAnd (slice_get self.old.instances pid) (λ i. i.state ≡ config.Running) }
        requires offers { length (offers_kept deed) ≤ MOST_OFFERS }
        requires few { length self.old.instances + length (made_in deed) ≤ MOST_INSTANCES }
        ensures done { IfOk result (λ done. Appends out.old.items out.new.items (λ text. IsQuiet done text × IfSome (slice_get self.old.instances pid)
            (λ i. (core : Core) → change_of core self.old pid (rest_of i) (plan_of i.variables deed.entry) ≡ change_by done self.new text))) }
        ensures kept { OnErr result (out.new.items ≡ out.old.items) }
    {
        match deed {
            Deed::Writes(text) => {
                out.extend_from_slice(text.as_slice())?;
                self.proceed(pid, None, State::Running);
                Ok(Done::On)
            }
            Deed::Exits(value) => Ok(Done::Exits(value)),
            Deed::Waits(changed, offers) => {
                self.proceed(pid, changed, State::Waiting(offers));
                Ok(Done::On)
            }
            Deed::Runs(changed, made) => {
                let numbers = next_numbers(alloc, self.instances.len(), made.len())?;
                self.proceed(pid, changed, State::Joining(numbers));
                self.add(alloc, made)?;
                Ok(Done::On)
            }
            Deed::Starts(changed, made) => {
                self.proceed(pid, changed, State::Running);
                self.add(alloc, made)?;
                Ok(Done::On)
            }
            Deed::Joins(numbers) => {
                self.proceed(pid, None, State::Joining(numbers));
                Ok(Done::On)
            }
        }
    }

    /// Instance `pid`, which runs, does its first item. What costs too much changes nothing.
    pub(crate) fn perform(
        &mut self,
        alloc: Global,
        core: &'a Core,
        pid: u32,
        view: &mut View,
        out: &mut Vec<u8>,
    ) -> Result<Done, Stop>
        requires running { IsSomeAnd (slice_get self.old.instances pid) (λ i. i.state ≡ config.Running) }
        requires well { performed_at core.now self.old pid view.old ≢ Amiss }
        requires few { IsFew (performed_at core.now self.old pid view.old) }
        ensures done { IfOk result (λ done. Appends out.old.items out.new.items
            (λ text. IsQuiet done text × (performed_at core.now self.old pid view.old ≡ Gives (change_by done self.new text) view.new))) }
        ensures stops { IfErr result (λ stop. Stops stop (performed_at core.now self.old pid view.old)) }
        ensures unchanged { result ≡ Err Stop.Spent → self.new ≡ self.old }
        ensures kept { OnErr result (out.new.items ≡ out.old.items) }
    {
        let instance = &self.instances[pid as usize];
        match own_statement(instance) {
            Some(statement) => {
                let deed = self.plan(alloc, core, pid, instance, statement, view)?;
                Ok(self.carry_out(alloc, pid, deed, out)?)
            }
            None => {
                self.act(alloc, core, pid, view)?;
                Ok(Done::On)
            }
        }
    }
}
