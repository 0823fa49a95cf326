ghost use Rattle.std.specs.Prelude.{◌≡◌, ◌<◌, ◌^◌, [], ◌++◌, ℕ, List, Some, IfOk, OnOk, slice_get};
ghost use Rattle.chi_core.specs.declared.program.ProcDef.{ProcDef};
ghost use Rattle.chi_core.specs.Beginning.{Beginning, start};
ghost use Rattle.chi_core.specs.Kinds.{kinds_of};
ghost use Rattle.chi_core.specs.Of.{at_start, AreOf};
ghost use Rattle.chi_core.specs.Picks.{Pick};
ghost use Rattle.chi_core.specs.Sound.{Sound};
ghost use Rattle.chi_explain_runs.specs.Turns.{GoesOn, HasRun, IsThere, PicksAt, spent_in, told_in};
ghost use Rattle.chi_explain_runs.specs.Waits.{IsWaitingTold};
ghost use Rattle.chi_explain_waiting.specs.WaitingText.{waiting_text};
ghost use Rattle.chi_plain.specs.Stage.{Begun, MayStep};
ghost use Rattle.chi_sched.specs.Policies.{Answers};

use crate::notes::{Notes, done_at, note};
use chi_base::NoMemory;
use chi_core::{Core, Label};
use chi_core_runs::{choice_law, options_law, time_law, turn_law};
use chi_explain_labels::put_labels;
use chi_explain_waiting::explain_waiting;
use chi_plain::{Plain, Stepped};
use chi_plain_steps::Configuration;
use chi_sched::Chooser;
use chi_terms::Terms;
use chi_value::Value;
use std::alloc::Global;

/// The label that the policy picks at a turn.
fn picked_label<P: Chooser>(runner: &Plain<'_>, policy: &P, turn: u64) -> Label
    requires goes_on { GoesOn runner.now.stage }
    requires early { turn < 2 ^ 63 }
    ensures picks { PicksAt (P.gives policy.now) turn runner.now.stage result }
    ensures may { MayStep runner.now.stage result }
{
    options_law();
    choice_law();
    let actors = runner.actor_count();
    if actors == 0 {
        return Label::Advance;
    }
    let actor = runner.actor_at(policy.choose(2 * turn, actors as u64) as u32);
    let options = runner.option_count(actor);
    runner.option_at(actor, policy.choose(2 * turn + 1, options))
}

/// Runs from the beginning: a label is picked at each turn, until the run is over, nothing can happen, or the next label costs
/// more than is left of the bound, which is then the answer. What the program writes is let go of.
fn run_on<P: Chooser>(
    alloc: Global,
    runner: &mut Plain<'_>,
    policy: &P,
    bound: u64,
    notes: &mut Notes,
) -> Result<Option<u64>, NoMemory>
    requires there { IsThere runner.old.stage }
    requires bound { bound < 2 ^ 63 }
    requires no_lines { notes.old.lines.items ≡ [] }
    requires no_counts { notes.old.counts.items ≡ [] }
    ensures ran { IfOk result (λ spent. HasRun (P.gives policy.now) runner.old.core runner.old.stage bound runner.new.stage
        notes.new.lines.items notes.new.counts.items spent) }
{
    time_law();
    turn_law();
    let mut left = bound;
    let mut turn = 0;
    let mut out = Vec::new(alloc);
    'turn: loop {
        let label = match runner.ending() {
            Some(_) => return Ok(None),
            None => picked_label(runner, policy, turn),
        };
        let done = done_at(runner, &label);
        out.clear();
        match runner.plain_step(&label, left, &mut out) {
            Stepped::Next(cost) => {
                note(notes, done, &label)?;
                left -= cost;
                turn += 1;
            }
            Stepped::Over => {}
            Stepped::Spent => return Ok(Some(bound)),
            Stepped::NoMemory => return Err(NoMemory),
        }
    }
}

/// Appends which instances took the most labels, where this bound is used up.
fn put_spent(
    alloc: Global,
    core: &Core,
    configuration: &Configuration<'_>,
    notes: &Notes,
    spent: Option<u64>,
    text: &mut Vec<u8>,
) -> Result<(), NoMemory>
    ensures { OnOk result (text.new.items ≡ text.old.items ++ spent_in core.now configuration.now notes.now.counts.items spent) }
{
    match spent {
        Some(bound) => put_labels(alloc, core, configuration, &notes.counts, bound, text),
        None => Ok(()),
    }
}

/// What is told of the instances in a configuration.
fn told_at(
    alloc: Global,
    core: &Core,
    source: &[u8],
    configuration: &Configuration<'_>,
    notes: &Notes,
    spent: Option<u64>,
) -> Result<Vec<u8>, NoMemory>
    ensures { IfOk result (λ text. text.items ≡ waiting_text core.now source.now notes.now.lines.items configuration.now
        ++ spent_in core.now configuration.now notes.now.counts.items spent) }
{
    let mut text = explain_waiting(alloc, core, source, &notes.lines, configuration)?;
    put_spent(alloc, core, configuration, notes, spent, &mut text)?;
    Ok(text)
}

/// What is told of the instances where a runner is.
fn told_in(
    alloc: Global,
    core: &Core,
    source: &[u8],
    runner: &Plain<'_>,
    notes: &Notes,
    spent: Option<u64>,
) -> Result<Vec<u8>, NoMemory>
    ensures { IfOk result (λ text. text.items
        ≡ told_in core.now source.now runner.now.stage notes.now.lines.items notes.now.counts.items spent) }
{
    match runner.configuration() {
        Some(configuration) => told_at(alloc, core, source, configuration, notes, spent),
        None => Ok(Vec::new(alloc)),
    }
}

/// Runs from the beginning to where the run comes to rest: what is told of that.
fn rest_of<P: Chooser>(
    alloc: Global,
    core: &Core,
    source: &[u8],
    runner: &mut Plain<'_>,
    policy: &P,
    bound: u64,
) -> Result<Vec<u8>, NoMemory>
    requires same_core { runner.old.core ≡ core.now }
    requires there { IsThere runner.old.stage }
    requires bound { bound < 2 ^ 63 }
    ensures { IfOk result (λ text. (beginning : Beginning) → Begun beginning runner.old.stage → (pick : Pick) → Answers (P.gives policy.now) pick
        → IsWaitingTold core.now source.now beginning pick bound text.items) }
{
    let mut notes = Notes::new(alloc);
    let spent = run_on(alloc, runner, policy, bound, &mut notes)?;
    told_in(alloc, core, source, runner, &notes, spent)
}

/// The text that says which instances haven't finished where the run that a policy picks comes to rest, and who waits for what; and
/// out of steps, which took the most labels; nothing of a run that is over. The core is that of the source. No trace is made.
pub fn explain_rest<P: Chooser, S>(
    alloc: Global,
    core: &Core,
    source: &[u8],
    arguments: Vec<Value>,
    terms: &Terms<P, S>,
) -> Result<Vec<u8>, NoMemory>
    requires sound { Sound core.now }
    requires arguments { (d : ProcDef) → slice_get core.now.procs core.now.model ≡ Some d
        → AreOf (at_start core.now.names.kinds) arguments.items (kinds_of d.params) }
    requires bound { terms.now.bound < 2 ^ 63 }
    ensures { IfOk result (λ text. (pick : Pick) → Answers (P.gives terms.now.policy) pick
        → IsWaitingTold core.now source.now (start core.now arguments.items terms.now.seed terms.now.until) pick terms.now.bound text.items) }
{
    let until = terms.units_of_until();
    let mut runner = Plain::new(alloc, core, arguments, terms.seed, until)?;
    let text = rest_of(alloc, core, source, &mut runner, &terms.policy, terms.bound);
    drop(runner);
    text
}
