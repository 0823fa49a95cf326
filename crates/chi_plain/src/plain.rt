ghost use Rattle.std.specs.Prelude.{◌≡◌, ℤ, ◌<◌, ◌↔◌, length, slice_get, Some, IfOk, IfSome, IsTrue, Contains};
ghost use Rattle.std.specs.Option.{option_copied};
ghost use Rattle.chi_core.specs.declared.label.Label.TheVariants.{Advance};
ghost use Rattle.chi_core.specs.declared.program.ProcDef.{ProcDef};
ghost use Rattle.chi_core.specs.Beginning.{start};
ghost use Rattle.chi_core.specs.Kinds.{kinds_of};
ghost use Rattle.chi_core.specs.Of.{at_start, AreOf};
ghost use Rattle.chi_core.specs.Sound.{Sound};
ghost use Rattle.chi_core.specs.VerdictLine.{MayTell};
ghost use Rattle.chi_plain.specs.Stage.{Begun, IsEventAt, configuration_at, actors_at, options_at, enabled_at, verdict_at, clock_at, MayStep, TellsSpent, Steps, Appends};
ghost use Rattle.chi_trace.specs.declared.event.Event.{Event as AnEvent};
ghost use Rattle.chi_trace.specs.Events.{Fits};
ghost use Rattle.chi_trace.specs.Filters.{where_shown};

use crate::progress::{Progress, progress_of, spent, step};
use crate::stepped::Stepped;
use chi_base::NoMemory;
use chi_core::{Core, Label, Verdict};
use chi_core_kinds::kinded_law;
use chi_plain_events::event_of;
use chi_plain_steps::{Configuration, begin};
use chi_trace::{Event, Filter};
use chi_value::Value;
use std::alloc::Global;
use std::marker::Model;
use std::mem;

/// A run of a core. Contracts see the configuration in which it stands.
#[derive(Debug, Drop)]
pub struct Plain<'a> {
    alloc: Global,
    core: &'a Core,
    progress: Progress<'a>,
}

impl<'a> Model for Plain<'a> {
    ghost use Rattle.std.specs.Coded.{codes};
    ghost use Rattle.chi_core.specs.contracts.statement.CStat as statements;
    ghost use Rattle.chi_core.specs.contracts.expression.CExpr as expressions;
    ghost use Rattle.chi_core.specs.contracts.element.CElem as elements;
    ghost use Rattle.chi_core.specs.contracts.experiment.XStat as experiments;
    ghost use Rattle.chi_value.specs.contracts.value.Value as values;
    ghost use Rattle.chi_types.specs.contracts.ty.Ty as types;
    ghost use Rattle.chi_plain.specs.Stage.{Runner};

    ghost Value = { Runner };

    ghost coded = { Prim.hlevel (codes, statements.the_row.coded, expressions.the_row.coded, elements.the_row.coded, experiments.the_row.coded, values.the_row.coded, types.the_row.coded) };

    ghost use Rattle.chi_plain.specs.Progressing.{stage_of, IsRunner};

    ghost view = { λ p. record { core = p.core.now; stage = stage_of p.progress } };

    ghost invariant = { λ p. IsRunner p.core.now p.progress };
}

impl<'a> Plain<'a> {
    /// The start of a run, with the arguments of the model, a seed for its draws, and the time at
    /// which it is stopped, in units of a real, where there is one.
    pub fn new(
        alloc: Global,
        core: &'a Core,
        arguments: Vec<Value>,
        seed: u64,
        until: Option<i64>,
    ) -> Result<Plain<'a>, NoMemory>
        requires sound { Sound core.now }
        requires arguments { (d : ProcDef) → slice_get core.now.procs core.now.model ≡ Some d → AreOf (at_start core.now.names.kinds) arguments.items (kinds_of d.params) }
        ensures core { IfOk result (λ plain. plain.core ≡ core.now) }
        ensures start { IfOk result (λ plain. Begun (start core.now arguments.items seed until) plain.stage) }
    {
        kinded_law();
        let progress = progress_of(alloc, begin(alloc, core, arguments, seed, until)?)?;
        Ok(Plain {
            alloc,
            core,
            progress,
        })
    }

    /// The configuration in which the run is; none where it is over, or memory was wanting.
    pub fn configuration(&self) -> Option<&Configuration<'a>>
        ensures { option_copied result ≡ configuration_at self.now.stage }
    {
        match &self.progress {
            Progress::At(watched, _) => Some(watched.configuration()),
            Progress::Ended(_) => None,
            Progress::Lost => None,
        }
    }

    /// How many instances have an option.
    pub fn actor_count(&self) -> u32
        ensures count { result ≡ length (actors_at self.now.stage) }
    {
        match &self.progress {
            Progress::At(watched, _) => watched.actor_count(),
            Progress::Ended(_) => 0,
            Progress::Lost => 0,
        }
    }

    /// Number `i` of the instances that have an option, ascending.
    pub fn actor_at(&self, i: u32) -> u32
        requires { i < length (actors_at self.now.stage) }
        ensures actor { slice_get (actors_at self.now.stage) i ≡ Some result }
    {
        match &self.progress {
            Progress::At(watched, _) => watched.actor_at(i),
            Progress::Ended(_) => unreachable!(),
            Progress::Lost => unreachable!(),
        }
    }

    /// How many options instance `pid` has.
    pub fn option_count(&self, pid: u32) -> u64
        ensures count { result ≡ length (options_at self.now.stage pid) }
    {
        match &self.progress {
            Progress::At(watched, _) => watched.option_count(pid),
            Progress::Ended(_) => 0,
            Progress::Lost => 0,
        }
    }

    /// Option number `i` of instance `pid`.
    pub fn option_at(&self, pid: u32, i: u64) -> Label
        requires { i < length (options_at self.now.stage pid) }
        ensures option { slice_get (options_at self.now.stage pid) i ≡ Some result }
    {
        match &self.progress {
            Progress::At(watched, _) => watched.option_at(pid, i),
            Progress::Ended(_) => unreachable!(),
            Progress::Lost => unreachable!(),
        }
    }

    /// Whether the time may go on.
    pub fn can_advance(&self) -> bool
        ensures advance { IsTrue result ↔ Contains (enabled_at self.now.stage) Advance }
    {
        match &self.progress {
            Progress::At(watched, _) => watched.can_advance(),
            Progress::Ended(_) => false,
            Progress::Lost => false,
        }
    }

    /// The verdict, where the run is over or nothing can happen.
    pub fn ending(&self) -> Option<&Verdict>
        ensures verdict { option_copied result ≡ verdict_at self.now.stage }
        ensures told { IfSome result (λ verdict. MayTell self.now.core verdict.now) }
    {
        match &self.progress {
            Progress::At(_, Some(ending)) => Some(ending.verdict()),
            Progress::At(_, None) => None,
            Progress::Ended(ending) => Some(ending.verdict()),
            Progress::Lost => None,
        }
    }

    /// The time, in units of a real: that of the ending, where there is one.
    pub fn clock(&self) -> i64
        ensures time { IfSome (clock_at self.now.stage) (λ time. result ≡ time) }
    {
        match &self.progress {
            Progress::At(_, Some(ending)) => ending.clock(),
            Progress::At(watched, None) => watched.clock(),
            Progress::Ended(ending) => ending.clock(),
            Progress::Lost => 0,
        }
    }

    /// The event of a label at a turn, before it is taken, where the filter shows it. No other is made.
    pub fn event_of(
        &self,
        turn: u64,
        label: &Label,
        filter: &Filter,
    ) -> Result<Option<Event>, NoMemory>
        requires { MayStep self.now.stage label.now }
        ensures event { IfOk result (λ shown. (e : AnEvent) × IsEventAt self.now.core self.now.stage turn label.now e × (shown ≡ where_shown filter.now e)) }
        ensures fits { IfOk result (λ shown. IfSome shown (λ e. Fits e.label e.detail)) }
    {
        match &self.progress {
            Progress::At(watched, _) => {
                let at = watched.configuration();
                event_of(self.alloc, self.core, at, turn, label, filter)
            }
            Progress::Ended(_) => unreachable!(),
            Progress::Lost => Err(NoMemory),
        }
    }

    /// Whether a label costs more than is left of the bound. Nothing changes.
    pub fn spent(&self, label: &Label, left: u64) -> Result<bool, NoMemory>
        requires { MayStep self.now.stage label.now }
        ensures { IfOk result (λ spent. TellsSpent self.now.core self.now.stage label.now left spent) }
    {
        match &self.progress {
            Progress::At(watched, _) => spent(self.alloc, self.core, watched, label, left),
            Progress::Ended(_) => unreachable!(),
            Progress::Lost => Err(NoMemory),
        }
    }

    /// Takes a label, where its cost is within what is left of the bound, and appends what it writes to
    /// `out`. After an answer of `NoMemory` every later one is `NoMemory`.
    pub fn plain_step(&mut self, label: &Label, left: u64, out: &mut Vec<u8>) -> Stepped
        requires { MayStep self.old.stage label.now }
        ensures same_core { self.new.core ≡ self.old.core }
        ensures steps { Appends out.old.items out.new.items (λ text. Steps self.old.core self.old.stage self.new.stage label.now left text result) }
    {
        let progress = mem::replace(&mut self.progress, Progress::Lost);
        let (progress, stepped) = step(self.alloc, self.core, progress, label, left, out);
        self.progress = progress;
        stepped
    }
}
