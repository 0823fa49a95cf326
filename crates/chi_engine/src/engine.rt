ghost use Rattle.std.specs.Prelude.{◌≡◌, ◌≤◌, ◌++◌, false};
ghost use Rattle.chi_core.specs.declared.program.Core.{Core};
ghost use Rattle.chi_engine.specs.Courses.{AreAlike, ComesToOne, ComesToSome, Runs};
ghost use Rattle.chi_engine.specs.Running.{RunsTo};
ghost use Rattle.chi_engine.specs.Settings.{settings_of};
ghost use Rattle.chi_io.specs.Counts.{Rose};
ghost use Rattle.chi_io.specs.Sink.{Grew};
ghost use Rattle.chi_machine_traces.specs.Below.chi_machine.specs.Calls.{MayBegin};
ghost use Rattle.chi_machine_traces.specs.Told.{RunsCode};

use chi_cli::Pick;
use chi_code::Code;
use chi_io::Sink;
use chi_machine_agenda::Ending;
use chi_machine_traces::PassFault;
use chi_terms::Terms;
use chi_trace::Filter;
use chi_value::Value;
use std::alloc::Global;

/// What an engine is asked for with a program's code.
#[derive(Debug, Drop)]
pub struct Job {
    /// Those of the model.
    pub arguments: Vec<Value>,
    /// With what names the policy, and which events of the trace are logged.
    pub terms: Terms<Pick, Filter>,
}

/// What runs a program, by its code.
pub trait Engine {
    /// What comes of the run of a program with its settings.
    ghost outcome: { Self → Runs };

    /// Runs the code of whichever program it is, and tells how its run ended. Its output goes to `out` as the engine likes,
    /// and to the log comes what is logged before the verdict.
    fn run<O: Sink>(
        &mut self,
        alloc: Global,
        code: &Code,
        job: Job,
        log: &mut Vec<u8>,
        out: &mut O,
    ) -> Result<Ending, PassFault>
        requires begins { MayBegin code.now job.arguments.items job.terms.bound }
        requires out_goes { O.stopped out.old ≡ false }
        ensures comes { (core : Core) → RunsCode core code.now job.arguments.items → RunsTo (outcome self.old core (settings_of job)) core
            (Grew (O.taken out.old) (O.taken out.new)) (λ lines. log.new.items ≡ log.old.items ++ lines)
            (Rose (O.faults out.old) (O.faults out.new)) (O.stopped out.new) result }
        ensures count { O.faults out.old ≤ O.faults out.new }
        ensures same { AreAlike (outcome self.old) (outcome self.new) };

    /// A law of the engine: of a sound program's run, with settings that it may have, comes exactly one thing.
    fn law(&self)
        ensures some { ComesToSome (outcome self.now) }
        ensures one { ComesToOne (outcome self.now) };
}
