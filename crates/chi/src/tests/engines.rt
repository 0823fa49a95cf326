//! The top call with an engine of the test's own, and the engine that runs the machine.

ghost use Rattle.std.specs.Prelude.{◌≡◌, ◌≤◌, ◌++◌, false};
ghost use Rattle.chi_core.specs.declared.program.Core.{Core};
ghost use Rattle.chi_engine.specs.Courses.{ComesToOne, ComesToSome, IsRunOf};
ghost use Rattle.chi_engine.specs.Running.{RunsTo};
ghost use Rattle.chi_engine.specs.Settings.{settings_of};
ghost use Rattle.chi_io.specs.Counts.{Rose};
ghost use Rattle.chi_io.specs.Sink.{Grew};
ghost use Rattle.chi.specs.Engines.{IsAbc};

use crate::tests::shelves::shelf_of;
use chi_code::Code;
use chi_core::Verdict;
use chi_engine::{Engine, Job, Machines, course_law};
use chi_io::{MemSink, Sink, put_all};
use chi_machine_agenda::Ending;
use chi_machine_traces::PassFault;
use chi_tool::chi;
use std::alloc::Global;
use std::test::Fail;

// Puts three letters, and tells that a run completed at once.
fn put_abc<O: Sink>(job: Job, log: &mut Vec<u8>, out: &mut O) -> Result<Ending, PassFault>
    requires { O.stopped out.old ≡ false }
    ensures comes { (core : Core) → RunsTo (IsAbc core (settings_of job)) core
        (Grew (O.taken out.old) (O.taken out.new)) (λ lines. log.new.items ≡ log.old.items ++ lines)
        (Rose (O.faults out.old) (O.faults out.new)) (O.stopped out.new) result }
    ensures count { O.faults out.old ≤ O.faults out.new }
{
    drop(job);
    match put_all(out, b"abc") {
        Ok(()) => Ok(Ending::of(Verdict::Completed, 0)),
        Err(_) => Err(PassFault::Stopped),
    }
}

// That comes of each run, and nothing else.
fn abc_law()
    ensures some { ComesToSome IsAbc }
    ensures one { ComesToOne IsAbc }
{}

/// An engine that puts `abc`, logs nothing and completes at time 0, whatever it is given.
#[derive(Clone, Copy, Debug)]
struct Abc;

impl Engine for Abc {
    ghost outcome = { λ _. IsAbc };

    fn run<O: Sink>(
        &mut self,
        _alloc: Global,
        _code: &Code,
        job: Job,
        log: &mut Vec<u8>,
        out: &mut O,
    ) -> Result<Ending, PassFault> {
        put_abc(job, log, out)
    }

    fn law(&self) {
        abc_law();
    }
}

/// The engine that runs the machine, with whether its last run ended.
#[derive(Clone, Copy, Debug)]
struct Watched {
    has_ended: bool,
}

impl Engine for Watched {
    ghost outcome = { λ _. IsRunOf };

    fn run<O: Sink>(
        &mut self,
        alloc: Global,
        code: &Code,
        job: Job,
        log: &mut Vec<u8>,
        out: &mut O,
    ) -> Result<Ending, PassFault> {
        let mut machines = Machines;
        let ended = machines.run(alloc, code, job, log, out);
        self.has_ended = ended.is_ok();
        ended
    }

    fn law(&self) {
        course_law();
    }
}

const WORKS: &str = "model M(): write(\"It works!\\n\") end";

#[test]
fn a_simulation_is_the_engines(rt: HostRuntime) -> Result<(), Fail> {
    let alloc = rt.alloc();
    for (command, written, logged) in [
        ("sim", "abc", "completed at time 0.0\n"),
        ("check", "", "accepted\n"),
    ] {
        let mut shelf = shelf_of(alloc, WORKS.as_bytes())?;
        let mut out = MemSink::new(alloc, 65_536, 65_536, Vec::new(alloc))?;
        let mut log = MemSink::new(alloc, 65_536, 65_536, Vec::new(alloc))?;
        let words = [command, "m.chi"];
        let status = chi(alloc, &words, &mut shelf, &mut out, &mut log, &mut Abc);
        assert_eq!(rt; out.bytes(), written.as_bytes());
        assert_eq!(rt; log.bytes(), logged.as_bytes());
        assert_eq!(rt; status, 0);
    }
    Ok(())
}

#[test]
fn a_run_of_the_machine_ends(rt: HostRuntime) -> Result<(), Fail> {
    let alloc = rt.alloc();
    let mut shelf = shelf_of(alloc, WORKS.as_bytes())?;
    let mut out = MemSink::new(alloc, 65_536, 65_536, Vec::new(alloc))?;
    let mut log = MemSink::new(alloc, 65_536, 65_536, Vec::new(alloc))?;
    let mut engine = Watched { has_ended: false };
    let words = ["sim", "m.chi"];
    let status = chi(alloc, &words, &mut shelf, &mut out, &mut log, &mut engine);
    assert!(rt; engine.has_ended, "the run has ended");
    assert_eq!(rt; out.bytes(), b"It works!\n".as_slice());
    assert_eq!(rt; log.bytes(), b"completed at time 0.0\n".as_slice());
    assert_eq!(rt; status, 0);
    Ok(())
}
