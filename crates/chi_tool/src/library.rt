//! The library calls: a source is simulated, with whichever policy, and with whichever probe of its trace; or by a list of picks.

ghost use Rattle.std.specs.Prelude.{◌≡◌, ◌≤◌, ◌<◌, ◌^◌, false, length, option_map};
ghost use Rattle.chi_core.specs.Picks as picks;
ghost use Rattle.chi_engine.specs.Courses.{IsRunOf};
ghost use Rattle.chi_sched.specs.Policies.{Answers, listed};
ghost use Rattle.chi_trace.specs.declared.filter.Filter.TheVariants.{All};
ghost use Rattle.chi_tool.specs.Call.{sink_use};
ghost use Rattle.chi_tool.specs.Serving.{Makes, Tells};
ghost use Rattle.chi_tool.specs.Report.{IsReportOfSource};
ghost use Rattle.chi_tool.specs.Settings.{simulates, trace_by};
ghost use Rattle.chi_tool.specs.Simulations.{SimulationHeadline, SimulationCauses, IsReplayed, IsSimulatedToItsEnd};

use crate::deliver::deliver;
use crate::laws::{one_run_law, own_picks_law, source_law};
use crate::program::report_of_run;
use crate::report::Reported;
use crate::settings::trace_by;
use crate::source::{Source, read};
use crate::status::{NO_MEMORY, status_without};
use chi_cli::{MOST_STEPS, values_are_of_parameters};
use chi_engine::PassFault;
use chi_io::Sink;
use chi_lex::MOST_BYTES;
use chi_num::Real;
use chi_sched::{Chooser, Listed, chooser_law};
use chi_terms::Terms;
use chi_token::Bytes;
use chi_trace::{Filter, Sieve};
use std::alloc::Global;

/// The report of a source that is to be simulated on these terms.
fn report_of_terms<P: Chooser + Drop, S: Sieve + Drop, O: Sink>(
    alloc: Global,
    source: &[u8],
    texts: &[Bytes],
    terms: Terms<P, S>,
    out: &mut O,
) -> Result<Reported, PassFault>
    requires within { length source.now ≤ MOST_BYTES }
    requires bound { terms.bound < 2 ^ 63 }
    requires out_goes { O.stopped out.old ≡ false }
    ensures { (pick : picks.Pick) → Answers (P.gives terms.policy) pick
        → Makes (IsReportOfSource IsRunOf source.now (simulates (record { seed = terms.seed; bound = terms.bound; pick = pick; texts = texts.now; until = terms.until; trace = option_map S.keeps_to terms.trace })))
        (sink_use O.taken O.faults O.stopped out.old out.new) result }
{
    match read(alloc, source)? {
        Source::Refused(refusal) => Ok(refusal),
        Source::Program(core) => report_of_run(alloc, &core, texts, terms, out),
    }
}

/// Delivers that report.
fn tell_terms<P: Chooser + Drop, S: Sieve + Drop, O: Sink, L: Sink>(
    alloc: Global,
    source: &[u8],
    texts: &[Bytes],
    terms: Terms<P, S>,
    out: &mut O,
    log: &mut L,
) -> u8
    requires out_goes { O.stopped out.old ≡ false }
    requires log_goes { L.stopped log.old ≡ false }
    requires within { length source.now ≤ MOST_BYTES }
    requires bound { terms.bound < 2 ^ 63 }
    ensures { (pick : picks.Pick) → Answers (P.gives terms.policy) pick
        → Tells (IsReportOfSource IsRunOf source.now (simulates (record { seed = terms.seed; bound = terms.bound; pick = pick; texts = texts.now; until = terms.until; trace = option_map S.keeps_to terms.trace }))) result
        (sink_use O.taken O.faults O.stopped out.old out.new) (sink_use L.taken L.faults L.stopped log.old log.new) }
{
    chooser_law(&terms.policy);
    match report_of_terms(alloc, source, texts, terms, out) {
        Ok(report) => deliver(report.status, out, &report.out, log, &report.log),
        Err(fault) => status_without(fault),
    }
}

/// Simulates a source: its first model with the arguments that texts mean, these draws, this bound on the costs of its
/// steps and this stopping time. The policy picks among what may happen. With `trace` the log has a
/// line for each label whose event the probe shows, before that of the verdict.
pub fn simulate_probed<P: Chooser + Drop, S: Sieve + Drop, O: Sink, L: Sink>(
    alloc: Global,
    source: &[u8],
    texts: &[Bytes],
    seed: u64,
    bound: u64,
    until: Option<Real>,
    policy: P,
    probe: S,
    trace: bool,
    out: &mut O,
    log: &mut L,
) -> u8
    requires out_goes { O.stopped out.old ≡ false }
    requires log_goes { L.stopped log.old ≡ false }
    requires within { length source.now ≤ MOST_BYTES }
    requires bound { bound ≤ MOST_STEPS }

    // Whichever function tells what the policy answers: the status and every byte are those of the report.
    ensures headline { (pick : picks.Pick) → Answers (P.gives policy) pick → SimulationHeadline (record {
      source = source.now;
      wanted = record { seed = seed; bound = bound; pick = pick; texts = texts.now; until = until; trace = trace_by trace (S.keeps_to probe) };
      status = result;
      out = sink_use O.taken O.faults O.stopped out.old out.new;
      log = sink_use L.taken L.faults L.stopped log.old log.new;
    }) }
    // Each status has its cause.
    ensures causes { (pick : picks.Pick) → Answers (P.gives policy) pick → SimulationCauses (record {
      source = source.now;
      wanted = record { seed = seed; bound = bound; pick = pick; texts = texts.now; until = until; trace = trace_by trace (S.keeps_to probe) };
      status = result;
      out = sink_use O.taken O.faults O.stopped out.old out.new;
      log = sink_use L.taken L.faults L.stopped log.old log.new;
    }) }
    // A program is run to its end.
    ensures complete { (pick : picks.Pick) → Answers (P.gives policy) pick → IsSimulatedToItsEnd (record {
      source = source.now;
      wanted = record { seed = seed; bound = bound; pick = pick; texts = texts.now; until = until; trace = trace_by trace (S.keeps_to probe) };
      status = result;
      out = sink_use O.taken O.faults O.stopped out.old out.new;
      log = sink_use L.taken L.faults L.stopped log.old log.new;
    }) }
{
    source_law();
    one_run_law();
    values_are_of_parameters();
    let trace = trace_by(trace, probe);
    let terms = Terms {
        seed,
        bound,
        policy,
        until,
        trace,
    };
    tell_terms(alloc, source, texts, terms, out, log)
}

/// The same, with a line for each label.
pub fn simulate<P: Chooser + Drop, O: Sink, L: Sink>(
    alloc: Global,
    source: &[u8],
    texts: &[Bytes],
    seed: u64,
    bound: u64,
    until: Option<Real>,
    policy: P,
    trace: bool,
    out: &mut O,
    log: &mut L,
) -> u8
    requires out_goes { O.stopped out.old ≡ false }
    requires log_goes { L.stopped log.old ≡ false }
    requires within { length source.now ≤ MOST_BYTES }
    requires bound { bound ≤ MOST_STEPS }

    // Whichever function tells what the policy answers: the status and every byte are those of the report.
    ensures headline { (pick : picks.Pick) → Answers (P.gives policy) pick → SimulationHeadline (record {
      source = source.now;
      wanted = record { seed = seed; bound = bound; pick = pick; texts = texts.now; until = until; trace = trace_by trace All };
      status = result;
      out = sink_use O.taken O.faults O.stopped out.old out.new;
      log = sink_use L.taken L.faults L.stopped log.old log.new;
    }) }
    // Each status has its cause.
    ensures causes { (pick : picks.Pick) → Answers (P.gives policy) pick → SimulationCauses (record {
      source = source.now;
      wanted = record { seed = seed; bound = bound; pick = pick; texts = texts.now; until = until; trace = trace_by trace All };
      status = result;
      out = sink_use O.taken O.faults O.stopped out.old out.new;
      log = sink_use L.taken L.faults L.stopped log.old log.new;
    }) }
    // A program is run to its end.
    ensures complete { (pick : picks.Pick) → Answers (P.gives policy) pick → IsSimulatedToItsEnd (record {
      source = source.now;
      wanted = record { seed = seed; bound = bound; pick = pick; texts = texts.now; until = until; trace = trace_by trace All };
      status = result;
      out = sink_use O.taken O.faults O.stopped out.old out.new;
      log = sink_use L.taken L.faults L.stopped log.old log.new;
    }) }
{
    simulate_probed(
        alloc,
        source,
        texts,
        seed,
        bound,
        until,
        policy,
        Filter::All,
        trace,
        out,
        log,
    )
}

/// The same by a list of picks: the choice at each question is the number that the list has for it, or the first where it
/// has none below the count.
pub fn replay<O: Sink, L: Sink>(
    alloc: Global,
    source: &[u8],
    texts: &[Bytes],
    seed: u64,
    bound: u64,
    until: Option<Real>,
    picks: &[u64],
    trace: bool,
    out: &mut O,
    log: &mut L,
) -> u8
    requires out_goes { O.stopped out.old ≡ false }
    requires log_goes { L.stopped log.old ≡ false }
    requires within { length source.now ≤ MOST_BYTES }
    requires bound { bound ≤ MOST_STEPS }

    // The status and every byte are those of the report.
    ensures headline { SimulationHeadline (record {
      source = source.now;
      wanted = record { seed = seed; bound = bound; pick = listed picks.now; texts = texts.now; until = until; trace = trace_by trace All };
      status = result;
      out = sink_use O.taken O.faults O.stopped out.old out.new;
      log = sink_use L.taken L.faults L.stopped log.old log.new;
    }) }
    // Each status has its cause.
    ensures causes { SimulationCauses (record {
      source = source.now;
      wanted = record { seed = seed; bound = bound; pick = listed picks.now; texts = texts.now; until = until; trace = trace_by trace All };
      status = result;
      out = sink_use O.taken O.faults O.stopped out.old out.new;
      log = sink_use L.taken L.faults L.stopped log.old log.new;
    }) }
    // A program is run to its end.
    ensures complete { IsSimulatedToItsEnd (record {
      source = source.now;
      wanted = record { seed = seed; bound = bound; pick = listed picks.now; texts = texts.now; until = until; trace = trace_by trace All };
      status = result;
      out = sink_use O.taken O.faults O.stopped out.old out.new;
      log = sink_use L.taken L.faults L.stopped log.old log.new;
    }) }
    // What a derivation's own picks replay is that derivation.
    ensures own { IsReplayed (record {
      source = source.now;
      wanted = record { seed = seed; bound = bound; pick = listed picks.now; texts = texts.now; until = until; trace = trace_by trace All };
      status = result;
      out = sink_use O.taken O.faults O.stopped out.old out.new;
      log = sink_use L.taken L.faults L.stopped log.old log.new;
    }) picks.now }
{
    own_picks_law();
    source_law();
    one_run_law();
    values_are_of_parameters();
    let Ok(picks) = Vec::from_slice(alloc, picks) else {
        return NO_MEMORY;
    };
    let policy = Listed { picks };
    simulate(
        alloc, source, texts, seed, bound, until, policy, trace, out, log,
    )
}
