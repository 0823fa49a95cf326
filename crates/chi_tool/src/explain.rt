//! What is told at length of a simulation, in place of the line of its log.

ghost use Rattle.std.specs.Prelude.{◌≡◌, ◌≤◌, ◌<◌, ◌^◌, ◌-◌, ℕ, List, [], false, Some, Err, IfOk, length, slice_get};
ghost use Rattle.chi_cli.specs.Arguments.{IsNumber, values_of};
ghost use Rattle.chi_core.specs.declared.program.ProcDef.{ProcDef as AProcDef};
ghost use Rattle.chi_core.specs.Kinds.{kinds_of};
ghost use Rattle.chi_core.specs.Of.{at_start, AreOf};
ghost use Rattle.chi_core.specs.Sound.{Sound};
ghost use Rattle.chi_core.specs.VerdictLine.{MayTell};
ghost use Rattle.chi_explain_arguments.specs.Arguments.{argument_text, kind_text};
ghost use Rattle.chi_types.specs.declared.ty.Ty.{Ty, out-Ty};
ghost use Rattle.chi_tool.specs.Arguments.{IsMisfitExplained, Misfits};
ghost use Rattle.chi_tool.specs.Call.{sink_use};
ghost use Rattle.chi_tool.specs.Explaining.{IsMisfitTold, IsProgramTold, IsRefusalText, IsRefusalTold, IsUnparsedText, refusal_status, run_told, text_alone};
ghost use Rattle.chi_tool.specs.Readings.{IsRefusedAs, IsUnparsedAs};
ghost use Rattle.chi_tool.specs.Report.{IsExplained};
ghost use Rattle.chi_tool.specs.Reported.{report_in};
ghost use Rattle.chi_tool.specs.Running.{IsRestTold};
ghost use Rattle.chi_tool.specs.Serving.{Makes};
ghost use Rattle.chi_tool.specs.Settings.{settings_with, wanted_of};

use crate::arguments::{Fitting, Misfit, fitting_of};
use crate::by_engine::{Ran, run_by_engine};
use crate::reading::{Reading, Refusal, Unparsed, reading_of};
use crate::report::{Reported, unpassed};
use crate::rest::{copies_of, rest_told};
use crate::status::{ARGUMENTS, LEXICAL, SYNTAX, TYPING, status_of};
use crate::task::Asked;
use chi_base::NoMemory;
use chi_cli::{ArgFault, Pick, faults_of_arguments_name_them};
use chi_core::{Core, ProcDef};
use chi_engine::{Engine, PassFault};
use chi_explain::explain_lexical;
use chi_explain_arguments::{explain_argument, explain_count, explain_kind};
use chi_explain_counts::explain_rule;
use chi_explain_endings::explain_ending;
use chi_explain_runs::waiting_law;
use chi_explain_syntax::explain_syntax;
use chi_io::Sink;
use chi_lex::MOST_BYTES;
use chi_machine_agenda::Ending;
use chi_token::Bytes;
use chi_types::Ty;
use chi_value::Value;
use std::alloc::Global;

/// A report that is nothing but a text, in the log.
fn alone(alloc: Global, status: u8, text: Vec<u8>) -> Reported
    ensures { report_in result ≡ text_alone status text.items }
{
    Reported {
        status,
        out: Vec::new(alloc),
        log: text,
    }
}

/// The text that explains why the source of a file has no tree.
fn text_of_unparsed(
    alloc: Global,
    file: &[u8],
    source: &[u8],
    unparsed: Unparsed,
) -> Result<Vec<u8>, NoMemory>
    requires within { length source.now ≤ MOST_BYTES }
    requires is { IsUnparsedAs source.now unparsed }
    ensures { IfOk result (λ text. IsUnparsedText file.now source.now unparsed text.items) }
{
    match unparsed {
        Unparsed::Lexical(fault) => explain_lexical(alloc, file, source, fault),
        Unparsed::Syntax { tokens, fault } => explain_syntax(alloc, file, source, &tokens, fault),
    }
}

/// The text that explains why it is no program that can be run.
fn text_of_refusal(
    alloc: Global,
    file: &[u8],
    source: &[u8],
    refusal: Refusal,
) -> Result<Vec<u8>, NoMemory>
    requires within { length source.now ≤ MOST_BYTES }
    requires is { IsRefusedAs source.now refusal }
    ensures { IfOk result (λ text. IsRefusalText file.now source.now refusal text.items) }
{
    match refusal {
        Refusal::Unparsed(unparsed) => text_of_unparsed(alloc, file, source, unparsed),
        Refusal::Broken { rule, place, tree } => {
            explain_rule(alloc, file, source, &tree, rule, place)
        }
    }
}

fn status_of_refusal(refusal: &Refusal) -> u8
    ensures { result ≡ refusal_status refusal.now }
{
    match refusal {
        Refusal::Unparsed(Unparsed::Lexical(_)) => LEXICAL,
        Refusal::Unparsed(Unparsed::Syntax { .. }) => SYNTAX,
        Refusal::Broken { .. } => TYPING,
    }
}

/// The report of a source that is refused.
fn refusal_told(
    alloc: Global,
    file: &[u8],
    source: &[u8],
    refusal: Refusal,
) -> Result<Reported, NoMemory>
    requires within { length source.now ≤ MOST_BYTES }
    requires is { IsRefusedAs source.now refusal }
    ensures { IfOk result (λ r. IsRefusalTold file.now source.now refusal (report_in r)) }
{
    let status = status_of_refusal(&refusal);
    let text = text_of_refusal(alloc, file, source, refusal)?;
    Ok(alone(alloc, status, text))
}

/// The text that explains that no text can be for parameter k.
fn text_of_kind(alloc: Global, params: &[Ty], k: u32) -> Result<Vec<u8>, NoMemory>
    requires { IsNumber params.now k }
    ensures { IfOk result (λ text. (param : Ty) × (slice_get params.now (k - 1) ≡ Some param) × (text.items ≡ kind_text k (out-Ty param))) }
{
    match params.get(k as usize - 1) {
        Some(param) => explain_kind(alloc, k, param),
        None => unreachable!(),
    }
}

/// The text that explains that argument k is no text of its parameter's type.
fn text_of_argument(
    alloc: Global,
    params: &[Ty],
    texts: &[Bytes],
    k: u32,
) -> Result<Vec<u8>, NoMemory>
    requires param { IsNumber params.now k }
    requires text { IsNumber texts.now k }
    ensures { IfOk result (λ it. (param : Ty) × (slice_get params.now (k - 1) ≡ Some param) × (text : List ℕ) × (slice_get texts.now (k - 1) ≡ Some text)
        × (it.items ≡ argument_text k (out-Ty param) text)) }
{
    let index = k as usize - 1;
    let Some(param) = params.get(index) else {
        unreachable!()
    };
    match texts.get(index) {
        Some(text) => explain_argument(alloc, k, param, text.as_slice()),
        None => unreachable!(),
    }
}

/// The text that explains how texts don't fit these parameters.
fn text_of_misfit(
    alloc: Global,
    params: &[Ty],
    texts: &[Bytes],
    fault: ArgFault,
) -> Result<Vec<u8>, NoMemory>
    requires { values_of params.now texts.now ≡ Err fault }
    ensures { IfOk result (λ text. IsMisfitExplained params.now texts.now fault text.items) }
{
    faults_of_arguments_name_them();
    match fault {
        ArgFault::Count => explain_count(alloc, params.len() as u64, texts.len() as u64),
        ArgFault::Kind(k) => text_of_kind(alloc, params, k),
        ArgFault::Text(k) => text_of_argument(alloc, params, texts, k),
        ArgFault::NoMemory => Err(NoMemory),
    }
}

/// The report of a program whose model's parameters texts don't fit.
fn misfit_told(
    alloc: Global,
    core: &Core,
    texts: &[Bytes],
    misfit: Misfit,
) -> Result<Reported, NoMemory>
    requires { Misfits core.now texts.now misfit.wanted misfit.fault }
    ensures { IfOk result (λ r. IsMisfitTold core.now texts.now misfit.wanted misfit.fault (report_in r)) }
{
    match core.procs.as_slice().get(core.model as usize) {
        Some(model) => misfit_of(alloc, core, model, texts, misfit),
        None => unreachable!(),
    }
}

fn misfit_of(
    alloc: Global,
    core: &Core,
    model: &ProcDef,
    texts: &[Bytes],
    misfit: Misfit,
) -> Result<Reported, NoMemory>
    requires model { slice_get core.now.procs core.now.model ≡ Some model.now }
    requires misfits { Misfits core.now texts.now misfit.wanted misfit.fault }
    ensures { IfOk result (λ r. IsMisfitTold core.now texts.now misfit.wanted misfit.fault (report_in r)) }
{
    let _core = core;
    let text = text_of_misfit(alloc, model.params.as_slice(), texts, misfit.fault)?;
    Ok(alone(alloc, ARGUMENTS, text))
}

/// The report of a run that has ended, but for its output, which was passed on, with what is logged of it, and what is told of
/// where it came to rest.
fn ending_told(
    alloc: Global,
    source: &[u8],
    core: &Core,
    ending: Ending,
    lines: Vec<u8>,
    rest: &[u8],
) -> Result<Reported, NoMemory>
    requires { MayTell core.now ending.verdict }
    ensures { IfOk result (λ r. report_in r ≡ run_told source.now core.now rest.now (record { output = []; log = lines.items; ending = ending })) }
{
    let mut log = lines;
    let status = status_of(ending.verdict());
    let told = explain_ending(alloc, source, ending.verdict(), ending.clock(), &core.names);
    drop(ending);
    let mut text = told?;
    text.extend_from_slice(rest)?;
    log.extend_from_slice(&text)?;
    Ok(Reported {
        status,
        out: Vec::new(alloc),
        log,
    })
}

/// The report of a run that an engine made with these arguments, but for its output.
fn course_told(
    alloc: Global,
    source: &[u8],
    core: &Core,
    arguments: Vec<Value>,
    asked: &Asked<Pick>,
    ran: Ran,
) -> Result<Reported, NoMemory>
    requires sound { Sound core.now }
    requires arguments { (d : AProcDef) → slice_get core.now.procs core.now.model ≡ Some d
        → AreOf (at_start core.now.names.kinds) arguments.items (kinds_of d.params) }
    requires bound { asked.now.terms.bound < 2 ^ 63 }
    requires may { MayTell core.now ran.ending.verdict }
    ensures { IfOk result (λ r. (rest : List ℕ) × IsRestTold core.now source.now (settings_with (wanted_of asked.now) arguments.items) rest
        × (report_in r ≡ run_told source.now core.now rest (record { output = []; log = ran.log.items; ending = ran.ending }))) }
{
    let rest = rest_told(alloc, source, core, arguments, asked)?;
    let Ran { ending, log } = ran;
    ending_told(alloc, source, core, ending, log, &rest)
}

/// The report of a program: that its arguments are refused, or of its run by an engine.
fn program_told<E: Engine, O: Sink>(
    alloc: Global,
    source: &[u8],
    core: &Core,
    asked: &Asked<Pick>,
    out: &mut O,
    engine: &mut E,
) -> Result<Reported, PassFault>
    requires sound { Sound core.now }
    requires bound { asked.now.terms.bound < 2 ^ 63 }
    requires out_goes { O.stopped out.old ≡ false }
    ensures { Makes (IsProgramTold (E.outcome engine.old) source.now core.now (wanted_of asked.now)) (sink_use O.taken O.faults O.stopped out.old out.new) result }
{
    waiting_law();
    let texts = asked.texts.as_slice();
    match fitting_of(alloc, core, texts)? {
        Fitting::Unfit(misfit) => unpassed(misfit_told(alloc, core, texts, misfit)),
        Fitting::Fit(arguments) => {
            let again = copies_of(alloc, &arguments)?;
            let ran = run_by_engine(alloc, core, arguments, asked, out, engine)?;
            unpassed(course_told(alloc, source, core, again, asked, ran))
        }
    }
}

/// The report of the source of a file whose simulation is told at length.
pub fn report_at_length<E: Engine, O: Sink>(
    alloc: Global,
    file: &[u8],
    source: &[u8],
    asked: &Asked<Pick>,
    out: &mut O,
    engine: &mut E,
) -> Result<Reported, PassFault>
    requires within { length source.now ≤ MOST_BYTES }
    requires bound { asked.now.terms.bound < 2 ^ 63 }
    requires out_goes { O.stopped out.old ≡ false }
    ensures { Makes (IsExplained (E.outcome engine.old) file.now (wanted_of asked.now) source.now) (sink_use O.taken O.faults O.stopped out.old out.new) result }
{
    match reading_of(alloc, source)? {
        Reading::Refused(refusal) => unpassed(refusal_told(alloc, file, source, refusal)),
        Reading::Program(core) => program_told(alloc, source, &core, asked, out, engine),
    }
}
