ghost use Rattle.std.specs.Prelude.{◌≡◌, Bool, [], Some, Ok, IfOk, IfErr, codes, is_some, option_map, unwrap_or};
ghost use Rattle.clap.specs.Words.{all_of, first_of, found_of, one_of, rows_of};
ghost use Rattle.chi_cli.specs.declared.command.Command.TheVariants as command;
ghost use Rattle.chi_cli.specs.declared.command.OptionName.TheVariants as option;
ghost use Rattle.chi_cli.specs.declared.request.Request.TheVariants as asked_for;
ghost use Rattle.chi_cli.specs.Commands.{command_named, option_text};
ghost use Rattle.chi_cli.specs.Parsing.{EachGiven, truth_text};
ghost use Rattle.chi_cli.specs.Requests.{IsRefused, asked, command_request, experimented, explained, help, judged, load, of_file, of_two, one_run, one_word, picked, replayed, request_of, sim, simulated, two_files, value_given};
ghost use Rattle.chi_cli.specs.Saying.{texts};

use crate::command::{Command, OptionName};
use crate::fault::CliFault;
use crate::number::number_in;
use crate::one_run::{OneRun, one_run};
use crate::parsing::matched;
use crate::probe::probe_or_all;
use crate::request::Request;
use crate::two_files::two_files;
use chi_base::{Items, NoMemory};
use chi_cli_help::Topic;
use chi_load::MOST_MACHINES;
use chi_token::Bytes;
use chi_trace::Filter;
use clap::ArgMatches;
use std::alloc::Global;

/// How many steps a run may cost where the words don't say it.
pub const STEPS: u64 = 10_000_000;

/// The greatest bound on the costs of a run's steps.
pub const MOST_STEPS: u64 = 1_000_000_000_000_000;

/// Reads the words of the command line, without the program's name.
pub fn read_words(alloc: Global, words: &[&str]) -> Result<Request, CliFault>
    ensures request { IfOk result (λ request. request_of (texts words.now) ≡ Ok request) }
    ensures fault { IfErr result (λ fault. IsRefused (request_of (texts words.now)) fault) }
{
    let Some((name, words)) = words.split_first() else {
        return Err(CliFault::Command);
    };
    if name.as_bytes() == b"help".as_slice() {
        help(words)
    } else {
        read_command(alloc, name.as_bytes(), words)
    }
}

/// Reads the words after the name of a command.
fn read_command(alloc: Global, name: &[u8], words: &[&str]) -> Result<Request, CliFault>
    ensures request { IfOk result (λ request. command_request (command_named name.now) (texts words.now) ≡ Ok request) }
    ensures fault { IfErr result (λ fault. IsRefused (command_request (command_named name.now) (texts words.now)) fault) }
{
    let Some(command) = Command::named(name) else {
        return Err(CliFault::Command);
    };
    let matches = matched(alloc, command, words)?;
    asked(alloc, command, &matches)
}

/// The request for help, by the words after its own.
fn help(words: &[&str]) -> Result<Request, CliFault>
    ensures request { IfOk result (λ request. help (texts words.now) ≡ Ok request) }
    ensures fault { IfErr result (λ fault. IsRefused (help (texts words.now)) fault) }
{
    let Some((word, others)) = words.split_first() else {
        return Ok(Request::Help {
            topic: Topic::AllCommands,
        });
    };
    if !others.is_empty() {
        return Err(CliFault::Usage);
    }
    match Topic::named(word.as_bytes()) {
        Some(topic) => Ok(Request::Help { topic }),
        None => Err(CliFault::Command),
    }
}

/// The request of a command's matches.
fn asked(alloc: Global, command: Command, matches: &ArgMatches<'_>) -> Result<Request, CliFault>
    ensures request { IfOk result (λ request. EachGiven command (rows_of (found_of matches.now)) (λ said. asked command said ≡ Ok request)) }
    ensures fault { IfErr result (λ fault. EachGiven command (rows_of (found_of matches.now)) (λ said. IsRefused (asked command said) fault)) }
{
    match command {
        Command::Sim => sim(alloc, matches),
        Command::Explain => explain(alloc, matches),
        Command::Xper => xper(alloc, matches),
        Command::Check => check(alloc, text_of(matches, "file")),
        Command::Code => code(alloc, text_of(matches, "file")),
        Command::Fmt => fmt(alloc, text_of(matches, "file")),
        Command::Load => load(text_of(matches, "file")),
        Command::Replay => replay(alloc, matches),
        Command::Judge => judge(alloc, matches),
        Command::Picks => picks(alloc, matches),
        Command::TraceUp => trace_up(alloc, text_of(matches, "file")),
    }
}

/// The first value of an argument.
#[tactic(auto, using(crate::proofs::Parsed::first_text))]
pub fn text_of<'a>(matches: &ArgMatches<'a>, id: &str) -> Option<&'a [u8]>
    ensures { option_map (λ text. text.now) result ≡ first_of id.now (rows_of (found_of matches.now)) }
{
    match matches.get_str(id) {
        Some(text) => Some(text.as_bytes()),
        None => None,
    }
}

/// The value of an option.
pub fn value_of<'a>(matches: &ArgMatches<'a>, option: OptionName) -> Option<&'a [u8]>
    ensures { option_map (λ text. text.now) result ≡ first_of (option_text option) (rows_of (found_of matches.now)) }
{
    text_of(matches, option.text())
}

/// Whether the trace is wanted.
#[tactic(auto, using(crate::proofs::Parsed::flag_text))]
fn has_trace(matches: &ArgMatches<'_>) -> bool
    ensures { (wanted : Bool) → unwrap_or (one_of (codes "trace") (rows_of (found_of matches.now))) (codes "false") ≡ truth_text wanted → result ≡ wanted }
{
    matches.get_flag(OptionName::Trace.text())
}

fn check(alloc: Global, file: Option<&[u8]>) -> Result<Request, CliFault>
    ensures request { IfOk result (λ request. of_file asked_for.Check (option_map (λ file. file.now) file.entry) ≡ Ok request) }
    ensures fault { IfErr result (λ fault. IsRefused (of_file asked_for.Check (option_map (λ file. file.now) file.entry)) fault) }
{
    match file {
        Some(file) => Ok(Request::Check {
            file: Bytes::copy_of(alloc, file)?,
        }),
        None => Err(CliFault::Usage),
    }
}

fn code(alloc: Global, file: Option<&[u8]>) -> Result<Request, CliFault>
    ensures request { IfOk result (λ request. of_file asked_for.Code (option_map (λ file. file.now) file.entry) ≡ Ok request) }
    ensures fault { IfErr result (λ fault. IsRefused (of_file asked_for.Code (option_map (λ file. file.now) file.entry)) fault) }
{
    match file {
        Some(file) => Ok(Request::Code {
            file: Bytes::copy_of(alloc, file)?,
        }),
        None => Err(CliFault::Usage),
    }
}

fn fmt(alloc: Global, file: Option<&[u8]>) -> Result<Request, CliFault>
    ensures request { IfOk result (λ request. of_file asked_for.Fmt (option_map (λ file. file.now) file.entry) ≡ Ok request) }
    ensures fault { IfErr result (λ fault. IsRefused (of_file asked_for.Fmt (option_map (λ file. file.now) file.entry)) fault) }
{
    match file {
        Some(file) => Ok(Request::Fmt {
            file: Bytes::copy_of(alloc, file)?,
        }),
        None => Err(CliFault::Usage),
    }
}

fn load(size: Option<&[u8]>) -> Result<Request, CliFault>
    ensures request { IfOk result (λ request. load (option_map (λ size. size.now) size.entry) ≡ Ok request) }
    ensures fault { IfErr result (λ fault. IsRefused (load (option_map (λ size. size.now) size.entry)) fault) }
{
    let Some(size) = size else {
        return Err(CliFault::Usage);
    };
    match number_in(1, MOST_MACHINES as u64, size) {
        Some(n) => Ok(Request::Load { n: n as u32 }),
        None => Err(CliFault::BadNumber),
    }
}

fn trace_up(alloc: Global, file: Option<&[u8]>) -> Result<Request, CliFault>
    ensures request { IfOk result (λ request. of_file asked_for.TraceUp (option_map (λ file. file.now) file.entry) ≡ Ok request) }
    ensures fault { IfErr result (λ fault. IsRefused (of_file asked_for.TraceUp (option_map (λ file. file.now) file.entry)) fault) }
{
    match file {
        Some(file) => Ok(Request::TraceUp {
            file: Bytes::copy_of(alloc, file)?,
        }),
        None => Err(CliFault::Usage),
    }
}

/// A run, by what the matches give.
fn sim(alloc: Global, matches: &ArgMatches<'_>) -> Result<Request, CliFault>
    ensures request { IfOk result (λ request. EachGiven command.Sim (rows_of (found_of matches.now)) (λ said. sim said.plain said.options ≡ Ok request)) }
    ensures fault { IfErr result (λ fault. EachGiven command.Sim (rows_of (found_of matches.now)) (λ said. IsRefused (sim said.plain said.options) fault)) }
{
    let trace = has_trace(matches);
    let Some(probe) = probe_or_all(value_of(matches, OptionName::Probe)) else {
        return Err(CliFault::Usage);
    };
    match one_run(alloc, matches) {
        Ok(run) => simulated(run, trace, probe),
        Err(fault) => Err(fault),
    }
}

/// A run with a filter of its trace's events, or that the filter's number isn't one.
fn simulated(run: OneRun, trace: bool, probe: Option<Filter>) -> Result<Request, CliFault>
    ensures { result ≡ simulated trace (Some probe) (Ok run) }
{
    match probe {
        Some(probe) => Ok(Request::Sim {
            file: run.file,
            args: run.args,
            seed: run.seed,
            bound: run.bound,
            until: run.until,
            pick: run.pick,
            trace,
            probe,
        }),
        None => Err(CliFault::BadNumber),
    }
}

/// A run that is told in words, by what the matches give.
fn explain(alloc: Global, matches: &ArgMatches<'_>) -> Result<Request, CliFault>
    ensures request { IfOk result (λ request. EachGiven command.Explain (rows_of (found_of matches.now)) (λ said. explained (one_run said.plain said.options) ≡ Ok request)) }
    ensures fault { IfErr result (λ fault. EachGiven command.Explain (rows_of (found_of matches.now)) (λ said. IsRefused (explained (one_run said.plain said.options)) fault)) }
{
    match one_run(alloc, matches) {
        Ok(run) => Ok(Request::Explain {
            file: run.file,
            args: run.args,
            seed: run.seed,
            bound: run.bound,
            until: run.until,
            pick: run.pick,
        }),
        Err(fault) => Err(fault),
    }
}

/// The first experiment of a file, by what the matches give.
fn xper(alloc: Global, matches: &ArgMatches<'_>) -> Result<Request, CliFault>
    ensures request { IfOk result (λ request. EachGiven command.Xper (rows_of (found_of matches.now))
        (λ said. experimented (one_word said.plain) (one_run said.plain said.options) ≡ Ok request)) }
    ensures fault { IfErr result (λ fault. EachGiven command.Xper (rows_of (found_of matches.now))
        (λ said. IsRefused (experimented (one_word said.plain) (one_run said.plain said.options)) fault)) }
{
    match one_run(alloc, matches) {
        Ok(run) => Ok(Request::Xper {
            file: run.file,
            seed: run.seed,
            bound: run.bound,
            pick: run.pick,
        }),
        Err(fault) => Err(fault),
    }
}

/// A run by the picks of a second file, by what the matches give.
fn replay(alloc: Global, matches: &ArgMatches<'_>) -> Result<Request, CliFault>
    ensures request { IfOk result (λ request. EachGiven command.Replay (rows_of (found_of matches.now))
        (λ said. of_two (replayed (is_some (value_given option.Trace said.options))) (two_files said.plain said.options) ≡ Ok request)) }
    ensures fault { IfErr result (λ fault. EachGiven command.Replay (rows_of (found_of matches.now))
        (λ said. IsRefused (of_two (replayed (is_some (value_given option.Trace said.options))) (two_files said.plain said.options)) fault)) }
{
    let trace = has_trace(matches);
    match two_files(alloc, matches) {
        Ok(two) => Ok(Request::Replay {
            file: two.file,
            picks: two.beside,
            args: two.args,
            seed: two.seed,
            bound: two.bound,
            until: two.until,
            trace,
        }),
        Err(fault) => Err(fault),
    }
}

/// The judgement on a log in a second file.
fn judge(alloc: Global, matches: &ArgMatches<'_>) -> Result<Request, CliFault>
    ensures request { IfOk result (λ request. EachGiven command.Judge (rows_of (found_of matches.now)) (λ said. of_two judged (two_files said.plain said.options) ≡ Ok request)) }
    ensures fault { IfErr result (λ fault. EachGiven command.Judge (rows_of (found_of matches.now)) (λ said. IsRefused (of_two judged (two_files said.plain said.options)) fault)) }
{
    match two_files(alloc, matches) {
        Ok(two) => Ok(Request::Judge {
            file: two.file,
            trace: two.beside,
            args: two.args,
            seed: two.seed,
            bound: two.bound,
            until: two.until,
        }),
        Err(fault) => Err(fault),
    }
}

/// The picks of a log in a second file.
fn picks(alloc: Global, matches: &ArgMatches<'_>) -> Result<Request, CliFault>
    ensures request { IfOk result (λ request. EachGiven command.Picks (rows_of (found_of matches.now)) (λ said. of_two picked (two_files said.plain said.options) ≡ Ok request)) }
    ensures fault { IfErr result (λ fault. EachGiven command.Picks (rows_of (found_of matches.now)) (λ said. IsRefused (of_two picked (two_files said.plain said.options)) fault)) }
{
    match two_files(alloc, matches) {
        Ok(two) => Ok(Request::Picks {
            file: two.file,
            trace: two.beside,
            args: two.args,
            seed: two.seed,
            bound: two.bound,
            until: two.until,
        }),
        Err(fault) => Err(fault),
    }
}

/// The words after the first plain one.
#[tactic(auto, using(crate::proofs::Parsed::all_texts))]
pub fn args_of(alloc: Global, matches: &ArgMatches<'_>) -> Result<Items<Bytes>, NoMemory>
    ensures { IfOk result (λ items. items ≡ unwrap_or (all_of (codes "args") (rows_of (found_of matches.now))) []) }
{
    match matches.get_strs("args") {
        Some(args) => copied(alloc, args),
        None => copied(alloc, &[]),
    }
}

/// The words as a list of their own.
pub fn copied(alloc: Global, words: &[&str]) -> Result<Items<Bytes>, NoMemory>
    ensures { IfOk result (λ items. items ≡ texts words.now) }
{
    let mut kept = Vec::new(alloc);
    for word in words {
        kept.push(Bytes::copy_of(alloc, word.as_bytes())?)?;
    }
    Items::of(alloc, kept)
}
