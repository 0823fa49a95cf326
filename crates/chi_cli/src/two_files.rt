//! What a command on two files is asked for with.

ghost use Rattle.std.specs.Prelude.{◌≡◌, Ok, IfOk, IfErr};
ghost use Rattle.clap.specs.Words.{found_of, rows_of};
ghost use Rattle.chi_cli.specs.declared.command.Command.{Command};
ghost use Rattle.chi_cli.specs.Parsing.{EachGiven};
ghost use Rattle.chi_cli.specs.Requests.{IsRefused, file_with, two_files, two_files_named};
ghost use Rattle.chi_cli.specs.Saying.{texts};

use crate::command::OptionName;
use crate::fault::CliFault;
use crate::number::{number_or, time_or_none};
use crate::words::{MOST_STEPS, STEPS, copied, text_of, value_of};
use chi_base::Items;
use chi_num::Real;
use chi_token::Bytes;
use clap::ArgMatches;
use std::alloc::Global;

/// Two files, and what a run of the program in the first is asked for with.
#[derive(Debug, Drop)]
pub struct TwoFiles {
    pub file: Bytes,
    pub beside: Bytes,
    /// The texts of the model's arguments.
    pub args: Items<Bytes>,
    pub seed: u64,
    /// On the costs of all steps together.
    pub bound: u64,
    /// The stopping time.
    pub until: Option<Real>,
}

/// What the matches give to a command on two files. The first plain word after the file names the second.
pub fn two_files(alloc: Global, matches: &ArgMatches<'_>) -> Result<TwoFiles, CliFault>
    ensures asked { IfOk result (λ two. (c : Command) → EachGiven c (rows_of (found_of matches.now)) (λ said. two_files said.plain said.options ≡ Ok two)) }
    ensures fault { IfErr result (λ fault. (c : Command) → EachGiven c (rows_of (found_of matches.now)) (λ said. IsRefused (two_files said.plain said.options) fault)) }
{
    let Some(file) = text_of(matches, "file") else {
        return Err(CliFault::Usage);
    };
    match matches.get_strs("args") {
        Some(words) => file_with(alloc, file, words, matches),
        None => Err(CliFault::Usage),
    }
}

/// The same, of a file and the plain words after it.
fn file_with(
    alloc: Global,
    file: &[u8],
    words: &[&str],
    matches: &ArgMatches<'_>,
) -> Result<TwoFiles, CliFault>
    ensures asked { IfOk result (λ two. (c : Command) → EachGiven c (rows_of (found_of matches.now))
        (λ said. file_with file.now (texts words.now) said.options ≡ Ok two)) }
    ensures fault { IfErr result (λ fault. (c : Command) → EachGiven c (rows_of (found_of matches.now))
        (λ said. IsRefused (file_with file.now (texts words.now) said.options) fault)) }
{
    match words.split_first() {
        Some((beside, args)) => two_files_named(alloc, file, beside.as_bytes(), args, matches),
        None => Err(CliFault::Usage),
    }
}

/// The same, of two files and arguments.
fn two_files_named(
    alloc: Global,
    file: &[u8],
    beside: &[u8],
    args: &[&str],
    matches: &ArgMatches<'_>,
) -> Result<TwoFiles, CliFault>
    ensures asked { IfOk result (λ two. (c : Command) → EachGiven c (rows_of (found_of matches.now))
        (λ said. two_files_named file.now beside.now (texts args.now) said.options ≡ Ok two)) }
    ensures fault { IfErr result (λ fault. (c : Command) → EachGiven c (rows_of (found_of matches.now))
        (λ said. IsRefused (two_files_named file.now beside.now (texts args.now) said.options) fault)) }
{
    let Some(seed) = number_or(0, 0, u64::MAX, value_of(matches, OptionName::Seed)) else {
        return Err(CliFault::BadNumber);
    };
    let Some(bound) = number_or(STEPS, 0, MOST_STEPS, value_of(matches, OptionName::Steps)) else {
        return Err(CliFault::BadNumber);
    };
    let Some(until) = time_or_none(value_of(matches, OptionName::Until)) else {
        return Err(CliFault::BadNumber);
    };
    Ok(TwoFiles {
        file: Bytes::copy_of(alloc, file)?,
        beside: Bytes::copy_of(alloc, beside)?,
        args: copied(alloc, args)?,
        seed,
        bound,
        until,
    })
}
