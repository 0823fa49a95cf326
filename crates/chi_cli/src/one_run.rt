//! What a run of a file is asked for with, whether it is simulated, told in words, or one of an experiment.

ghost use Rattle.std.specs.Prelude.{◌≡◌, Some, Ok, IfOk, IfErr};
ghost use Rattle.clap.specs.Words.{found_of, rows_of};
ghost use Rattle.chi_cli.specs.declared.command.Command.{Command};
ghost use Rattle.chi_cli.specs.Parsing.{EachGiven, rest};
ghost use Rattle.chi_cli.specs.Requests.{IsRefused, one_run, run_of_file};

use crate::command::OptionName;
use crate::fault::CliFault;
use crate::number::{number_or, time_or_none};
use crate::policy::PolicyName;
use crate::request::Pick;
use crate::words::{MOST_STEPS, STEPS, args_of, text_of, value_of};
use chi_base::Items;
use chi_num::Real;
use chi_token::Bytes;
use clap::ArgMatches;
use std::alloc::Global;

/// A file, and what a run of its program is asked for with.
#[derive(Debug, Drop)]
pub struct OneRun {
    pub file: Bytes,
    /// The texts of the model's arguments.
    pub args: Items<Bytes>,
    pub seed: u64,
    /// On the costs of all steps together.
    pub bound: u64,
    /// The stopping time.
    pub until: Option<Real>,
    pub pick: Pick,
}

/// What the matches give to a command on one run.
pub fn one_run(alloc: Global, matches: &ArgMatches<'_>) -> Result<OneRun, CliFault>
    ensures asked { IfOk result (λ run. (c : Command) → EachGiven c (rows_of (found_of matches.now)) (λ said. one_run said.plain said.options ≡ Ok run)) }
    ensures fault { IfErr result (λ fault. (c : Command) → EachGiven c (rows_of (found_of matches.now)) (λ said. IsRefused (one_run said.plain said.options) fault)) }
{
    let Some(file) = text_of(matches, "file") else {
        return Err(CliFault::Usage);
    };
    match PolicyName::asked(value_of(matches, OptionName::Policy)) {
        Some(policy) => run_of_file(alloc, file, policy, matches),
        None => Err(CliFault::Usage),
    }
}

/// The same, of a file and a policy.
fn run_of_file(
    alloc: Global,
    file: &[u8],
    policy: PolicyName,
    matches: &ArgMatches<'_>,
) -> Result<OneRun, CliFault>
    ensures asked { IfOk result (λ run. (c : Command) → EachGiven c (rows_of (found_of matches.now))
        (λ said. run_of_file file.now (rest said.plain) (Some policy) said.options ≡ Ok run)) }
    ensures fault { IfErr result (λ fault. (c : Command) → EachGiven c (rows_of (found_of matches.now))
        (λ said. IsRefused (run_of_file file.now (rest said.plain) (Some policy) said.options) fault)) }
{
    let Some(seed) = number_or(0, 0, u64::MAX, value_of(matches, OptionName::Seed)) else {
        return Err(CliFault::BadNumber);
    };
    let Some(bound) = number_or(STEPS, 0, MOST_STEPS, value_of(matches, OptionName::Steps)) else {
        return Err(CliFault::BadNumber);
    };
    let Some(salt) = number_or(0, 0, u64::MAX, value_of(matches, OptionName::Salt)) else {
        return Err(CliFault::BadNumber);
    };
    let Some(until) = time_or_none(value_of(matches, OptionName::Until)) else {
        return Err(CliFault::BadNumber);
    };
    Ok(OneRun {
        file: Bytes::copy_of(alloc, file)?,
        args: args_of(alloc, matches)?,
        seed,
        bound,
        until,
        pick: policy.pick(salt),
    })
}
