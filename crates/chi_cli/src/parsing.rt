ghost use Rattle.std.specs.Prelude.{◌≡◌, false, IfOk, IfErr, IsUtf8};
ghost use Rattle.std.specs.List.{AllByRecursion};
ghost use Rattle.clap.specs.Words.{app_of, found_of, kind_of, rows_of, rule_of};
ghost use Rattle.chi_cli.specs.Parsing.{Gives, app_for, args_rule, bare_app, clap_fault, file_rule, option_rule, taken};
ghost use Rattle.chi_cli.specs.Saying.{IsMismatch, texts};
ghost use Rattle.chi_cli.specs.Splitting.{Said};

use crate::command::{Command, OptionName};
use crate::fault::CliFault;
use clap::error::ErrorKind;
use clap::{Arg, ArgAction, ArgMatches, Error};
use std::alloc::{AllocError, Global};

/// The matches of the words after a command, where they match it.
pub fn matched<'a>(
    alloc: Global,
    command: Command,
    words: &'a [&str],
) -> Result<ArgMatches<'a>, CliFault>
    ensures said { IfOk result (λ m. (said : Said) × (taken command (texts words.now) ≡ Some said) × Gives command (rows_of (found_of m)) said) }
    ensures fault { IfErr result (λ fault. IsMismatch (taken command (texts words.now)) fault) }
{
    are_texts(words);
    let parser = parser_of(alloc, command)?;
    match parser.try_get_matches_from(words) {
        Ok(matches) => Ok(matches),
        Err(error) => Err(fault_of(&error)),
    }
}

/// A word is text in UTF-8. Nothing runs here.
fn are_texts(words: &[&str])
    ensures { AllByRecursion IsUtf8 (texts words.now) }
{
    for word in words {
        word.as_bytes();
    }
}

fn fault_of(error: &Error) -> CliFault
    ensures { result ≡ clap_fault (kind_of error.now) }
{
    match error.kind() {
        ErrorKind::OutOfMemory => CliFault::NoMemory,
        _ => CliFault::Usage,
    }
}

/// The command by which clap reads the words after a command's name.
fn parser_of<'a>(alloc: Global, command: Command) -> Result<clap::Command<'a>, AllocError>
    ensures { IfOk result (λ parser. app_of parser ≡ app_for command) }
{
    let mut parser = bare_parser(alloc);
    for option in command.options() {
        parser = parser.arg(option_arg(alloc, *option))?;
    }
    let parser = parser.arg(file_arg(alloc))?;
    match command {
        Command::Sim | Command::Explain | Command::Replay | Command::Judge | Command::Picks =>
            parser.arg(args_arg(alloc)),
        Command::Xper
        | Command::Check
        | Command::Code
        | Command::Fmt
        | Command::Load
        | Command::TraceUp => Ok(parser),
    }
}

fn bare_parser<'a>(alloc: Global) -> clap::Command<'a>
    ensures { app_of result ≡ bare_app }
{
    clap::Command::new(alloc, "chi")
        .no_binary_name(true)
        .disable_help_flag(true)
        .disable_help_subcommand(true)
        .disable_version_flag(true)
}

fn option_arg<'a>(alloc: Global, option: OptionName) -> Arg<'a>
    ensures rule { rule_of result ≡ option_rule option }
    ensures local { result.global ≡ false }
{
    let action = if option.takes_value() {
        ArgAction::Set
    } else {
        ArgAction::SetTrue
    };
    Arg::new(alloc, option.text())
        .long(option.text())
        .action(action)
}

fn file_arg<'a>(alloc: Global) -> Arg<'a>
    ensures rule { rule_of result ≡ file_rule }
    ensures local { result.global ≡ false }
{
    Arg::new(alloc, "file")
        .required(true)
        .action(ArgAction::Set)
}

fn args_arg<'a>(alloc: Global) -> Arg<'a>
    ensures rule { rule_of result ≡ args_rule }
    ensures local { result.global ≡ false }
{
    Arg::new(alloc, "args").action(ArgAction::Append)
}
