//! The arguments of a program's model.

ghost use Rattle.std.specs.Prelude.{◌≡◌, ◌++◌, Some, codes, OnOk, IfOk, slice_get};
ghost use Rattle.std.specs.Fmt.{decimal};
ghost use Rattle.chi_core.specs.Sound.{Sound};
ghost use Rattle.chi_tool.specs.Arguments.{is_misfit};
ghost use Rattle.chi_tool.specs.Readings.{AreFittedAs, AreReadAs};
ghost use Rattle.chi_tool.specs.Refusals.{arguments_text, unfit_arguments};
ghost use Rattle.chi_tool.specs.Reported.{report_in};

use crate::refusal::one_line;
use crate::report::Reported;
use crate::status::ARGUMENTS;
use chi_base::NoMemory;
use chi_cli::{ArgFault, read_args, values_are_of_parameters};
use chi_core::{Core, ProcDef};
use chi_token::Bytes;
use chi_value::Value;
use std::alloc::Global;

/// How texts don't fit a model's parameters, of which there are so many.
#[derive(Clone, Copy, Debug)]
pub struct Misfit {
    pub wanted: usize,
    pub fault: ArgFault,
}

/// What the texts of arguments come to.
#[derive(Debug, Drop)]
pub enum Fitting {
    Unfit(Misfit),
    /// They mean these values, as the parameters want them.
    Fit(Vec<Value>),
}

/// The same, with the line of the refusal.
#[derive(Debug, Drop)]
pub enum Arguments {
    Unfit(Reported),
    /// They mean these values, as the parameters want them.
    Fit(Vec<Value>),
}

/// The arguments of a program's model that the texts mean, or how they don't fit.
pub fn fitting_of(alloc: Global, core: &Core, texts: &[Bytes]) -> Result<Fitting, NoMemory>
    requires sound { Sound core.now }
    ensures { IfOk result (AreFittedAs core.now texts.now) }
{
    match core.procs.as_slice().get(core.model as usize) {
        Some(model) => fitting_for(alloc, core, model, texts),
        None => unreachable!(),
    }
}

fn fitting_for(
    alloc: Global,
    core: &Core,
    model: &ProcDef,
    texts: &[Bytes],
) -> Result<Fitting, NoMemory>
    requires model { slice_get core.now.procs core.now.model ≡ Some model.now }
    ensures { IfOk result (AreFittedAs core.now texts.now) }
{
    let _core = core;
    values_are_of_parameters();
    let params = model.params.as_slice();
    if u32::try_from(params.len()).is_err() {
        return Err(NoMemory);
    }
    match read_args(alloc, params, texts) {
        Ok(arguments) => Ok(Fitting::Fit(arguments)),
        Err(fault) => {
            if !is_misfit(fault) {
                return Err(NoMemory);
            }
            Ok(Fitting::Unfit(Misfit {
                wanted: params.len(),
                fault,
            }))
        }
    }
}

/// The arguments of a program's model that the texts mean, or their refusal.
pub fn arguments_of(alloc: Global, core: &Core, texts: &[Bytes]) -> Result<Arguments, NoMemory>
    requires sound { Sound core.now }
    ensures { IfOk result (AreReadAs core.now texts.now) }
{
    match fitting_of(alloc, core, texts)? {
        Fitting::Unfit(misfit) => {
            let refusal = unfit(alloc, misfit.wanted, texts.len(), misfit.fault)?;
            Ok(Arguments::Unfit(refusal))
        }
        Fitting::Fit(arguments) => Ok(Arguments::Fit(arguments)),
    }
}

fn put_number(alloc: Global, text: &mut Vec<u8>, number: u64) -> Result<(), NoMemory>
    ensures { OnOk result (text.new.items ≡ text.old.items ++ decimal number) }
{
    let digits = format!(in alloc; "{number}")?;
    text.extend_from_slice(digits.as_bytes())?;
    Ok(())
}

/// What is wrong with argument k.
fn of_argument(alloc: Global, k: u32, what: &[u8]) -> Result<Vec<u8>, NoMemory>
    ensures { IfOk result (λ text. text.items ≡ codes "argument " ++ decimal k ++ what.now) }
{
    let mut text = Vec::from_slice(alloc, b"argument ")?;
    put_number(alloc, &mut text, k as u64)?;
    text.extend_from_slice(what)?;
    Ok(text)
}

/// How many arguments are wanted and given.
fn of_counts(alloc: Global, wanted: u64, given: u64) -> Result<Vec<u8>, NoMemory>
    ensures { IfOk result (λ text. text.items ≡ codes "arguments: wanted " ++ decimal wanted ++ codes ", given " ++ decimal given) }
{
    let mut text = Vec::from_slice(alloc, b"arguments: wanted ")?;
    put_number(alloc, &mut text, wanted)?;
    text.extend_from_slice(b", given ")?;
    put_number(alloc, &mut text, given)?;
    Ok(text)
}

fn text_of(alloc: Global, wanted: u64, given: u64, fault: ArgFault) -> Result<Vec<u8>, NoMemory>
    ensures { IfOk result (λ text. text.items ≡ arguments_text wanted given fault) }
{
    match fault {
        ArgFault::Count => of_counts(alloc, wanted, given),
        ArgFault::Kind(k) => of_argument(alloc, k, b": type"),
        ArgFault::Text(k) => of_argument(alloc, k, b": text"),
        ArgFault::NoMemory => Err(NoMemory),
    }
}

/// The refusal of arguments, of which so many are wanted and so many are given.
fn unfit(alloc: Global, wanted: usize, given: usize, fault: ArgFault) -> Result<Reported, NoMemory>
    ensures { IfOk result (λ r. report_in r ≡ unfit_arguments wanted given fault) }
{
    let text = text_of(alloc, wanted as u64, given as u64, fault)?;
    one_line(alloc, ARGUMENTS, &text)
}

/// Whether arguments are refused, where there was memory to read them.
fn is_misfit(fault: ArgFault) -> bool
    ensures { result ≡ is_misfit fault }
{
    match fault {
        ArgFault::Count | ArgFault::Kind(_) | ArgFault::Text(_) => true,
        ArgFault::NoMemory => false,
    }
}
