//! Statements of experiments made of what their parts come to. Parts of which nothing is made are dropped by calls of
//! `drop`: what goes out of scope where a function returns is laid out part by part in its proof, on each way out.

ghost use Rattle.std.specs.Prelude.{◌≡◌, map, option_map, IfOk};
ghost use Rattle.chi_core.specs.declared.experiment.XStat.TheVariants as trial;
ghost use Rattle.chi_check_experiments.specs.Experiments as spec;

use chi_base::{Items, NoMemory};
use chi_check_stat_lines::{Opened, one};
use chi_core::{CExpr, CStat, XBranch, XStat};
use std::alloc::Global;

fn lines(alloc: Global, made: Items<CStat>) -> Result<Items<XStat>, NoMemory>
    ensures { IfOk result (λ xs. xs ≡ map trial.Line made) }
{
    let mut all = Vec::new(alloc);
    for statement in made.into_vec(alloc)? {
        all.push(XStat::Line(statement))?;
    }
    Ok(Items::of(alloc, all)?)
}

/// Statements without blocks, if there are some, as those of an experiment.
pub(crate) fn all_lined(
    alloc: Global,
    made: Option<Items<CStat>>,
) -> Result<Option<Items<XStat>>, NoMemory>
    ensures { IfOk result (λ xs. xs ≡ option_map (map trial.Line) made) }
{
    match made {
        None => Ok(None),
        Some(made) => Ok(Some(lines(alloc, made)?)),
    }
}

/// An `if` of what its branches and the block of `else` come to.
pub(crate) fn chosen(
    alloc: Global,
    line: u32,
    branches: Option<Items<XBranch>>,
    otherwise: Option<Items<XStat>>,
) -> Result<Option<Items<XStat>>, NoMemory>
    ensures { IfOk result (λ s. s ≡ spec.chosen line branches otherwise) }
{
    let Some(branches) = branches else {
        drop(otherwise);
        return Ok(None);
    };
    let Some(otherwise) = otherwise else {
        drop(branches);
        return Ok(None);
    };
    one(alloc, Some(XStat::If(line, branches, otherwise)))
}

/// A `while` of what its condition and its block come to.
pub(crate) fn looped(
    alloc: Global,
    line: u32,
    test: Option<CExpr>,
    inner: Option<Items<XStat>>,
) -> Result<Option<Items<XStat>>, NoMemory>
    ensures { IfOk result (λ s. s ≡ spec.looped line test inner) }
{
    let Some(test) = test else {
        drop(inner);
        return Ok(None);
    };
    let Some(inner) = inner else {
        drop(test);
        return Ok(None);
    };
    one(alloc, Some(XStat::While(line, test, inner)))
}

/// A `for` of what its walk and its block come to.
pub(crate) fn walked(
    alloc: Global,
    line: u32,
    opened: Option<Opened>,
    inner: Option<Items<XStat>>,
) -> Result<Option<Items<XStat>>, NoMemory>
    ensures { IfOk result (λ s. s ≡ spec.walked line opened inner) }
{
    let Some(opened) = opened else {
        drop(inner);
        return Ok(None);
    };
    let Some(inner) = inner else {
        drop(opened);
        return Ok(None);
    };
    let Opened { container, slots } = opened;
    one(alloc, Some(XStat::For(line, slots, container, inner)))
}

/// A branch of what its condition and its block come to.
pub(crate) fn branched(
    alloc: Global,
    test: Option<CExpr>,
    inner: Option<Items<XStat>>,
) -> Result<Option<Items<XBranch>>, NoMemory>
    ensures { IfOk result (λ b. b ≡ spec.branched test inner) }
{
    let Some(test) = test else {
        drop(inner);
        return Ok(None);
    };
    let Some(block) = inner else {
        drop(test);
        return Ok(None);
    };
    one(alloc, Some(XBranch { test, block }))
}
