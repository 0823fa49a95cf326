//! Statements made of what their parts come to. Parts of which nothing is made are dropped by calls of `drop`:
//! what goes out of scope where a function returns is laid out part by part in its proof, on each way out.

ghost use Rattle.std.specs.Prelude.{◌≡◌, Some, None, not, if◌then◌else◌, IfOk, OnOk};
ghost use Rattle.chi_check_types.specs.Faults.{are_none, first_of};
ghost use Rattle.chi_check_stat_rules.specs.Endings.{loop_rule};
ghost use Rattle.chi_check_stat_lines.specs.Stated as stated;
ghost use Rattle.chi_check_stat_lines.specs.Blocks as spec;

use crate::lists::one;
use crate::state::Opened;
use chi_base::{Items, NoMemory};
use chi_check_stat_rules::note_loop_word;
use chi_check_types::Fault;
use chi_core::{Branch, CAlt, CComm, CElem, CExpr, CStat};
use chi_token::Place;
use std::alloc::Global;

/// A word of loops, unless it stands in none.
pub fn loop_word(
    alloc: Global,
    loops: bool,
    place: Place,
    statement: CStat,
    kept: &mut Option<Fault>,
) -> Result<Option<Items<CStat>>, NoMemory>
    ensures made { IfOk result (λ s. s ≡ (if not (are_none (loop_rule loops place)) then None else stated.one (Some statement))) }
    ensures noted { OnOk result (kept.new ≡ first_of kept.old (loop_rule loops place)) }
{
    if note_loop_word(loops, place, kept) {
        drop(statement);
        return Ok(None);
    }
    one(alloc, Some(statement))
}

/// A select of what its alternatives come to, unless a rule of the whole is broken.
pub fn selected(
    alloc: Global,
    barred: bool,
    line: u32,
    inner: Option<Items<CAlt>>,
) -> Result<Option<Items<CStat>>, NoMemory>
    ensures { IfOk result (λ s. s ≡ (if barred then None else spec.offers line inner)) }
{
    let Some(inner) = inner else {
        return Ok(None);
    };
    if barred {
        drop(inner);
        return Ok(None);
    }
    one(alloc, Some(CStat::Select(line, inner)))
}

/// What is run: all elements, unless a rule of the whole is broken.
pub fn ran(
    alloc: Global,
    barred: bool,
    line: u32,
    inner: Option<Items<CElem>>,
) -> Result<Option<Items<CStat>>, NoMemory>
    ensures { IfOk result (λ s. s ≡ (if barred then None else spec.runs line inner)) }
{
    let Some(inner) = inner else {
        return Ok(None);
    };
    if barred {
        drop(inner);
        return Ok(None);
    }
    one(alloc, Some(CStat::Run(line, inner)))
}

/// What is started: all elements, unless a rule of the whole is broken.
pub fn started(
    alloc: Global,
    barred: bool,
    line: u32,
    inner: Option<Items<CElem>>,
) -> Result<Option<Items<CStat>>, NoMemory>
    ensures { IfOk result (λ s. s ≡ (if barred then None else spec.starts line inner)) }
{
    let Some(inner) = inner else {
        return Ok(None);
    };
    if barred {
        drop(inner);
        return Ok(None);
    }
    one(alloc, Some(CStat::Start(line, inner)))
}

/// An `if` of what its branches and the block of `else` come to.
pub fn chosen(
    alloc: Global,
    line: u32,
    branches: Option<Items<Branch>>,
    otherwise: Option<Items<CStat>>,
) -> Result<Option<Items<CStat>>, NoMemory>
    ensures { IfOk result (λ s. s ≡ spec.chosen line branches otherwise) }
{
    let Some(branches) = branches else {
        drop(otherwise);
        return Ok(None);
    };
    let Some(otherwise) = otherwise else {
        drop(branches);
        return Ok(None);
    };
    one(alloc, Some(CStat::If(line, branches, otherwise)))
}

/// A `while` of what its condition and its block come to.
pub fn looped(
    alloc: Global,
    line: u32,
    test: Option<CExpr>,
    inner: Option<Items<CStat>>,
) -> Result<Option<Items<CStat>>, NoMemory>
    ensures { IfOk result (λ s. s ≡ spec.looped line test inner) }
{
    let Some(test) = test else {
        drop(inner);
        return Ok(None);
    };
    let Some(inner) = inner else {
        drop(test);
        return Ok(None);
    };
    one(alloc, Some(CStat::While(line, test, inner)))
}

/// A `for` of what its walk and its block come to.
pub fn walked(
    alloc: Global,
    line: u32,
    opened: Option<Opened>,
    inner: Option<Items<CStat>>,
) -> Result<Option<Items<CStat>>, NoMemory>
    ensures { IfOk result (λ s. s ≡ spec.walked line opened inner) }
{
    let Some(opened) = opened else {
        drop(inner);
        return Ok(None);
    };
    let Some(inner) = inner else {
        drop(opened);
        return Ok(None);
    };
    let Opened { container, slots } = opened;
    one(alloc, Some(CStat::For(line, slots, container, inner)))
}

/// A branch of what its condition and its block come to.
pub fn branched(
    alloc: Global,
    test: Option<CExpr>,
    inner: Option<Items<CStat>>,
) -> Result<Option<Items<Branch>>, NoMemory>
    ensures { IfOk result (λ b. b ≡ spec.branched test inner) }
{
    let Some(test) = test else {
        drop(inner);
        return Ok(None);
    };
    let Some(block) = inner else {
        drop(test);
        return Ok(None);
    };
    one(alloc, Some(Branch { test, block }))
}

/// An alternative with this guard, or with none.
fn guarded_by(
    alloc: Global,
    guard: Option<CExpr>,
    offer: Option<CComm>,
    inner: Option<Items<CStat>>,
) -> Result<Option<Items<CAlt>>, NoMemory>
    ensures { IfOk result (λ a. a ≡ spec.guarded (Some guard) offer inner) }
{
    let Some(offer) = offer else {
        drop(guard);
        drop(inner);
        return Ok(None);
    };
    let Some(inner) = inner else {
        drop(guard);
        drop(offer);
        return Ok(None);
    };
    one(alloc, Some(CAlt::Guarded(guard, offer, inner)))
}

/// An alternative of what its guard, its communication and its block come to.
pub fn guarded(
    alloc: Global,
    guard: Option<Option<CExpr>>,
    offer: Option<CComm>,
    inner: Option<Items<CStat>>,
) -> Result<Option<Items<CAlt>>, NoMemory>
    ensures { IfOk result (λ a. a ≡ spec.guarded guard offer inner) }
{
    let Some(guard) = guard else {
        drop(offer);
        drop(inner);
        return Ok(None);
    };
    guarded_by(alloc, guard, offer, inner)
}

/// An unwind of what its walk and its alternatives come to.
pub fn offered(
    alloc: Global,
    opened: Option<Opened>,
    inner: Option<Items<CAlt>>,
) -> Result<Option<Items<CAlt>>, NoMemory>
    ensures { IfOk result (λ a. a ≡ spec.offered opened inner) }
{
    let Some(opened) = opened else {
        drop(inner);
        return Ok(None);
    };
    let Some(inner) = inner else {
        drop(opened);
        return Ok(None);
    };
    let Opened { container, slots } = opened;
    one(alloc, Some(CAlt::Unwind(slots, container, inner)))
}
