//! The arguments of a predefined name, where there are so many.

ghost use Rattle.std.specs.Prelude.{◌≡◌, IfOk};
ghost use Rattle.chi_check_expr_rules.specs.PredefinedCalls as spec;

use chi_base::{Items, NoMemory};
use chi_check_types::{Made, Predefined};
use std::alloc::Global;

/// The one argument.
#[tactic(auto, using(crate::proofs::ShortLists::only_of_one, crate::proofs::ShortLists::only_of_others))]
pub(crate) fn only(alloc: Global, arguments: Items<Made>) -> Result<Option<Made>, NoMemory>
    ensures { IfOk result (λ m. m ≡ spec.only arguments) }
{
    let mut arguments = arguments.into_vec(alloc)?;
    if arguments.len() != 1 {
        return Ok(None);
    }
    let m = arguments.remove(0);
    Ok(Some(m))
}

/// The two arguments.
#[tactic(auto, using(crate::proofs::ShortLists::pair_of_two, crate::proofs::ShortLists::pair_of_others))]
pub(crate) fn pair(alloc: Global, arguments: Items<Made>) -> Result<Option<(Made, Made)>, NoMemory>
    ensures { IfOk result (λ ab. ab ≡ spec.pair arguments) }
{
    let mut arguments = arguments.into_vec(alloc)?;
    if arguments.len() != 2 {
        return Ok(None);
    }
    let a = arguments.remove(0);
    let b = arguments.remove(0);
    Ok(Some((a, b)))
}

/// The first two of three arguments, each of which may have no type.
#[tactic(auto, using(crate::proofs::ShortLists::first_two_of_three, crate::proofs::ShortLists::first_two_of_others))]
pub(crate) fn before_third(
    alloc: Global,
    arguments: Items<Option<Made>>,
) -> Result<Option<(Option<Made>, Option<Made>)>, NoMemory>
    ensures { IfOk result (λ ab. ab ≡ spec.before_third arguments) }
{
    let mut arguments = arguments.into_vec(alloc)?;
    if arguments.len() != 3 {
        return Ok(None);
    }
    let list = arguments.remove(0);
    let x = arguments.remove(0);
    Ok(Some((list, x)))
}

/// Whether there may be so many arguments.
pub(crate) fn is_count(name: Predefined, count: usize) -> bool
    ensures { result ≡ spec.is_count name count }
{
    match name {
        Predefined::Abs
        | Predefined::Sign
        | Predefined::Floor
        | Predefined::Ceil
        | Predefined::Round
        | Predefined::Size
        | Predefined::Empty
        | Predefined::Pop
        | Predefined::Enumerate
        | Predefined::DictKeys
        | Predefined::DictValues
        | Predefined::Constant
        | Predefined::Bernoulli
        | Predefined::Exponential
        | Predefined::Ready
        | Predefined::Finished => count == 1,
        Predefined::Del | Predefined::Uniform | Predefined::Binomial => count == 2,
        Predefined::Insert => count == 3,
        Predefined::Min | Predefined::Max => count > 1,
        Predefined::Range => count > 0 && count < 4,
    }
}
