//! What holds of all runs of sound programs. The function computes nothing: its contract is the law.

ghost use Rattle.chi_core.specs.declared.program.Core.{Core};
ghost use Rattle.chi_core.specs.Sound.{Sound};
ghost use Rattle.chi_core_kinds.specs.Keeps.{BeginsAlways, KeepsKinded, KeepsCarried};

use crate::{
    defaults_keep_kinds, literal_values, literals_keep_kinds, operators_keep_kinds,
    stores_keep_kinds, texts_are_there,
};

/// A sound program begins in a kinded configuration, or a fault in a constant ends it. Each step of
/// an enabled label in a kinded configuration leads to a kinded one, or ends with a verdict that can
/// be told, or costs more than is left: nothing is ever amiss. Where it goes on, the list of what
/// channels carry only grows, so that a channel is of one type in all of a run.
pub fn kinded_law()
    ensures begins { (core : Core) → Sound core → BeginsAlways core }
    ensures keeps { (core : Core) → Sound core → KeepsKinded core }
    ensures carried { (core : Core) → Sound core → KeepsCarried core }
{
    operators_keep_kinds();
    literals_keep_kinds();
    literal_values();
    defaults_keep_kinds();
    stores_keep_kinds();
    texts_are_there();
}
