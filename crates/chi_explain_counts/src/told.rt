//! The whole that is said of a broken rule.

ghost use Rattle.std.specs.Prelude.{◌≡◌, option_map, IfOk};
ghost use Rattle.chi_explain.specs.Explanations.{explained};
ghost use Rattle.chi_explain_counts.specs.Numbers as spec;

use crate::counted::Counted;
use crate::definitions::{counted_at, parameters_of};
use crate::numbers::{code_words, parameter_words, predefined_words, uneven, value_words};
use chi_base::NoMemory;
use chi_check_types::predefined_of;
use chi_check_types::rules::{CALL_ARGUMENTS, ELEMENT_ARGUMENTS, FORMAT, PREDEFINED, TARGET_COUNT};
use chi_explain::{explained, put_number};
use chi_explain_typing::{broken_words, name_at};
use chi_token::{Bytes, Place};
use chi_tree::Program;
use std::alloc::Global;

/// What is said of the arguments of what has a name.
fn argument_words(
    alloc: Global,
    tree: &Program,
    name: &[u8],
    rule: u8,
    number: usize,
) -> Result<Option<Vec<u8>>, NoMemory>
    ensures { IfOk result (λ words. option_map (λ it. it.items) words ≡ spec.argument_words tree.now name.now rule number) }
{
    if rule == PREDEFINED {
        let copy = Bytes::copy_of(alloc, name)?;
        predefined_words(alloc, name, number, predefined_of(&copy))
    } else if rule == ELEMENT_ARGUMENTS || rule == CALL_ARGUMENTS {
        parameter_words(
            alloc,
            name,
            number,
            parameters_of(name, tree.items.as_slice()),
        )
    } else {
        Ok(None)
    }
}

/// What is said of what is counted at the place of a rule.
fn counted_words(
    alloc: Global,
    tree: &Program,
    name: &[u8],
    rule: u8,
    counted: Option<Counted>,
) -> Result<Option<Vec<u8>>, NoMemory>
    ensures { IfOk result (λ words. option_map (λ it. it.items) words ≡ spec.counted_words tree.now name.now rule counted) }
{
    match counted {
        None => Ok(None),
        Some(Counted::Arguments(number)) => argument_words(alloc, tree, name, rule, number),
        Some(Counted::Values { targets, values }) => {
            if rule == TARGET_COUNT {
                value_words(alloc, targets, values)
            } else {
                Ok(None)
            }
        }
        Some(Counted::Parts { targets, parts }) => {
            if rule == TARGET_COUNT {
                uneven(alloc, b"targets", targets, b"the parts of the tuple", parts)
            } else {
                Ok(None)
            }
        }
        Some(Counted::Shown { codes, values }) => {
            if rule == FORMAT {
                code_words(alloc, codes, values)
            } else {
                Ok(None)
            }
        }
    }
}

/// What is said of a rule that a source breaks, which is this program.
#[tactic(auto, unfolding(crate::specs::Numbers::told_words))]
fn told_words(
    alloc: Global,
    source: &[u8],
    tree: &Program,
    rule: u8,
    place: Place,
) -> Result<Vec<u8>, NoMemory>
    ensures { IfOk result (λ words. words.items ≡ spec.told_words source.now tree.now rule place) }
{
    let counted = counted_at(place, tree);
    let Some(mut words) = counted_words(alloc, tree, name_at(source, place), rule, counted)? else {
        return broken_words(alloc, source, rule, place);
    };
    words.extend_from_slice(b": rule ")?;
    put_number(alloc, rule as u32, &mut words)?;
    Ok(words)
}

/// The text that explains the rule that a source breaks first, at its place.
pub fn explain_rule(
    alloc: Global,
    file: &[u8],
    source: &[u8],
    tree: &Program,
    rule: u8,
    place: Place,
) -> Result<Vec<u8>, NoMemory>
    ensures { IfOk result (λ text. text.items ≡ explained file.now source.now place (spec.told_words source.now tree.now rule place)) }
{
    let words = told_words(alloc, source, tree, rule, place)?;
    explained(alloc, file, source, place, &words)
}
