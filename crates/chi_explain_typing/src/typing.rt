ghost use Rattle.std.specs.Prelude.{◌≡◌, ◌++◌, option_map, IfOk, OnOk};
ghost use Rattle.chi_explain_typing.specs.Rules.{broken_words, is_of_predefined, named_words, sentence, words_about, words_of_rule};

use crate::named::{NAMED, PREDEFINED_NAME};
use crate::names::{name_at, put_words_with};
use crate::predefined::is_predefined;
use crate::rows::words_at;
use crate::rules::RULES;
use chi_base::NoMemory;
use chi_check_types::rules::NEW_NAME;
use chi_explain::put_number;
use chi_token::Place;
use std::alloc::Global;

/// The words of a rule, if there is one of this number.
#[tactic(auto, unfolding(crate::specs::Rules::words_of_rule))]
fn words_of_rule(rule: u8) -> Option<&'static str>
    ensures { option_map (λ words. words.now) result ≡ words_of_rule rule }
{
    words_at(&RULES, rule)
}

/// Those that have a name in them, if there are any of the rule.
#[tactic(auto, unfolding(crate::specs::Rules::named_words))]
fn named_words(rule: u8) -> Option<&'static str>
    ensures { option_map (λ words. words.now) result ≡ named_words rule }
{
    words_at(&NAMED, rule)
}

/// Whether what is wrong with the name is that it is predefined.
fn is_of_predefined(rule: u8, name: &[u8]) -> bool
    ensures { result ≡ is_of_predefined rule name.now }
{
    rule == NEW_NAME && is_predefined(name)
}

/// The words of a rule about a name, if there is one, and the rule has such.
fn words_about(rule: u8, name: &[u8]) -> Option<&'static str>
    ensures { option_map (λ words. words.now) result ≡ words_about rule name.now }
{
    if name.is_empty() {
        None
    } else if is_of_predefined(rule, name) {
        Some(PREDEFINED_NAME)
    } else {
        named_words(rule)
    }
}

/// Appends what is said of a rule that is broken at the place of a name, or of none.
fn put_sentence(rule: u8, name: &[u8], words: &mut Vec<u8>) -> Result<(), NoMemory>
    ensures { OnOk result (words.new.items ≡ words.old.items ++ sentence rule name.now) }
{
    if let Some(about) = words_about(rule, name) {
        put_words_with(name, about.as_bytes(), words)?;
        words.extend_from_slice(b": ")?;
    } else if let Some(sentence) = words_of_rule(rule) {
        words.extend_from_slice(sentence.as_bytes())?;
        words.extend_from_slice(b": ")?;
    }
    Ok(())
}

/// What is said of a rule that is broken at a place of a source, whatever numbers there are.
#[tactic(auto, unfolding(crate::specs::Rules::broken_words))]
pub fn broken_words(
    alloc: Global,
    source: &[u8],
    rule: u8,
    place: Place,
) -> Result<Vec<u8>, NoMemory>
    ensures { IfOk result (λ words. words.items ≡ broken_words source.now rule place) }
{
    let mut words = Vec::new(alloc);
    put_sentence(rule, name_at(source, place), &mut words)?;
    words.extend_from_slice(b"rule ")?;
    put_number(alloc, rule as u32, &mut words)?;
    Ok(words)
}
