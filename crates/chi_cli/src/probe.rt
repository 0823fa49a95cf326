//! What the value of `--probe` looks for.

ghost use Rattle.std.specs.Prelude.{◌≡◌, ◌==◌, not, option_map};
ghost use Rattle.std.specs.List.{prefix_len};
ghost use Rattle.chi_cli.specs.Probes.{kind_named, probe_in, probe_or_all, sought};
ghost use Rattle.chi_cli.specs.Splitting.{name_in, value_in};

use crate::number::number_sought;
use chi_trace::{EventKind, Filter};

/// What an option's value looks for, all events where the option isn't given. The outer `None` is of another form, the
/// inner one of a bad number.
pub fn probe_or_all(value: Option<&[u8]>) -> Option<Option<Filter>>
    ensures { result ≡ probe_or_all (option_map (λ word. word.now) value.entry) }
{
    match value {
        Some(word) => probe_in(word),
        None => Some(Some(Filter::All)),
    }
}

fn probe_in(word: &[u8]) -> Option<Option<Filter>>
    ensures { result ≡ probe_in word.now }
{
    match value_in(word) {
        Some(which) => sought(name_in(word), which),
        None => None,
    }
}

/// What is looked for, by the name of what it is and the word that tells which.
fn sought(name: &[u8], which: &[u8]) -> Option<Option<Filter>>
    ensures { result ≡ sought name.now which.now }
{
    if name == b"instance".as_slice() {
        Some(number_sought(which).map(|n| Filter::Instance(n)))
    } else if name == b"channel".as_slice() {
        Some(number_sought(which).map(|n| Filter::Channel(n)))
    } else if name == b"kind".as_slice() {
        Some(Some(Filter::Kind(kind_named(which)?)))
    } else {
        None
    }
}

/// The kind of events that a word names.
fn kind_named(name: &[u8]) -> Option<EventKind>
    ensures { result ≡ kind_named name.now }
{
    if name == b"local".as_slice() {
        Some(EventKind::Local)
    } else if name == b"pair".as_slice() {
        Some(EventKind::Pair)
    } else if name == b"wake".as_slice() {
        Some(EventKind::Wake)
    } else if name == b"join".as_slice() {
        Some(EventKind::Join)
    } else if name == b"advance".as_slice() {
        Some(EventKind::Advance)
    } else {
        None
    }
}

/// What stands before the first `=`.
fn name_in(word: &[u8]) -> &[u8]
    ensures { result.now ≡ name_in word.now }
{
    let (name, _) = word.split_at(name_length(word));
    name
}

/// What stands after the first `=`, if there is one.
fn value_in(word: &[u8]) -> Option<&[u8]>
    ensures { option_map (λ value. value.now) result ≡ value_in word.now }
{
    let (_, rest) = word.split_at(name_length(word));
    match rest.split_first() {
        Some((_, value)) => Some(value),
        None => None,
    }
}

/// How many bytes stand before it.
fn name_length(word: &[u8]) -> usize
    ensures { result ≡ prefix_len (λ c. not (c == 61)) word.now }
{
    word.iter().take_while(|byte| **byte != b'=').count()
}
