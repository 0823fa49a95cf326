//! Two numbers that differ where they should be one, in words.

ghost use Rattle.std.specs.Prelude.{◌≡◌, ◌++◌, codes, option_map, IfOk, OnOk};
ghost use Rattle.std.specs.Fmt.{decimal};
ghost use Rattle.chi_check_expr_rules.specs.PredefinedCalls.{is_count};
ghost use Rattle.chi_explain_counts.specs.Numbers as spec;

use chi_base::NoMemory;
use chi_check_types::Predefined;
use std::alloc::Global;

/// Appends how many there are.
fn put_count(alloc: Global, count: usize, words: &mut Vec<u8>) -> Result<(), NoMemory>
    ensures { OnOk result (words.new.items ≡ words.old.items ++ decimal count) }
{
    let digits = format!(in alloc; "{count}")?;
    words.extend_from_slice(digits.as_bytes())?;
    Ok(())
}

/// How many there are of some, and what is said of how many there should be.
fn number_words(
    alloc: Global,
    given: &[u8],
    number: usize,
    wanted: &[u8],
) -> Result<Vec<u8>, NoMemory>
    ensures { IfOk result (λ words. words.items ≡ spec.number_words given.now number wanted.now) }
{
    let mut words = Vec::from_slice(alloc, b"the ")?;
    words.extend_from_slice(given)?;
    words.extend_from_slice(b" are ")?;
    put_count(alloc, number, &mut words)?;
    words.extend_from_slice(b" in number, and ")?;
    words.extend_from_slice(wanted)?;
    Ok(words)
}

/// Two numbers, if they differ.
pub(crate) fn uneven(
    alloc: Global,
    given: &[u8],
    number: usize,
    wanted: &[u8],
    other: usize,
) -> Result<Option<Vec<u8>>, NoMemory>
    ensures { IfOk result (λ words. option_map (λ it. it.items) words ≡ spec.uneven given.now number wanted.now other) }
{
    if number == other {
        return Ok(None);
    }
    let mut words = Vec::from_slice(alloc, wanted)?;
    words.push(b' ')?;
    put_count(alloc, other, &mut words)?;
    Ok(Some(number_words(alloc, given, number, &words)?))
}

/// Targets and values, if their numbers differ, or the one value isn't a tuple for the targets.
pub(crate) fn value_words(
    alloc: Global,
    targets: usize,
    values: usize,
) -> Result<Option<Vec<u8>>, NoMemory>
    ensures { IfOk result (λ words. option_map (λ it. it.items) words ≡ spec.value_words targets values) }
{
    if values == 1 {
        let wanted = b"the one value is no tuple of so many parts";
        return Ok(Some(number_words(alloc, b"targets", targets, wanted)?));
    }
    uneven(alloc, b"targets", targets, b"the values", values)
}

/// The codes of a format and the values that it shows, if their numbers differ.
pub(crate) fn code_words(
    alloc: Global,
    signs: usize,
    values: usize,
) -> Result<Option<Vec<u8>>, NoMemory>
    ensures { IfOk result (λ words. option_map (λ it. it.items) words ≡ option_map spec.of_codes (spec.uneven (codes "codes") signs (codes "the values") values)) }
{
    let Some(mut words) = uneven(alloc, b"codes", signs, b"the values", values)? else {
        return Ok(None);
    };
    words.extend_from_slice(b", if no code is bad; a percent sign alone is `%%`")?;
    Ok(Some(words))
}

/// Arguments of what has a name.
fn arguments_of(alloc: Global, name: &[u8]) -> Result<Vec<u8>, NoMemory>
    ensures { IfOk result (λ words. words.items ≡ spec.arguments_of name.now) }
{
    let mut words = Vec::from_slice(alloc, b"arguments of `")?;
    words.extend_from_slice(name)?;
    words.push(b'`')?;
    Ok(words)
}

/// How many arguments a predefined name takes.
fn wanted_words(name: Predefined) -> &'static str
    ensures { result.now ≡ spec.wanted_words name }
{
    match name {
        Predefined::Min | Predefined::Max => "2 or more",
        Predefined::Range => "1 to 3",
        Predefined::Insert => "3",
        Predefined::Del | Predefined::Uniform | Predefined::Binomial => "2",
        Predefined::Abs
        | Predefined::Sign
        | Predefined::Floor
        | Predefined::Ceil
        | Predefined::Round
        | Predefined::Size
        | Predefined::Empty
        | Predefined::Pop
        | Predefined::Enumerate
        | Predefined::DictKeys
        | Predefined::DictValues
        | Predefined::Constant
        | Predefined::Bernoulli
        | Predefined::Exponential
        | Predefined::Ready
        | Predefined::Finished => "1",
    }
}

/// Whether it takes so many.
fn is_count(name: Predefined, count: usize) -> bool
    ensures { result ≡ is_count name count }
{
    match name {
        Predefined::Min | Predefined::Max => 1 < count,
        Predefined::Range => 0 < count && count < 4,
        Predefined::Insert => count == 3,
        Predefined::Del | Predefined::Uniform | Predefined::Binomial => count == 2,
        Predefined::Abs
        | Predefined::Sign
        | Predefined::Floor
        | Predefined::Ceil
        | Predefined::Round
        | Predefined::Size
        | Predefined::Empty
        | Predefined::Pop
        | Predefined::Enumerate
        | Predefined::DictKeys
        | Predefined::DictValues
        | Predefined::Constant
        | Predefined::Bernoulli
        | Predefined::Exponential
        | Predefined::Ready
        | Predefined::Finished => count == 1,
    }
}

/// The arguments of a name, if it is predefined and doesn't take so many.
pub(crate) fn predefined_words(
    alloc: Global,
    name: &[u8],
    number: usize,
    predefined: Option<Predefined>,
) -> Result<Option<Vec<u8>>, NoMemory>
    ensures { IfOk result (λ words. option_map (λ it. it.items) words ≡ spec.predefined_words name.now number predefined) }
{
    let Some(predefined) = predefined else {
        return Ok(None);
    };
    if is_count(predefined, number) {
        return Ok(None);
    }
    let mut wanted = Vec::from_slice(alloc, b"it takes ")?;
    wanted.extend_from_slice(wanted_words(predefined).as_bytes())?;
    let arguments = arguments_of(alloc, name)?;
    Ok(Some(number_words(alloc, &arguments, number, &wanted)?))
}

/// The arguments of a name, if it has parameters, and another number of them.
pub(crate) fn parameter_words(
    alloc: Global,
    name: &[u8],
    number: usize,
    parameters: Option<usize>,
) -> Result<Option<Vec<u8>>, NoMemory>
    ensures { IfOk result (λ words. option_map (λ it. it.items) words ≡ spec.parameter_words name.now number parameters) }
{
    let Some(parameters) = parameters else {
        return Ok(None);
    };
    let arguments = arguments_of(alloc, name)?;
    uneven(alloc, &arguments, number, b"its parameters", parameters)
}
