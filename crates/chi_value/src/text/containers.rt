ghost use Rattle.std.specs.Prelude.{codes};
ghost use Rattle.chi_value.specs.Limit.{Appends};
ghost use Rattle.chi_value.specs.Text.{quoted_text, quoted_texts, entry_text, entry_texts, joined_by, bracketed};

use super::TextFault;
use super::limit::append;
use super::scalars::{put_int, put_name, put_real, put_string, put_truth};
use crate::{Names, Row, Value};
use std::alloc::Global;

/// Appends a value as it stands within another: a string in quotes.
#[cycle(put)]
pub(crate) fn put(
    value: &Value,
    alloc: Global,
    names: &Names,
    text: &mut Vec<u8>,
) -> Result<(), TextFault>
    ensures grown { Appends result text.old.items text.new.items (quoted_text names.now.kinds value.now) }
{
    match value {
        Value::Bool(truth) => Ok(put_truth(*truth, text)?),
        Value::Int(number) => Ok(put_int(*number, text)?),
        Value::Real(real) => Ok(put_real(*real, alloc, text)?),
        Value::Text(bytes) => Ok(put_string(bytes.as_slice(), alloc, text)?),
        Value::Choice(kind, position) => Ok(put_name(*kind, *position, names, text)?),
        Value::TupleOf(parts) => Ok(put_within(parts.as_slice(), alloc, names, b"(", b")", text)?),
        Value::ListOf(items) => Ok(put_list(items, alloc, names, text)?),
        Value::SetOf(items) => Ok(put_within(items.as_slice(), alloc, names, b"{", b"}", text)?),
        Value::DictOf(items) => Ok(put_dictionary(items.as_slice(), alloc, names, text)?),
        Value::Chan(_) | Value::Dist(_) | Value::Timer(_) | Value::Inst(_) => Ok(append(
            text, b"",
        )?),
    }
}

/// Appends values in brackets, with commas between them.
#[cycle(put)]
fn put_within(
    values: &[Value],
    alloc: Global,
    names: &Names,
    opening: &[u8],
    closing: &[u8],
    text: &mut Vec<u8>,
) -> Result<(), TextFault>
    ensures grown { Appends result text.old.items text.new.items
        (bracketed opening.now (quoted_texts names.now.kinds values.now) closing.now) }
{
    append(text, opening)?;
    put_all(values, alloc, names, b", ", text)?;
    append(text, closing)?;
    Ok(())
}

/// Appends the elements of a list in brackets, with commas between them.
#[cycle(put)]
fn put_list(items: &Row, alloc: Global, names: &Names, text: &mut Vec<u8>) -> Result<(), TextFault>
    ensures grown { Appends result text.old.items text.new.items
        (bracketed (codes "[") (quoted_texts names.now.kinds items.now) (codes "]")) }
{
    append(text, b"[")?;
    put_row(items, alloc, names, text)?;
    append(text, b"]")?;
    Ok(())
}

#[cycle(put)]
fn put_row(items: &Row, alloc: Global, names: &Names, text: &mut Vec<u8>) -> Result<(), TextFault>
    ensures grown { Appends result text.old.items text.new.items
        (joined_by (codes ", ") (quoted_texts names.now.kinds items.now)) }
{
    let Some(first) = items.get(0) else {
        return Ok(append(text, b"")?);
    };
    put(first, alloc, names, text)?;
    for place in 1..items.len() {
        let Some(value) = items.get(place) else {
            unreachable!();
        };
        append(text, b", ")?;
        put(value, alloc, names, text)?;
    }
    Ok(())
}

/// Appends the entries of a dictionary in braces, with commas between them.
#[cycle(put)]
fn put_dictionary(
    entries: &[Value],
    alloc: Global,
    names: &Names,
    text: &mut Vec<u8>,
) -> Result<(), TextFault>
    ensures grown { Appends result text.old.items text.new.items
        (bracketed (codes "{") (entry_texts names.now.kinds entries.now) (codes "}")) }
{
    append(text, b"{")?;
    put_entries(entries, alloc, names, text)?;
    append(text, b"}")?;
    Ok(())
}

#[cycle(put)]
fn put_all(
    values: &[Value],
    alloc: Global,
    names: &Names,
    between: &[u8],
    text: &mut Vec<u8>,
) -> Result<(), TextFault>
    ensures grown { Appends result text.old.items text.new.items
        (joined_by between.now (quoted_texts names.now.kinds values.now)) }
{
    let Some((first, rest)) = values.split_first() else {
        return Ok(append(text, b"")?);
    };
    put(first, alloc, names, text)?;
    for value in rest {
        append(text, between)?;
        put(value, alloc, names, text)?;
    }
    Ok(())
}

#[cycle(put)]
fn put_entries(
    entries: &[Value],
    alloc: Global,
    names: &Names,
    text: &mut Vec<u8>,
) -> Result<(), TextFault>
    ensures grown { Appends result text.old.items text.new.items
        (joined_by (codes ", ") (entry_texts names.now.kinds entries.now)) }
{
    let Some((first, rest)) = entries.split_first() else {
        return Ok(append(text, b"")?);
    };
    put_entry(first, alloc, names, text)?;
    for entry in rest {
        append(text, b", ")?;
        put_entry(entry, alloc, names, text)?;
    }
    Ok(())
}

/// Appends a key and what it has, with a colon between them.
#[cycle(put)]
fn put_entry(
    entry: &Value,
    alloc: Global,
    names: &Names,
    text: &mut Vec<u8>,
) -> Result<(), TextFault>
    ensures grown { Appends result text.old.items text.new.items (entry_text names.now.kinds entry.now) }
{
    match entry {
        Value::TupleOf(parts) => Ok(put_all(parts.as_slice(), alloc, names, b": ", text)?),
        _ => Ok(append(text, b"")?),
    }
}
