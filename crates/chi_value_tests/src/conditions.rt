//! The conditions of the calls that make texts, as tests of values in tables.

ghost use Rattle.std.specs.Prelude.{◌≡◌, map, is_some};
ghost use Rattle.std.specs.List.{list_all};
ghost use Rattle.chi_value.specs.Names.{name_at};
ghost use Rattle.chi_value.specs.Plain.{is_plain, itself, within};

use chi_value::{Names, Row, Value};

#[cycle(plain)]
pub fn plain(value: &Value) -> bool
    ensures { result ≡ is_plain value.now }
{
    match value {
        Value::TupleOf(values) | Value::SetOf(values) | Value::DictOf(values) => {
            all_plain(values.as_slice())
        }
        Value::ListOf(values) => is_row_plain(values),
        Value::Chan(_) | Value::Dist(_) | Value::Timer(_) | Value::Inst(_) => false,
        Value::Bool(_) | Value::Int(_) | Value::Real(_) | Value::Text(_) | Value::Choice(_, _) => {
            true
        }
    }
}

#[cycle(plain)]
fn all_plain(values: &[Value]) -> bool
    ensures { result ≡ list_all itself (map is_plain values.now) }
{
    for value in values {
        if !plain(value) {
            return false;
        }
    }
    true
}

#[cycle(plain)]
fn is_row_plain(values: &Row) -> bool
    ensures { result ≡ list_all itself (map is_plain values.now) }
{
    for place in 0..values.len() {
        let Some(value) = values.get(place) else {
            unreachable!();
        };
        if !plain(value) {
            return false;
        }
    }
    true
}

#[cycle(within)]
pub fn within(value: &Value, names: &Names) -> bool
    ensures { result ≡ within names.now.kinds value.now }
{
    match value {
        Value::Choice(kind, position) => is_named(names, *kind, *position),
        Value::TupleOf(values) | Value::SetOf(values) | Value::DictOf(values) => {
            all_within(values.as_slice(), names)
        }
        Value::ListOf(values) => is_row_within(values, names),
        _ => true,
    }
}

#[cycle(within)]
fn all_within(values: &[Value], names: &Names) -> bool
    ensures { result ≡ list_all itself (map (within names.now.kinds) values.now) }
{
    for value in values {
        if !within(value, names) {
            return false;
        }
    }
    true
}

#[cycle(within)]
fn is_row_within(values: &Row, names: &Names) -> bool
    ensures { result ≡ list_all itself (map (within names.now.kinds) values.now) }
{
    for place in 0..values.len() {
        let Some(value) = values.get(place) else {
            unreachable!();
        };
        if !within(value, names) {
            return false;
        }
    }
    true
}

fn is_named(names: &Names, kind: u32, position: u32) -> bool
    ensures { result ≡ is_some (name_at names.now.kinds kind position) }
{
    match names.kinds.as_slice().get(kind as usize) {
        Some(kind) => kind.as_slice().get(position as usize).is_some(),
        None => false,
    }
}
