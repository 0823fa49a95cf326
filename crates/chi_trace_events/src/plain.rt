ghost use Rattle.std.specs.Prelude.{◌≡◌, map};
ghost use Rattle.std.specs.List.{list_all};
ghost use Rattle.chi_value.specs.Plain.{is_plain, itself};

use chi_value::Value;

/// Whether no channel, distribution, timer or instance is in the value.
#[cycle(plain)]
pub fn is_plain(value: &Value) -> bool
    ensures { result ≡ is_plain value.now }
{
    match value {
        Value::Bool(_) | Value::Int(_) | Value::Real(_) | Value::Text(_) | Value::Choice(_, _) =>
            true,
        Value::TupleOf(parts) => are_plain(parts.as_slice()),
        Value::SetOf(items) | Value::DictOf(items) => are_plain(items.as_slice()),
        Value::ListOf(items) => {
            let (first, second) = items.as_slices();
            are_plain(first) && are_plain(second)
        }
        Value::Chan(_) | Value::Dist(_) | Value::Timer(_) | Value::Inst(_) => false,
    }
}

#[cycle(plain)]
fn are_plain(values: &[Value]) -> bool
    ensures { result ≡ list_all itself (map is_plain values.now) }
{
    for value in values {
        if !is_plain(value) {
            return false;
        }
    }
    true
}
