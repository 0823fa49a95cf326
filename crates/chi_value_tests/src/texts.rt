use crate::build::list;
use crate::conditions::{plain, within};
use crate::names::colours;
use chi_base::NoMemory;
use chi_num::Real;
use chi_token::Bytes;
use chi_value::{Items, MOST_TEXT, Names, TextFault, Value, quoted_of, text_of};
use std::alloc::Global;
use std::test::Fail;

/// A value's text as it is written within another.
fn quoted(alloc: Global, value: &Value, names: &Names) -> Result<Vec<u8>, Fail> {
    if !plain(value) || !within(value, names) {
        return Err(Fail::new("no text"));
    }
    let mut text = Vec::new(alloc);
    quoted_of(alloc, value, names, &mut text)?;
    Ok(text)
}

/// Values of several kinds, in a tuple.
fn several(alloc: Global) -> Result<Value, NoMemory> {
    let mut parts = Vec::new(alloc);
    parts.push(Value::Bool(true))?;
    parts.push(Value::Int(i64::MIN))?;
    parts.push(Value::Real(Real::from_units(1)))?;
    parts.push(Value::Text(Bytes::copy_of(alloc, b"a\"\\\t\n'")?))?;
    parts.push(Value::Choice(0, 1))?;
    parts.push(list(alloc, &[7, 8])?)?;
    Ok(Value::TupleOf(Items::of(alloc, parts)?))
}

const TEXT: &[u8] =
    b"(true, -9223372036854775808, 0.000000001, \"a\\\"\\\\\\t\\n'\", blue, [7, 8])";

/// More values are in rows/.
#[test]
fn values_have_texts(rt: HostRuntime) -> Result<(), Fail> {
    let names = colours(rt.alloc())?;
    let value = several(rt.alloc())?;
    assert_eq!(rt; quoted(rt.alloc(), &value, &names)?.as_slice(), TEXT);
    let copy = value.copy(rt.alloc())?;
    assert_eq!(rt;
        quoted(rt.alloc(), &copy, &names)?.as_slice(),
        TEXT,
        "its copy"
    );
    Ok(())
}

#[test]
fn a_text_may_have_so_many_bytes(rt: HostRuntime) -> Result<(), Fail> {
    let names = colours(rt.alloc())?;
    let mut out = Vec::from_slice(rt.alloc(), b"before ")?;
    text_of(rt.alloc(), &Value::Int(7), &names, &mut out)?;
    quoted_of(rt.alloc(), &Value::Bool(true), &names, &mut out)?;
    assert_eq!(rt; out.as_slice(), b"before 7true".as_slice());
    let most = vec![in rt.alloc(); b'a'; MOST_TEXT]?;
    let value = Value::Text(Bytes::copy_of(rt.alloc(), most.as_slice())?);
    text_of(rt.alloc(), &value, &names, &mut out)?;
    assert_eq!(rt; out.len(), MOST_TEXT + 12);
    assert_eq!(rt;
        quoted_of(rt.alloc(), &value, &names, &mut out),
        Err(TextFault::Limit)
    );
    assert_eq!(rt; out.len(), MOST_TEXT + 12);
    Ok(())
}
