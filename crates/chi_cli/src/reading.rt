ghost use Rattle.std.specs.Prelude.{◌≡◌, ◌+◌, ◌<◌, ◌^◌, Ok, IfOk, IfErr, length, zip};
ghost use Rattle.std.specs.List.{list_all};
ghost use Rattle.chi_types.specs.declared.ty.Ty.{out-Ty};
ghost use Rattle.chi_cli.specs.Arguments.{IsRefused, is_of_string, is_readable, is_string, truth_in, unreadable_from, value_in, values_from, values_of};

use crate::args::ArgFault;
use chi_base::NoMemory;
use chi_num::{read_int, read_real};
use chi_token::Bytes;
use chi_types::Ty;
use chi_value::Value;
use std::alloc::Global;

/// Reads texts as the values of a model's parameters.
pub fn read_args(alloc: Global, params: &[Ty], args: &[Bytes]) -> Result<Vec<Value>, ArgFault>
    requires { length params.now < 2 ^ 32 }
    ensures values { IfOk result (λ values. values_of params.now args.now ≡ Ok values.items) }
    ensures fault { IfErr result (λ fault. IsRefused (values_of params.now args.now) fault) }
{
    if params.len() != args.len() {
        return Err(ArgFault::Count);
    }
    match unreadable(params) {
        Some(k) => Err(ArgFault::Kind(k)),
        None => read_all(alloc, params, args),
    }
}

/// Reads texts for parameters that texts can be for.
fn read_all(alloc: Global, params: &[Ty], args: &[Bytes]) -> Result<Vec<Value>, ArgFault>
    requires alike { length params.now ≡ length args.now }
    requires few { length params.now < 2 ^ 32 }
    ensures values { IfOk result (λ values. values_from 1 (zip params.now args.now) ≡ Ok values.items) }
    ensures fault { IfErr result (λ fault. IsRefused (values_from 1 (zip params.now args.now)) fault) }
{
    let mut values = Vec::new(alloc);
    for (at, param) in params.iter().enumerate() {
        match value_in(alloc, param, args[at].as_slice())? {
            Some(value) => values.push(value)?,
            None => return Err(ArgFault::Text(at as u32 + 1)),
        }
    }
    Ok(values)
}

/// The first parameter that no text can be for, counted from 1.
fn unreadable(params: &[Ty]) -> Option<u32>
    requires { length params.now < 2 ^ 32 }
    ensures { result ≡ unreadable_from 1 params.now }
{
    for (at, param) in params.iter().enumerate() {
        if !is_readable(param) {
            return Some(at as u32 + 1);
        }
    }
    None
}

/// Whether a text can be for a parameter.
fn is_readable(param: &Ty) -> bool
    ensures { result ≡ is_readable (out-Ty param.now) }
{
    matches!(param, Ty::Bool | Ty::Int | Ty::Real | Ty::Text)
}

/// The value of the type that a text is, if it is one.
fn value_in(alloc: Global, param: &Ty, text: &[u8]) -> Result<Option<Value>, NoMemory>
    ensures { IfOk result (λ value. value ≡ value_in (out-Ty param.now) text.now) }
{
    let value = match param {
        Ty::Bool => match truth_in(text) {
            Some(truth) => Some(Value::Bool(truth)),
            None => None,
        },
        Ty::Int => match read_int(text) {
            Ok(int) => Some(Value::Int(int)),
            Err(_) => None,
        },
        Ty::Real => match read_real(text) {
            Ok(real) => Some(Value::Real(real)),
            Err(_) => None,
        },
        Ty::Text if is_string(text) => Some(Value::Text(Bytes::copy_of(alloc, text)?)),
        _ => None,
    };
    Ok(value)
}

fn truth_in(text: &[u8]) -> Option<bool>
    ensures { result ≡ truth_in text.now }
{
    if text == b"true".as_slice() {
        Some(true)
    } else if text == b"false".as_slice() {
        Some(false)
    } else {
        None
    }
}

/// Whether a text is short enough for a string, and has only characters that may stand in one.
fn is_string(text: &[u8]) -> bool
    ensures { result ≡ is_string text.now }
{
    text.len() < 1 << 32 && are_of_string(text)
}

fn are_of_string(text: &[u8]) -> bool
    ensures { result ≡ list_all is_of_string text.now }
{
    for byte in text {
        if !is_of_string(*byte) {
            return false;
        }
    }
    true
}

fn is_of_string(byte: u8) -> bool
    ensures { result ≡ is_of_string byte }
{
    byte == b'\t' || byte == b'\n' || (b' '..=b'~').contains(&byte)
}
