//! Texts of values: as they are written, and with strings in quotes.

mod containers;
mod fault;
mod limit;
mod scalars;

ghost use Rattle.std.specs.Prelude.{◌≡◌, ◌++◌, ◌≤◌, length, OnOk, OnErr, IfErr, IsTrue};
ghost use Rattle.chi_value.specs.Plain.{is_plain, within};
ghost use Rattle.chi_value.specs.Text.{text, quoted_text};
ghost use Rattle.chi_value.specs.Limit.{PastLimit};

use crate::{Names, Value};
pub(crate) use containers::put;
pub use fault::TextFault;
pub use limit::{MOST_TEXT, append};
use std::alloc::Global;

/// Appends a value's text. The limit is that of the text alone, whatever `out` holds.
pub fn text_of(
    alloc: Global,
    value: &Value,
    names: &Names,
    out: &mut Vec<u8>,
) -> Result<(), TextFault>
    requires plain { IsTrue (is_plain value.now) }
    requires named { IsTrue (within names.now.kinds value.now) }
    ensures appended { OnOk result (out.new.items ≡ out.old.items ++ text names.now.kinds value.now) }
    ensures within { OnOk result (length (text names.now.kinds value.now) ≤ MOST_TEXT) }
    ensures refused { IfErr result (λ fault. PastLimit fault (length (text names.now.kinds value.now))) }
    ensures unchanged { OnErr result (out.new.items ≡ out.old.items) }
{
    let mut text = Vec::new(alloc);
    match value {
        Value::Text(bytes) => append(&mut text, bytes.as_slice())?,
        _ => put(value, alloc, names, &mut text)?,
    }
    out.extend_from_slice(text.as_slice())?;
    Ok(())
}

/// Appends a value's text, in quotes where it is a string. The limit is that of the text alone.
pub fn quoted_of(
    alloc: Global,
    value: &Value,
    names: &Names,
    out: &mut Vec<u8>,
) -> Result<(), TextFault>
    requires plain { IsTrue (is_plain value.now) }
    requires named { IsTrue (within names.now.kinds value.now) }
    ensures appended { OnOk result (out.new.items ≡ out.old.items ++ quoted_text names.now.kinds value.now) }
    ensures within { OnOk result (length (quoted_text names.now.kinds value.now) ≤ MOST_TEXT) }
    ensures refused { IfErr result (λ fault. PastLimit fault (length (quoted_text names.now.kinds value.now))) }
    ensures unchanged { OnErr result (out.new.items ≡ out.old.items) }
{
    let mut text = Vec::new(alloc);
    put(value, alloc, names, &mut text)?;
    out.extend_from_slice(text.as_slice())?;
    Ok(())
}
