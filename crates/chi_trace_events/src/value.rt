ghost use Rattle.std.specs.Prelude.{◌≡◌, true, IfOk, IfSome, IsTrue};
ghost use Rattle.std.specs.Option.{option_copied};
ghost use Rattle.chi_value.specs.Plain.{is_plain, within};
ghost use Rattle.chi_value.specs.Text.{quoted_text};
ghost use Rattle.chi_trace_events.specs.Traces.{hidden, sent_text, shown};

use crate::plain::is_plain;
use chi_base::NoMemory;
use chi_token::Bytes;
use chi_value::{Names, TextFault, Value, quoted_of};
use std::alloc::Global;

/// How many bytes the text of a sent value may have, so that a trace shows it.
pub const MOST_SHOWN: usize = 65_536;

/// What stands for a value that isn't shown.
fn hidden(alloc: Global) -> Result<Bytes, NoMemory>
    ensures { IfOk result (λ text. text ≡ hidden) }
{
    Ok(Bytes::copy_of(alloc, b"*")?)
}

/// What a trace shows of a plain value.
fn shown(alloc: Global, value: &Value, names: &Names) -> Result<Bytes, NoMemory>
    requires plain { IsTrue (is_plain value.now) }
    requires named { IsTrue (within names.now.kinds value.now) }
    ensures { IfOk result (λ text. text ≡ shown true (quoted_text names.now.kinds value.now)) }
{
    let mut text = Vec::new(alloc);
    match quoted_of(alloc, value, names, &mut text) {
        Ok(()) => {}
        Err(TextFault::Limit) => return hidden(alloc),
        Err(TextFault::NoMemory) => return Err(NoMemory),
    }
    if text.len() > MOST_SHOWN {
        return hidden(alloc);
    }
    Ok(Bytes::copy_of(alloc, &text)?)
}

/// What a trace tells of what is sent.
pub fn sent_text(alloc: Global, sent: Option<&Value>, names: &Names) -> Result<Bytes, NoMemory>
    requires named { IfSome sent (λ v. IsTrue (within names.now.kinds v.now)) }
    ensures { IfOk result (λ text. text ≡ sent_text names.now.kinds (option_copied sent.entry)) }
{
    match sent {
        None => Ok(Bytes::copy_of(alloc, b"void")?),
        Some(value) => {
            if is_plain(value) {
                shown(alloc, value, names)
            } else {
                hidden(alloc)
            }
        }
    }
}
