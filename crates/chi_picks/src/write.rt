//! Picks as a text.

ghost use Rattle.std.specs.Prelude.{◌≡◌, ◌++◌, IfOk, OnOk};
ghost use Rattle.std.specs.Fmt.{decimal};
ghost use Rattle.chi_trace.specs.Logs.{ended};
ghost use Rattle.chi_picks.specs.Lists.{spelled};

use chi_base::NoMemory;
use std::alloc::Global;

/// The text of picks: each as a decimal number and a line feed.
pub fn picks_text(alloc: Global, picks: &[u64]) -> Result<Vec<u8>, NoMemory>
    ensures { IfOk result (λ text. text.items ≡ spelled picks.now) }
{
    let mut text = Vec::new(alloc);
    for pick in picks {
        put_line(alloc, *pick, &mut text)?;
    }
    Ok(text)
}

fn put_line(alloc: Global, pick: u64, text: &mut Vec<u8>) -> Result<(), NoMemory>
    ensures { OnOk result (text.new.items ≡ text.old.items ++ ended (decimal pick)) }
{
    let digits = format!(in alloc; "{pick}")?;
    text.extend_from_slice(digits.as_bytes())?;
    text.push(b'\n')?;
    Ok(())
}
