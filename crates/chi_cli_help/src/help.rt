ghost use Rattle.std.specs.Prelude.{◌≡◌, ◌++◌, map, IfOk, OnOk};
ghost use Rattle.std.specs.List.{concat};
ghost use Rattle.chi_cli_help.specs.Help.{help_text};

use crate::parts::parts_of;
use crate::topic::Topic;
use chi_base::NoMemory;
use std::alloc::Global;

/// Appends parts, one after another.
fn put_parts(parts: &[&'static str], text: &mut Vec<u8>) -> Result<(), NoMemory>
    ensures { OnOk result (text.new.items ≡ text.old.items ++ concat (map (λ part. part.now) parts.now)) }
{
    for part in parts {
        text.extend_from_slice(part.as_bytes())?;
    }
    Ok(())
}

/// The text of help on a topic.
pub fn help_text(alloc: Global, topic: Topic) -> Result<Vec<u8>, NoMemory>
    ensures { IfOk result (λ text. text.items ≡ help_text topic) }
{
    let mut text = Vec::new(alloc);
    put_parts(parts_of(topic), &mut text)?;
    Ok(text)
}
