ghost use Rattle.std.specs.Prelude.{◌≡◌, OnErr};
ghost use Rattle.chi_value.specs.Limit.{Appends};

use super::TextFault;

/// How many bytes one text may have.
pub const MOST_TEXT: usize = 4_194_304;

/// Appends to a text that is being made, as long as it stays within the limit.
pub fn append(text: &mut Vec<u8>, more: &[u8]) -> Result<(), TextFault>
    ensures grown { Appends result text.old.items text.new.items more.now }
    ensures unchanged { OnErr result (text.new.items ≡ text.old.items) }
{
    if text.len() > MOST_TEXT || more.len() > MOST_TEXT - text.len() {
        return Err(TextFault::Limit);
    }
    text.extend_from_slice(more)?;
    Ok(())
}
