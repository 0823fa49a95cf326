//! Words, numbers and slots.

ghost use Rattle.std.specs.Prelude.{◌≡◌, ◌++◌, ◌∷◌, OnOk};
ghost use Rattle.std.specs.Fmt.{decimal};
ghost use Rattle.chi_code_listing.specs.Listing as spec;

use chi_base::{Items, NoMemory};
use std::alloc::Global;

/// Writes a word.
pub(crate) fn put_word(word: &[u8], out: &mut Vec<u8>) -> Result<(), NoMemory>
    ensures ok { OnOk result (out.new.items ≡ out.old.items ++ word.now) }
{
    out.extend_from_slice(word)?;
    Ok(())
}

/// Writes a number.
pub(crate) fn put_number(alloc: Global, number: u64, out: &mut Vec<u8>) -> Result<(), NoMemory>
    ensures ok { OnOk result (out.new.items ≡ out.old.items ++ decimal number) }
{
    let digits = format!(in alloc; "{number}")?;
    out.extend_from_slice(digits.as_bytes())?;
    Ok(())
}

/// A word and a number.
pub(crate) fn numbered(
    alloc: Global,
    word: &[u8],
    number: u64,
    out: &mut Vec<u8>,
) -> Result<(), NoMemory>
    ensures ok { OnOk result (out.new.items ≡ out.old.items ++ word.now ++ decimal number) }
{
    put_word(word, out)?;
    put_number(alloc, number, out)?;
    Ok(())
}

/// A word and two numbers.
pub(crate) fn put_two(
    alloc: Global,
    word: &[u8],
    first: u64,
    second: u64,
    out: &mut Vec<u8>,
) -> Result<(), NoMemory>
    ensures ok { OnOk result (out.new.items ≡ out.old.items ++ word.now ++ decimal first ++ 32 ∷ decimal second) }
{
    numbered(alloc, word, first, out)?;
    numbered(alloc, b" ", second, out)?;
    Ok(())
}

/// Slots, with a space before each.
fn put_slots(alloc: Global, slots: &[u32], out: &mut Vec<u8>) -> Result<(), NoMemory>
    ensures ok { OnOk result (out.new.items ≡ out.old.items ++ spec.slots_text slots.now) }
{
    for slot in slots {
        numbered(alloc, b" ", u64::from(*slot), out)?;
    }
    Ok(())
}

/// An instruction with a goal and slots.
pub(crate) fn offered(
    alloc: Global,
    word: &[u8],
    goal: u64,
    slots: &Items<u32>,
    out: &mut Vec<u8>,
) -> Result<(), NoMemory>
    ensures ok { OnOk result (out.new.items ≡ out.old.items ++ word.now ++ decimal goal ++ spec.slots_text slots.now) }
{
    numbered(alloc, word, goal, out)?;
    put_slots(alloc, slots.as_slice(), out)?;
    Ok(())
}

/// 1 or 0.
pub(crate) fn put_bit(bit: bool, out: &mut Vec<u8>) -> Result<(), NoMemory>
    ensures ok { OnOk result (out.new.items ≡ out.old.items ++ spec.bit bit) }
{
    if bit {
        put_word(b"1", out)
    } else {
        put_word(b"0", out)
    }
}
