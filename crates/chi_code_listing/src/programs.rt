//! Whole listings.

ghost use Rattle.std.specs.Prelude.{◌≡◌, ◌++◌, ◌∷◌, [], ℕ, slice_get, Some, OnOk, OnErr, IsTrue};
ghost use Rattle.std.specs.Fmt.{decimal};
ghost use Rattle.chi_value.specs.declared.value.Value.{Value};
ghost use Rattle.chi_value.specs.Plain.{is_plain, within};
ghost use Rattle.chi_code.specs.declared.instr.Instr.TheVariants as i;
ghost use Rattle.chi_code_listing.specs.Listing as spec;

use crate::instructions::put_instrs;
use crate::words::{numbered, put_word};
use chi_base::NoMemory;
use chi_code::{Code, Entry};
use std::alloc::Global;

fn put_named(word: &[u8], name: &[u8], out: &mut Vec<u8>) -> Result<(), NoMemory>
    ensures ok { OnOk result (out.new.items ≡ out.old.items ++ (word.now ++ 32 ∷ name.now)) }
{
    put_word(word, out)?;
    put_word(b" ", out)?;
    put_word(name, out)?;
    Ok(())
}

fn put_sizes(alloc: Global, entry: &Entry, out: &mut Vec<u8>) -> Result<(), NoMemory>
    ensures ok { OnOk result (out.new.items ≡ out.old.items ++ 32 ∷ decimal entry.now.arity ++ 32 ∷ decimal entry.now.slots ++ 32 ∷ decimal entry.now.entry) }
{
    numbered(alloc, b" ", u64::from(entry.arity), out)?;
    numbered(alloc, b" ", u64::from(entry.slots), out)?;
    numbered(alloc, b" ", entry.entry, out)?;
    Ok(())
}

fn put_entry(alloc: Global, word: &[u8], entry: &Entry, out: &mut Vec<u8>) -> Result<(), NoMemory>
    ensures ok { OnOk result (out.new.items ≡ out.old.items ++ spec.entries_text word.now (entry.now ∷ [])) }
{
    put_named(word, entry.name.as_slice(), out)?;
    put_sizes(alloc, entry, out)?;
    put_word(b"\n", out)?;
    Ok(())
}

fn put_entries(
    alloc: Global,
    word: &[u8],
    entries: &[Entry],
    out: &mut Vec<u8>,
) -> Result<(), NoMemory>
    ensures ok { OnOk result (out.new.items ≡ out.old.items ++ spec.entries_text word.now entries.now) }
{
    for entry in entries {
        put_entry(alloc, word, entry, out)?;
    }
    Ok(())
}

#[tactic(auto, unfolding(crate::specs::Listing::listing_text))]
fn put_listing(alloc: Global, code: &Code, out: &mut Vec<u8>) -> Result<(), NoMemory>
    requires told { (p : ℕ) (v : Value) → slice_get code.now.instrs p ≡ Some (i.Push v) → IsTrue (is_plain v) × IsTrue (within code.now.names.kinds v) }
    ensures ok { OnOk result (out.new.items ≡ out.old.items ++ spec.listing_text code.now) }
{
    put_entries(alloc, b"func", code.funcs.as_slice(), out)?;
    put_entries(alloc, b"proc", code.procs.as_slice(), out)?;
    put_instrs(alloc, code.instrs.as_slice(), &code.names, out)?;
    Ok(())
}

/// Appends the listing of code whose literals are plain, with names for their enumeration values.
pub fn listing(alloc: Global, code: &Code, out: &mut Vec<u8>) -> Result<(), NoMemory>
    requires told { (p : ℕ) (v : Value) → slice_get code.now.instrs p ≡ Some (i.Push v) → IsTrue (is_plain v) × IsTrue (within code.now.names.kinds v) }
    ensures ok { OnOk result (out.new.items ≡ out.old.items ++ spec.listing_text code.now) }
    ensures unchanged { OnErr result (out.new.items ≡ out.old.items) }
{
    let mut text = Vec::new(alloc);
    put_listing(alloc, code, &mut text)?;
    out.extend_from_slice(text.as_slice())?;
    Ok(())
}
