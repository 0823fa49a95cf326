//! Pieces of the text: counts, and lists of numbers.

ghost use Rattle.std.specs.Prelude.{◌≡◌, ◌++◌, codes, flat_map, take, OnOk};
ghost use Rattle.std.specs.Fmt.{decimal};
ghost use Rattle.chi_explain_waiting.specs.declared.pieces.TheConstants.{MOST_TOLD};
ghost use Rattle.chi_explain_waiting.specs.WaitingText.{and_more, listed};

use chi_base::NoMemory;
use chi_explain::put_number;
use std::alloc::Global;

/// How many instances are told, how many alternatives of each, and how many of those for which it waits.
pub const MOST_TOLD: usize = 100;

/// Appends how many more there are than are told, where there are any.
pub fn put_more(
    alloc: Global,
    words: &[u8],
    count: usize,
    out: &mut Vec<u8>,
) -> Result<(), NoMemory>
    ensures { OnOk result (out.new.items ≡ out.old.items ++ and_more words.now count) }
{
    if count > 0 {
        out.extend_from_slice(words)?;
        let digits = format!(in alloc; "{count}")?;
        out.extend_from_slice(digits.as_bytes())?;
        out.push(b'\n')?;
    }
    Ok(())
}

/// Appends numbers, each after a comma.
fn put_rest(alloc: Global, numbers: &[u32], out: &mut Vec<u8>) -> Result<(), NoMemory>
    ensures { OnOk result (out.new.items ≡ out.old.items ++ flat_map (λ r. codes ", " ++ decimal r) numbers.now) }
{
    for number in numbers {
        out.extend_from_slice(b", ")?;
        put_number(alloc, *number, out)?;
    }
    Ok(())
}

/// Appends numbers with commas between them.
pub fn put_listed(alloc: Global, numbers: &[u32], out: &mut Vec<u8>) -> Result<(), NoMemory>
    ensures { OnOk result (out.new.items ≡ out.old.items ++ listed numbers.now) }
{
    match numbers.split_first() {
        Some((first, rest)) => {
            put_number(alloc, *first, out)?;
            put_rest(alloc, rest, out)
        }
        None => Ok(()),
    }
}

/// The first of these numbers: as many as are told.
#[tactic(auto, using(std::proofs::lemmas::List::take_min))]
pub fn first_numbers(numbers: &[u32]) -> &[u32]
    ensures { result.now ≡ take MOST_TOLD numbers.now }
{
    numbers.split_at(MOST_TOLD.min(numbers.len())).0
}
