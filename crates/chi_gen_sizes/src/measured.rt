ghost use Rattle.std.specs.Prelude.{◌≡◌, ◌+◌, IfOk};
ghost use Rattle.chi_gen_sizes.specs.Measuring.{bodies_in, parts_in, others_in, size_in, sizes_in, all_bodies};

use crate::adding::plus;
use chi_base::{Items, NoMemory};
use std::alloc::Global;

/// How many instructions a statement, a branch or an alternative has, and how many its parts have.
#[derive(Drop)]
pub struct Measured {
    /// Of itself. An alternative's bodies are apart.
    pub size: u64,
    /// Of an alternative's bodies; none of anything else.
    pub bodies: u64,
    /// Of the statements of its block, of its branches, or of its alternatives.
    pub parts: Items<Measured>,
    /// Of the statements of a choice's last block.
    pub others: Items<Measured>,
}

/// What has no blocks.
pub(crate) fn whole(alloc: Global, size: u64) -> Result<Measured, NoMemory>
    ensures { IfOk result (λ m. size_in m ≡ size) }
{
    Ok(Measured {
        size,
        bodies: 0,
        parts: Items::of(alloc, Vec::new(alloc))?,
        others: Items::of(alloc, Vec::new(alloc))?,
    })
}

/// Of all of these, one after another.
#[tactic(auto, using(crate::proofs::Measures::total_next))]
pub fn total_of(parts: &[Measured]) -> Result<u64, NoMemory>
    ensures { IfOk result (λ n. n ≡ sizes_in parts.now) }
{
    let mut count = 0;
    for part in parts {
        count = plus(count, part.size)?;
    }
    Ok(count)
}

/// Of the bodies of all of these alternatives.
#[tactic(auto, using(crate::proofs::Measures::total_next))]
fn bodies_of(parts: &[Measured]) -> Result<u64, NoMemory>
    ensures { IfOk result (λ n. n ≡ all_bodies parts.now) }
{
    let mut count = 0;
    for part in parts {
        count = plus(count, part.bodies)?;
    }
    Ok(count)
}

/// What has parts, and so many instructions more.
pub(crate) fn around(alloc: Global, more: u64, parts: Items<Measured>) -> Result<Measured, NoMemory>
    ensures own { IfOk result (λ m. size_in m ≡ more + sizes_in parts) }
    ensures within { IfOk result (λ m. parts_in m ≡ parts) }
{
    Ok(Measured {
        size: plus(more, total_of(parts.as_slice())?)?,
        bodies: 0,
        parts,
        others: Items::of(alloc, Vec::new(alloc))?,
    })
}

/// A choice, with branches and a last block.
pub(crate) fn choice(parts: Items<Measured>, others: Items<Measured>) -> Result<Measured, NoMemory>
    ensures own { IfOk result (λ m. size_in m ≡ sizes_in parts + 1 + sizes_in others) }
    ensures within { IfOk result (λ m. parts_in m ≡ parts) }
    ensures last { IfOk result (λ m. others_in m ≡ others) }
{
    let first = plus(total_of(parts.as_slice())?, 1)?;
    Ok(Measured {
        size: plus(first, total_of(others.as_slice())?)?,
        bodies: 0,
        parts,
        others,
    })
}

/// A select, with its alternatives and their bodies.
pub(crate) fn select(alloc: Global, parts: Items<Measured>) -> Result<Measured, NoMemory>
    ensures own { IfOk result (λ m. size_in m ≡ sizes_in parts + 2 + all_bodies parts) }
    ensures within { IfOk result (λ m. parts_in m ≡ parts) }
{
    let first = plus(total_of(parts.as_slice())?, 2)?;
    Ok(Measured {
        size: plus(first, bodies_of(parts.as_slice())?)?,
        bodies: 0,
        parts,
        others: Items::of(alloc, Vec::new(alloc))?,
    })
}

/// An alternative of so many instructions, with the statements of its body.
pub(crate) fn guarded(
    alloc: Global,
    size: u64,
    parts: Items<Measured>,
) -> Result<Measured, NoMemory>
    ensures own { IfOk result (λ m. size_in m ≡ size) }
    ensures apart { IfOk result (λ m. bodies_in m ≡ sizes_in parts + 1) }
    ensures within { IfOk result (λ m. parts_in m ≡ parts) }
{
    Ok(Measured {
        size,
        bodies: plus(total_of(parts.as_slice())?, 1)?,
        parts,
        others: Items::of(alloc, Vec::new(alloc))?,
    })
}

/// Alternatives for each element of a container, and so many instructions more.
pub(crate) fn unwound(
    alloc: Global,
    more: u64,
    parts: Items<Measured>,
) -> Result<Measured, NoMemory>
    ensures own { IfOk result (λ m. size_in m ≡ more + sizes_in parts) }
    ensures apart { IfOk result (λ m. bodies_in m ≡ all_bodies parts) }
    ensures within { IfOk result (λ m. parts_in m ≡ parts) }
{
    let size = plus(more, total_of(parts.as_slice())?)?;
    Ok(Measured {
        size,
        bodies: bodies_of(parts.as_slice())?,
        parts,
        others: Items::of(alloc, Vec::new(alloc))?,
    })
}
