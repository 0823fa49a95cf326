//! Which instances took the most labels.

ghost use Rattle.std.specs.Prelude.{◌≡◌, ◌≤◌, insert, length, slice_index, take, IfOk, OnOk};
ghost use Rattle.chi_explain_labels.specs.Labels.{first_ranked, placed};

use chi_base::NoMemory;
use std::alloc::Global;

/// How many instances are told of those that took labels.
pub const MOST_RANKED: usize = 10;

/// How many labels an instance took.
pub fn count_of(counts: &[u64], pid: u32) -> u64
    ensures { result ≡ slice_index counts.now pid }
{
    match counts.get(pid as usize) {
        Some(count) => *count,
        None => 0,
    }
}

/// The place of an instance among others, whose numbers are less.
#[tactic(auto, using(crate::proofs::Placing::placing))]
fn place_of(counts: &[u64], pid: u32, ranks: &[u32]) -> usize
    ensures within { result ≤ length ranks.now }
    ensures placed { insert ranks.now result pid ≡ placed (slice_index counts.now) pid ranks.now }
{
    let count = count_of(counts, pid);
    for (place, other) in ranks.iter().enumerate() {
        if count_of(counts, *other) < count {
            return place;
        }
    }
    ranks.len()
}

/// Puts an instance in its place among others, whose numbers are less, and lets go of those that come too late to be told.
fn rank(counts: &[u64], pid: u32, ranks: &mut Vec<u32>) -> Result<(), NoMemory>
    ensures { OnOk result (ranks.new.items ≡ take MOST_RANKED (placed (slice_index counts.now) pid ranks.old.items)) }
{
    let place = place_of(counts, pid, ranks);
    ranks.insert(place, pid)?;
    ranks.truncate(MOST_RANKED);
    Ok(())
}

/// The first instances, of so many, by how many labels they took.
#[tactic(auto, using(crate::proofs::Placing::ranking))]
pub fn first_ranked(alloc: Global, counts: &[u64], count: u32) -> Result<Vec<u32>, NoMemory>
    ensures { IfOk result (λ ranks. ranks.items ≡ first_ranked (slice_index counts.now) count) }
{
    let mut ranks = Vec::new(alloc);
    for pid in 0..count {
        if count_of(counts, pid) > 0 {
            rank(counts, pid, &mut ranks)?;
        }
    }
    Ok(ranks)
}
