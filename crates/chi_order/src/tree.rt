ghost use Rattle.std.specs.Prelude.{◌≡◌, ℕ, ◌+◌, ◌*◌, ◌^◌, ◌<◌, ◌≤◌, not, length, get_or, IfOk};
ghost use Rattle.chi_order.specs.Counted.{below, weight, IsNode, IsCounted, Recounted, Stands};

use crate::steps::Steps;
use chi_base::NoMemory;
use std::sync::ledger::Ledger;

/// A node on the way down to a member: its number, the first word under it, and how many members stand before that.
#[derive(Clone, Copy, Debug)]
pub struct Branch {
    pub node: usize,
    pub start: usize,
    pub seen: u32,
}

/// The least power of 4, of words that have room for so many numbers.
pub(crate) fn words_for(numbers: u32) -> Result<usize, NoMemory>
    ensures room { IfOk result (λ words. numbers ≤ 64 * words) }
    ensures few { IfOk result (λ words. words ≤ 2 ^ 24) }
    ensures whole { IfOk result (λ words. (l : ℕ) × (words ≡ 4 ^ l)) }
{
    let mut words = 1;
    for _level in 0u32..12 {
        if numbers as usize <= 64 * words {
            return Ok(words);
        }
        words *= 4;
    }
    if numbers as usize <= 64 * words {
        Ok(words)
    } else {
        Err(NoMemory)
    }
}

/// How many words there are.
#[inline(always)]
pub(crate) fn size(words: &Vec<u64>) -> usize
    ensures { result ≡ length words.now.items }
{
    words.len()
}

/// A word, and 0 past the last.
#[inline(always)]
pub(crate) fn word_at(words: &Vec<u64>, place: usize) -> u64
    ensures { result ≡ get_or words.now.items place 0 }
{
    match words.get(place) {
        Some(word) => *word,
        None => 0,
    }
}

/// A count of one more, or of one less.
#[inline(always)]
fn moved(count: u32, up: bool) -> u32
    requires more { count < 2 ^ 31 }
    requires less { weight (not up) ≤ count }
    ensures { result + weight (not up) ≡ count + weight up }
{
    if up { count + 1 } else { count - 1 }
}

/// One is counted more, or less, at each node over a word.
#[inline(always)]
pub(crate) fn recount(counts: &mut Vec<u32>, words: usize, place: usize, up: bool)
    requires place { place < words }
    requires whole { (l : ℕ) × (words ≡ 4 ^ l) }
    requires few { words ≤ 2 ^ 24 }
    requires nodes { length counts.old.items ≡ 2 * words }
    requires more { (j k a : ℕ) → IsNode words j k a → get_or counts.old.items k 0 < 2 ^ 31 }
    requires less { (j k a : ℕ) → IsNode words j k a → a ≤ place → place < a + 4 ^ j → weight (not up) ≤ get_or counts.old.items k 0 }
    ensures { Recounted words place up counts.old.items counts.new.items }
{
    let mut node = words + place;
    let mut span = 1;
    while span < words {
        counts[node] = moved(counts[node], up);
        node /= 4;
        span *= 4;
    }
}

/// The word of the member that has `rank` smaller ones, as the lowest node over it. Each node whose count is read on
/// the way down is a step.
#[inline(always)]
pub(crate) fn word_of<L: Ledger>(
    words: &Vec<u64>,
    counts: &Vec<u32>,
    rank: u32,
    steps: &mut Steps<L>,
) -> Branch
    requires counted { IsCounted words.now.items (below words.now.items (64 * length words.now.items)) counts.now.items }
    requires some { rank < below words.now.items (64 * length words.now.items) }
    ensures within { result.start < length words.now.items }
    ensures seen { result.seen ≡ below words.now.items (64 * result.start) }
    ensures before { result.seen ≤ rank }
    ensures after { rank < below words.now.items (64 * (result.start + 1)) }
    ensures cost { (l : ℕ) → length words.now.items ≡ 4 ^ l → steps.new ≤ steps.old + 3 * l }
{
    let mut span = size(words);
    let mut branch = Branch {
        node: 1,
        start: 0,
        seen: 0,
    };
    while span > 1 {
        span /= 4;
        let first = Branch {
            node: branch.node * 4,
            start: branch.start,
            seen: branch.seen,
        };
        branch = child_of(words, counts, rank, span, first, steps);
    }
    branch
}

/// Of four nodes, the first of which is given, the one under which that member stands.
#[inline(always)]
fn child_of<L: Ledger>(
    words: &Vec<u64>,
    counts: &Vec<u32>,
    rank: u32,
    span: usize,
    mut branch: Branch,
    steps: &mut Steps<L>,
) -> Branch
    requires counted { IsCounted words.now.items (below words.now.items (64 * length words.now.items)) counts.now.items }
    requires power { (j : ℕ) × (span ≡ 4 ^ j) }
    requires stands { Stands words.now.items rank span branch.node branch.start branch.seen }
    requires inner { 1 < branch.node }
    requires within { branch.start + 4 * span ≤ length words.now.items }
    requires after { rank < below words.now.items (64 * (branch.start + 4 * span)) }
    ensures stands { Stands words.now.items rank span result.node result.start result.seen }
    ensures within { result.start + span ≤ length words.now.items }
    ensures after { rank < below words.now.items (64 * (result.start + span)) }
    ensures cost { steps.new ≤ steps.old + 3 }
{
    for _turn in 0u32..3 {
        steps.tick();
        let here = counts[branch.node];
        if rank - branch.seen < here {
            return branch;
        }
        branch = Branch {
            node: branch.node + 1,
            start: branch.start + span,
            seen: branch.seen + here,
        };
    }
    branch
}
