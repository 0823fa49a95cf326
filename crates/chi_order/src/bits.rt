ghost use Rattle.std.specs.Prelude.{◌≡◌, ◌+◌, ◌-◌, ◌%◌, ◌^◌, ◌<◌, ◌≤◌, true, false, count_ones};
ghost use Rattle.chi_order.specs.Counted.{is_set};

use crate::steps::Steps;
use std::sync::ledger::Ledger;

/// Whether a bit of a word is set.
#[inline(always)]
pub(crate) fn is_set(word: u64, bit: u32) -> bool
    requires { bit < 64 }
    ensures { result ≡ is_set word bit }
{
    (word >> bit) % 2 == 1
}

/// The bits of a word below this one.
#[inline(always)]
fn low_bits(word: u64, bit: u32) -> u64
    requires { bit < 64 }
    ensures { result ≡ word % 2 ^ bit }
{
    word & ((1 << bit) - 1)
}

/// A word with one bit more.
#[inline(always)]
pub(crate) fn with_bit(word: u64, bit: u32) -> u64
    requires within { bit < 64 }
    requires unset { is_set word bit ≡ false }
    ensures { result ≡ word + 2 ^ bit }
{
    word + (1 << bit)
}

/// A word with one bit less.
#[inline(always)]
pub(crate) fn without_bit(word: u64, bit: u32) -> u64
    requires within { bit < 64 }
    requires set { is_set word bit ≡ true }
    ensures { result ≡ word - 2 ^ bit }
{
    word - (1 << bit)
}

/// The lowest set bit of a word.
#[inline(always)]
fn lowest_of(word: u64) -> u32
    requires { 0 < count_ones word }
    ensures within { result < 64 }
    ensures set { is_set word result ≡ true }
    ensures before { count_ones (word % 2 ^ result) ≡ 0 }
{
    word.trailing_zeros()
}

/// The set bit of a word that has so many set bits below it. The lowest takes one step, each other six.
#[inline(always)]
pub(crate) fn bit_of<L: Ledger>(word: u64, rank: u32, steps: &mut Steps<L>) -> u32
    requires { rank < count_ones word }
    ensures within { result < 64 }
    ensures set { is_set word result ≡ true }
    ensures before { count_ones (word % 2 ^ result) ≡ rank }
    ensures cost { steps.new ≤ steps.old + 6 }
{
    if rank == 0 {
        steps.tick();
        return lowest_of(word);
    }
    let mut low = 0;
    let mut width = 64;
    while width > 1 {
        width /= 2;
        steps.tick();
        if low_bits(word, low + width).count_ones() <= rank {
            low += width;
        }
    }
    low
}
