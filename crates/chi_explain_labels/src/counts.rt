//! How many labels instances took.

ghost use Rattle.std.specs.Prelude.{◌≡◌, ℕ, ◌+◌, ◌-◌, ◌^◌, ◌<◌, [], ◌∷◌, ◌++◌, length, replicate, slice_index, OnOk};
ghost use Rattle.chi_explain_labels.specs.Labels.{takers, Counted};

use chi_base::NoMemory;
use chi_core::Label;

/// Adds counts of instances that took no label, up to so many.
fn fill(counts: &mut Vec<u64>, count: usize) -> Result<(), NoMemory>
    ensures { OnOk result (counts.new.items ≡ counts.old.items ++ replicate (count - length counts.old.items) 0) }
{
    if counts.len() < count {
        counts.resize(count, 0)?;
    }
    Ok(())
}

/// Counts one label more that an instance takes.
fn count_one(counts: &mut Vec<u64>, pid: u32) -> Result<(), NoMemory>
    requires { slice_index counts.old.items pid + 1 < 2 ^ 64 }
    ensures { OnOk result (Counted (pid ∷ []) counts.old.items counts.new.items) }
{
    fill(counts, pid as usize + 1)?;
    counts[pid as usize] += 1;
    Ok(())
}

/// Counts one label more that two instances take.
fn count_two(counts: &mut Vec<u64>, sender: u32, receiver: u32) -> Result<(), NoMemory>
    requires { (p : ℕ) → slice_index counts.old.items p + 2 < 2 ^ 64 }
    ensures { OnOk result (Counted (sender ∷ receiver ∷ []) counts.old.items counts.new.items) }
{
    count_one(counts, sender)?;
    count_one(counts, receiver)?;
    Ok(())
}

/// Counts a label for each instance that takes it. A number that the list doesn't have stands for an instance that took none.
pub fn count_label(counts: &mut Vec<u64>, label: &Label) -> Result<(), NoMemory>
    requires { (p : ℕ) → slice_index counts.old.items p + 2 < 2 ^ 64 }
    ensures { OnOk result (Counted (takers label.now) counts.old.items counts.new.items) }
{
    match label {
        Label::Local(pid) | Label::Wake(pid, _) | Label::Join(pid) => count_one(counts, *pid),
        Label::Pair(sender, _, receiver, _) => count_two(counts, *sender, *receiver),
        Label::Advance => Ok(()),
    }
}
