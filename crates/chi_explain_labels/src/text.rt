//! The bound on steps, and the instances that took the most labels, in words.

ghost use Rattle.std.specs.Prelude.{◌≡◌, ◌++◌, codes, slice_get, slice_index, OnOk};
ghost use Rattle.std.specs.Fmt.{decimal};
ghost use Rattle.chi_explain.specs.Excerpts.{ended};
ghost use Rattle.chi_explain_labels.specs.LabelsText.{bound_told, labels_text, lead_in, rank_told, ranks_told};

use crate::ranks::{count_of, first_ranked};
use chi_base::NoMemory;
use chi_core::Core;
use chi_explain_waiting::name_of;
use chi_plain_steps::Configuration;
use std::alloc::Global;

/// Appends a number in decimal digits.
fn put_count(alloc: Global, count: u64, out: &mut Vec<u8>) -> Result<(), NoMemory>
    ensures { OnOk result (out.new.items ≡ out.old.items ++ decimal count) }
{
    let digits = format!(in alloc; "{count}")?;
    out.extend_from_slice(digits.as_bytes())?;
    Ok(())
}

/// Appends that instances follow, where some do.
fn put_lead_in(ranks: &[u32], out: &mut Vec<u8>) -> Result<(), NoMemory>
    ensures { OnOk result (out.new.items ≡ out.old.items ++ lead_in ranks.now) }
{
    if !ranks.is_empty() {
        out.extend_from_slice(b"; the instances with the most labels:")?;
    }
    Ok(())
}

/// Appends the bound on steps.
fn put_bound(alloc: Global, bound: u64, ranks: &[u32], out: &mut Vec<u8>) -> Result<(), NoMemory>
    ensures { OnOk result (out.new.items ≡ out.old.items ++ bound_told bound ranks.now) }
{
    out.extend_from_slice(b"the bound on steps is ")?;
    put_count(alloc, bound, out)?;
    put_lead_in(ranks, out)?;
    out.push(b'\n')?;
    Ok(())
}

/// Appends an instance, the name of its process, and how many labels it took.
fn put_line(
    alloc: Global,
    pid: u32,
    name: &[u8],
    count: u64,
    out: &mut Vec<u8>,
) -> Result<(), NoMemory>
    ensures { OnOk result (out.new.items ≡ out.old.items
        ++ ended (codes "  instance " ++ decimal pid ++ codes " " ++ name.now ++ codes ": " ++ decimal count)) }
{
    out.extend_from_slice(b"  instance ")?;
    put_count(alloc, pid as u64, out)?;
    out.push(b' ')?;
    out.extend_from_slice(name)?;
    out.extend_from_slice(b": ")?;
    put_count(alloc, count, out)?;
    out.push(b'\n')?;
    Ok(())
}

/// Appends what is told of an instance that took so many labels.
#[tactic(auto, using(crate::proofs::Telling::telling))]
fn put_rank(
    alloc: Global,
    core: &Core,
    configuration: &Configuration<'_>,
    pid: u32,
    count: u64,
    out: &mut Vec<u8>,
) -> Result<(), NoMemory>
    ensures { OnOk result (out.new.items ≡ out.old.items
        ++ rank_told core.now pid count (slice_get configuration.now.instances pid)) }
{
    match configuration.instances().get(pid as usize) {
        Some(instance) => {
            let name = name_of(core, instance.definition());
            put_line(alloc, pid, name, count, out)
        }
        None => Ok(()),
    }
}

/// Appends what is told of these instances.
fn put_ranks(
    alloc: Global,
    core: &Core,
    configuration: &Configuration<'_>,
    counts: &[u64],
    ranks: &[u32],
    out: &mut Vec<u8>,
) -> Result<(), NoMemory>
    ensures { OnOk result (out.new.items ≡ out.old.items ++ ranks_told core.now configuration.now (slice_index counts.now) ranks.now) }
{
    for pid in ranks {
        let count = count_of(counts, *pid);
        put_rank(alloc, core, configuration, *pid, count, out)?;
    }
    Ok(())
}

/// Appends the bound on steps, and the instances of a configuration that took the most labels, each with how many. The counts
/// are those of the labels that led there, as `count_label` makes them; those of instances that have finished count too.
pub fn put_labels(
    alloc: Global,
    core: &Core,
    configuration: &Configuration<'_>,
    counts: &[u64],
    bound: u64,
    out: &mut Vec<u8>,
) -> Result<(), NoMemory>
    ensures { OnOk result (out.new.items ≡ out.old.items ++ labels_text core.now configuration.now (slice_index counts.now) bound) }
{
    let instances = configuration.instances();
    let ranks = first_ranked(alloc, counts, instances.len() as u32)?;
    let told = ranks.as_slice();
    put_bound(alloc, bound, told, out)?;
    put_ranks(alloc, core, configuration, counts, told, out)?;
    Ok(())
}
