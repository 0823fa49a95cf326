//! A configuration with what is kept beside it: which instances have an option, and which may get or lose one by
//! what another does. After a step only those are looked at.

ghost use Rattle.std.specs.Prelude.{◌≡◌, ◌≢◌, ℕ, ◌≤◌, ◌<◌, ◌⊎◌, List, length, Contains, IfOk, OnOk};
ghost use Rattle.chi_core.specs.declared.label.Label.{Label};
ghost use Rattle.chi_core.specs.declared.limits.TheConstants.{MOST_INSTANCES};
ghost use Rattle.chi_core.specs.Config.{Config, Instance};
ghost use Rattle.chi_order.specs.Marked.{is_marked};
ghost use Rattle.chi_plain.specs.Watching.{is_advance, IsAffected, IsJoined, IsMarked, first_named, second_named};
ghost use Rattle.chi_plain_options.specs.Listing.{AllParties, Keeps};
ghost use Rattle.chi_plain_options.specs.Acting.{acts};
ghost use Rattle.chi_plain.specs.Led.{IsBefore, IsListed, Leads, Led, Settles};

use chi_base::NoMemory;
use chi_core::Label;
use chi_order::Ranks;
use chi_plain_options::{
    ListedAt, Parties, cover, cover_from, cover_joiners, has_option, relist, relist_from,
};
use chi_plain_steps::Configuration;
use std::alloc::Global;
use std::marker::Model;

/// What is kept beside a configuration: for each instance whether it has an option; for each channel which instances
/// communicate on it, and for each instance which wait for it, each with some that did before.
#[derive(Debug, Drop)]
pub struct Kept {
    pub(crate) marks: Ranks,
    pub(crate) parties: Parties,
    pub(crate) joiners: ListedAt,
}

/// A configuration, with what is kept beside it.
#[derive(Debug, Drop)]
pub struct Watched<'a> {
    pub(crate) configuration: Configuration<'a>,
    pub(crate) kept: Kept,
}

impl<'a> Model for Watched<'a> {
    ghost use Rattle.std.specs.Coded.{codes};
    ghost use Rattle.chi_core.specs.contracts.statement.CStat as statements;
    ghost use Rattle.chi_core.specs.contracts.expression.CExpr as expressions;
    ghost use Rattle.chi_core.specs.contracts.element.CElem as elements;
    ghost use Rattle.chi_value.specs.contracts.value.Value as values;
    ghost use Rattle.chi_core.specs.Config.{Config};
    ghost use Rattle.chi_plain.specs.Watching.{IsWatched};

    ghost Value = { Config };

    ghost coded = { Prim.hlevel (codes, statements.the_row.coded, expressions.the_row.coded, elements.the_row.coded, values.the_row.coded) };

    ghost view = { λ w. w.configuration };

    ghost invariant = { λ w. IsWatched w.configuration w.kept };
}

impl<'a> Watched<'a> {
    pub fn configuration(&self) -> &Configuration<'a>
        ensures { result.now ≡ self.now }
    {
        &self.configuration
    }
}

/// What is known before a step: the instances that its label names, how many instances there are, whether those
/// two have finished, and some that may lose an option.
#[derive(Debug, Drop)]
pub struct Before {
    first: u32,
    second: u32,
    count: u32,
    first_over: bool,
    second_over: bool,
    covered: Vec<u32>,
}

/// The instances that a label names.
fn named(label: &Label) -> (u32, u32)
    ensures first { result.0 ≡ first_named label.now }
    ensures second { result.1 ≡ second_named label.now }
{
    match label {
        Label::Local(pid) => (*pid, *pid),
        Label::Pair(pid, _, other, _) => (*pid, *other),
        Label::Wake(pid, _) => (*pid, *pid),
        Label::Join(pid) => (*pid, *pid),
        Label::Advance => (0, 0),
    }
}

/// Marks an instance where it has an option.
#[tactic(auto, using(crate::proofs::Mending::renewing))]
fn renew(config: &Configuration<'_>, parties: &Parties, marks: &mut Ranks, pid: u32)
    requires parties { AllParties parties.now config.now.instances }
    requires room { length config.now.instances ≤ length marks.old }
    ensures room { length marks.new ≡ length marks.old }
    ensures renewed { is_marked marks.new pid ≡ acts config.now pid }
    ensures others { (p : ℕ) → p ≢ pid → is_marked marks.new p ≡ is_marked marks.old p }
{
    if has_option(config, parties, pid) {
        marks.insert(pid);
    } else if marks.contains(pid) {
        marks.remove(pid);
    }
}

/// Marks each instance where it has an option, where the marks are right but for some.
#[tactic(auto, using(crate::proofs::Mending::renewing))]
fn renew_all(config: &Configuration<'_>, parties: &Parties, marks: &mut Ranks, some: &[u32])
    requires parties { AllParties parties.now config.now.instances }
    requires room { length config.now.instances ≤ length marks.old }
    requires right { (p : ℕ) → (is_marked marks.old p ≡ acts config.now p) ⊎ Contains some.now p }
    ensures { IsMarked config.now marks.new }
{
    for pid in some {
        renew(config, parties, marks, *pid);
    }
}

/// What is known before a step.
pub fn noted(
    alloc: Global,
    config: &Configuration<'_>,
    parties: &Parties,
    label: &Label,
) -> Result<Before, NoMemory>
    ensures { IfOk result (λ b. IsBefore parties.now label.now config.now.instances b) }
{
    let (first, second) = named(label);
    let mut covered = Vec::new(alloc);
    cover(config, parties, first, &mut covered)?;
    cover(config, parties, second, &mut covered)?;
    Ok(Before {
        first,
        second,
        count: config.instances().len() as u32,
        first_over: config.is_over(first),
        second_over: config.is_over(second),
        covered,
    })
}

/// Adds those that wait for an instance, where it has finished now and hadn't before, or had and hasn't now.
#[tactic(auto, using(chi_plain_options::proofs::Keeping::keeping))]
fn cover_changed(
    config: &Configuration<'_>,
    joiners: &ListedAt,
    pid: u32,
    was_over: bool,
    covered: &mut Vec<u32>,
) -> Result<(), NoMemory>
    ensures keeps { Keeps covered.old.items covered.new.items }
    ensures joined { OnOk result (IsJoined joiners.now config.now.instances pid was_over covered.new.items) }
{
    if config.is_over(pid) != was_over {
        cover_joiners(joiners, pid, covered)?;
    }
    Ok(())
}

/// All those that may have got or lost an option by a step.
fn affected(
    config: &Configuration<'_>,
    parties: &Parties,
    joiners: &ListedAt,
    before: Before,
) -> Result<Vec<u32>, NoMemory>
    ensures { IfOk result (λ some. (label : Label) (old : List Instance) → IsBefore parties.now label old before
        → IsAffected parties.now joiners.now (first_named label) (second_named label) old config.now.instances some.items) }
{
    let Before {
        first,
        second,
        count,
        first_over,
        second_over,
        mut covered,
    } = before;
    cover(config, parties, first, &mut covered)?;
    cover(config, parties, second, &mut covered)?;
    cover_from(config, parties, joiners, count, &mut covered)?;
    cover_changed(config, joiners, first, first_over, &mut covered)?;
    cover_changed(config, joiners, second, second_over, &mut covered)?;
    Ok(covered)
}

fn is_advance(label: &Label) -> bool
    ensures { result ≡ is_advance label.now }
{
    match label {
        Label::Local(_) => false,
        Label::Pair(_, _, _, _) => false,
        Label::Wake(_, _) => false,
        Label::Join(_) => false,
        Label::Advance => true,
    }
}

/// The numbers of all instances.
#[tactic(auto, using(crate::proofs::Mending::renewing))]
fn everyone(alloc: Global, count: usize) -> Result<Vec<u32>, NoMemory>
    requires { count ≤ MOST_INSTANCES }
    ensures { IfOk result (λ all. (p : ℕ) → p < count → Contains all.items p) }
{
    let mut all = Vec::new(alloc);
    for pid in 0..count as u32 {
        all.push(pid)?;
    }
    Ok(all)
}

/// All those that may have got or lost an option by the step of a label.
fn unsettled(
    alloc: Global,
    config: &Configuration<'_>,
    parties: &Parties,
    joiners: &ListedAt,
    label: &Label,
    before: Before,
) -> Result<Vec<u32>, NoMemory>
    ensures { IfOk result (λ some. (old : Config) → Leads label.now old config.now → IsListed old parties.now joiners.now → IsBefore parties.now label.now old.instances before
        → Settles old config.now some.items) }
{
    if is_advance(label) {
        Ok(everyone(alloc, config.instances().len())?)
    } else {
        Ok(affected(config, parties, joiners, before)?)
    }
}

/// A configuration to which a label has led, with what was kept beside the one before.
pub fn mended<'a>(
    alloc: Global,
    configuration: Configuration<'a>,
    kept: Kept,
    label: &Label,
    before: Before,
) -> Result<Watched<'a>, NoMemory>
    requires { Led label.now configuration kept before }
    ensures { IfOk result (λ w. w ≡ configuration.entry) }
{
    let Kept {
        mut marks,
        mut parties,
        mut joiners,
    } = kept;
    let (first, second) = named(label);
    let count = before.count;
    let some = unsettled(alloc, &configuration, &parties, &joiners, label, before)?;
    relist(&configuration, &mut parties, &mut joiners, first)?;
    relist(&configuration, &mut parties, &mut joiners, second)?;
    relist_from(&configuration, &mut parties, &mut joiners, count)?;
    marks.reserve(configuration.instances().len() as u32)?;
    renew_all(&configuration, &parties, &mut marks, some.as_slice());
    let kept = Kept {
        marks,
        parties,
        joiners,
    };
    Ok(Watched {
        configuration,
        kept,
    })
}

/// A configuration, with what is kept beside it.
#[tactic(auto, using(crate::proofs::Mending::renewing))]
pub fn watch<'a>(alloc: Global, configuration: Configuration<'a>) -> Result<Watched<'a>, NoMemory>
    ensures { IfOk result (λ w. w ≡ configuration.entry) }
{
    let mut marks = Ranks::new(alloc);
    let mut parties = Parties::new(alloc)?;
    let mut joiners = ListedAt::new(alloc)?;
    let count = configuration.instances().len();
    relist_from(&configuration, &mut parties, &mut joiners, 0)?;
    marks.reserve(count as u32)?;
    let all = everyone(alloc, count)?;
    renew_all(&configuration, &parties, &mut marks, all.as_slice());
    let kept = Kept {
        marks,
        parties,
        joiners,
    };
    Ok(Watched {
        configuration,
        kept,
    })
}
