ghost use Rattle.std.specs.Prelude.{◌≡◌, ◌≤◌, length, slice_get};
ghost use Rattle.chi_core.specs.declared.limits.TheConstants.{MOST_INSTANCES};
ghost use Rattle.chi_core.specs.Meeting.{is_over, next_due};

use chi_plain_open::{Instance, least_due, sooner};
use chi_value::Value;
use std::marker::Model;

/// Where a run stands between two steps.
#[derive(Debug, Drop)]
pub struct Configuration<'a> {
    /// In units of a real.
    pub(crate) clock: i64,
    /// How many draws were taken from each stream.
    pub(crate) draws: [u64; 64],
    /// How many channels there are.
    pub(crate) channels: u32,
    pub(crate) instances: Vec<Instance<'a>>,
    /// Whether each instance has finished.
    pub(crate) finished: Vec<bool>,
    pub(crate) seed: u64,
    /// The stopping time, in units of a real.
    pub(crate) until: Option<i64>,
    pub(crate) constants: Vec<Value>,
}

impl<'a> Model for Configuration<'a> {
    ghost use Rattle.std.specs.Coded.{codes};
    ghost use Rattle.chi_core.specs.contracts.statement.CStat as statements;
    ghost use Rattle.chi_core.specs.contracts.expression.CExpr as expressions;
    ghost use Rattle.chi_core.specs.contracts.element.CElem as elements;
    ghost use Rattle.chi_value.specs.contracts.value.Value as values;
    ghost use Rattle.chi_core.specs.Config.{Config};

    ghost Value = { Config };

    ghost coded = { Prim.hlevel (codes, statements.the_row.coded, expressions.the_row.coded, elements.the_row.coded, values.the_row.coded) };

    ghost use Rattle.chi_plain_steps.specs.Configurations.{config_at, IsKept};

    ghost view = { λ c. config_at c.clock c.draws c.channels c.instances.items c.seed c.until c.constants.items };

    ghost invariant = { λ c. IsKept c.instances.items c.finished.items };
}

impl<'a> Configuration<'a> {
    /// The time, in units of a real.
    pub fn clock(&self) -> i64
        ensures { result ≡ self.now.clock }
    {
        self.clock
    }

    /// The stopping time, in units of a real, where there is one.
    pub fn until(&self) -> Option<i64>
        ensures { result ≡ self.now.until }
    {
        self.until
    }

    /// The instances by their numbers.
    pub fn instances(&self) -> &[Instance<'a>]
        ensures instances { result.now ≡ self.now.instances }
        ensures few { length self.now.instances ≤ MOST_INSTANCES }
    {
        self.instances.as_slice()
    }

    /// Whether there is an instance of this number that has finished.
    pub fn is_over(&self, pid: u32) -> bool
        ensures { result ≡ is_over (slice_get self.now.instances pid) }
    {
        match self.finished.get(pid as usize) {
            Some(finished) => *finished,
            None => false,
        }
    }

    /// The least due time of all offers.
    #[tactic(auto, using(chi_plain_open::proofs::Times::steps))]
    pub fn least_due(&self) -> Option<i64>
        ensures { result ≡ next_due self.now }
    {
        let mut least = None;
        for instance in &self.instances {
            least = sooner(least, least_due(instance.offers()));
        }
        least
    }
}
