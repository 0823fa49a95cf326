ghost use Rattle.std.specs.Prelude.{◌≡◌};

use chi_num::Real;

/// With what a program is run, beside its arguments.
#[derive(Debug, Drop)]
pub struct Terms<P, S> {
    /// Of its draws.
    pub seed: u64,
    /// On the costs of all its steps together.
    pub bound: u64,
    /// What picks among the labels that may come, or what names that.
    pub policy: P,
    /// The time at which it is stopped, where there is one.
    pub until: Option<Real>,
    /// What tells which events of its trace are logged, where that is wanted.
    pub trace: Option<S>,
}

impl<P, S> Terms<P, S> {
    /// The time at which it is stopped, in units of a real.
    pub fn units_of_until(&self) -> Option<i64>
        ensures { result ≡ self.now.until }
    {
        match self.until {
            Some(time) => Some(time.units()),
            None => None,
        }
    }
}

impl<P, S: Copy> Terms<P, S> {
    /// The same, with another policy, or with one in place of what names it.
    pub fn with<Q>(&self, policy: Q) -> Terms<Q, S>
        ensures { result ≡ record { seed = self.now.seed; bound = self.now.bound; policy = policy; until = self.now.until; trace = self.now.trace } }
    {
        Terms {
            seed: self.seed,
            bound: self.bound,
            policy,
            until: self.until,
            trace: self.trace,
        }
    }
}
