ghost use Rattle.std.specs.Prelude.{◌≡◌, ◌≢◌, ◌≤◌, ◌^◌, [], ◌∷◌, true, false, pos, unsigned_abs, IfSome, MatchOption};
ghost use Rattle.chi_ops.specs.Progression.{comes_before, progression};
ghost use Rattle.chi_ops.specs.Walking.{rest_of, IsWalk};

use crate::progression::comes_before;

/// A walk along ints by equal steps, in 128 bits, so that no step leaves them.
#[derive(Clone, Copy)]
pub(crate) struct Walk {
    pub(crate) first: i128,
    pub(crate) next: i128,
    /// The walk ends before this one.
    pub(crate) last: i128,
    pub(crate) by: i128,
}

impl Walk {
    pub(crate) fn new(first: i128, last: i128, by: i128) -> Walk
        requires moves { by ≢ pos 0 }
        requires step { unsigned_abs by ≤ 2 ^ 64 }
        requires first { unsigned_abs first ≤ 2 ^ 64 }
        requires last { unsigned_abs last ≤ 2 ^ 64 }
        ensures fit { IsWalk result }
        ensures ints { rest_of result ≡ progression first last by }
        ensures first { result.first ≡ first }
        ensures last { result.last ≡ last }
    {
        Walk {
            first,
            next: first,
            last,
            by,
        }
    }

    /// The next int, unless the walk is at its end.
    pub(crate) fn step(&mut self) -> Option<i128>
        requires { IsWalk self.old }
        ensures fit { IsWalk self.new }
        ensures first { self.new.first ≡ self.old.first }
        ensures last { self.new.last ≡ self.old.last }
        ensures ints { MatchOption result (rest_of self.old ≡ []) (λ n. rest_of self.old ≡ n ∷ rest_of self.new) }
        ensures before { IfSome result (λ n. comes_before self.old.by n self.old.last ≡ true) }
        ensures after { IfSome result (λ n. comes_before self.old.by n self.old.first ≡ false) }
    {
        if comes_before(self.by, self.next, self.last) {
            let next = self.next;
            self.next = next + self.by;
            Some(next)
        } else {
            None
        }
    }
}
