ghost use Rattle.std.specs.Prelude.{◌≡◌, IfSome};

use chi_core::MOST_CALLS;

/// How many expressions deep an evaluation may go, each within the one before, those of the functions that it calls counted
/// with it. A level takes some 600 bytes of stack, and a call three times as much: so all of it stays below 8 MiB.
pub const MOST_LEVELS: u32 = 9_000;

/// Which calls of functions there may be.
#[derive(Clone, Copy, Debug)]
pub enum Calls {
    /// None, as in a constant.
    Never,
    /// So many within each other.
    Within(u32),
}

/// What an evaluation has below it. No contract says how deep it goes: past that memory is said to be wanting, before the
/// stack ends.
#[derive(Clone, Copy, Debug)]
pub struct Headroom {
    pub calls: Calls,
    /// How many expressions there may be yet, each within the one before.
    pub levels: u32,
}

/// That of an expression outside of all functions.
pub const OUTSIDE: Headroom = Headroom {
    calls: Calls::Within(MOST_CALLS as u32),
    levels: MOST_LEVELS,
};

/// That of a constant's expression.
pub const CONSTANT: Headroom = Headroom {
    calls: Calls::Never,
    levels: MOST_LEVELS,
};

impl Headroom {
    /// That of a body which is called here, with the calls that it may have.
    pub fn within(self, calls: Calls) -> Headroom
        ensures { result.calls ≡ calls }
    {
        let levels = self.levels;
        Headroom { calls, levels }
    }

    /// That of an expression within the one that is evaluated here, if there may be one.
    pub fn deeper(self) -> Option<Headroom>
        ensures { IfSome result (λ room. room.calls ≡ self.calls) }
    {
        if self.levels == 0 {
            return None;
        }
        let calls = self.calls;
        let levels = self.levels - 1;
        Some(Headroom { calls, levels })
    }
}
