ghost use Rattle.std.specs.Prelude.{◌≡◌};
ghost use Rattle.chi_tree.specs.Limits.{whole_room};

use chi_grammar::Room;

/// How deep blocks may nest.
pub const MOST_BLOCKS: u32 = 64;

/// How deep expressions and types may nest.
pub const MOST_EXPRESSIONS: u32 = 200;

/// The room for nesting in which a source stands.
pub fn whole_room() -> Room
    ensures whole { result ≡ whole_room }
{
    Room {
        blocks: MOST_BLOCKS,
        expressions: MOST_EXPRESSIONS,
    }
}
