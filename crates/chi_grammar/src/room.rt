ghost use Rattle.std.specs.Prelude.{◌≡◌, MatchOption};
ghost use Rattle.chi_grammar.specs.Rooms.{IsInside, IsFull};

/// The two ways in which the parts of a text nest. Each is counted on its own.
#[derive(Clone, Copy, Debug, PartialEq, Eq)]
pub enum Nesting {
    Block,
    Expression,
}

/// How many levels of each nesting are still free.
#[derive(Clone, Copy, Debug, PartialEq, Eq)]
pub struct Room {
    pub blocks: u32,
    pub expressions: u32,
}

impl Room {
    /// The room one level further in, where a level is free.
    pub fn inside(self, nesting: Nesting) -> Option<Room>
        ensures { MatchOption result (IsFull nesting self) (λ inner. IsInside nesting self inner) }
    {
        match nesting {
            Nesting::Block => {
                let blocks = self.blocks.checked_sub(1)?;
                Some(Room {
                    blocks,
                    expressions: self.expressions,
                })
            }
            Nesting::Expression => {
                let expressions = self.expressions.checked_sub(1)?;
                Some(Room {
                    blocks: self.blocks,
                    expressions,
                })
            }
        }
    }
}
