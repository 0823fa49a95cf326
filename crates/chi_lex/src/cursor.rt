ghost use Rattle.std.specs.Prelude.{◌+◌, ◌^◌, ◌<◌, ◌≤◌, List, ℕ, ◌++◌, length};

use chi_token::Place;

/// The first line of a source, and the first column of a line.
const FIRST: u32 = 1;

/// How far the lexer has come in a source.
#[derive(Clone, Copy)]
pub struct Cursor {
    /// The number of bytes passed.
    pub offset: u32,
    /// The line of the next byte, from 1.
    pub line: u32,
    /// The column of the next byte, from 1.
    pub column: u32,
    ghost few_lines: { line ≤ offset + 1 },
    ghost short_line: { column ≤ offset + 1 },
}

impl Cursor {
    ghost use Rattle.std.specs.Prelude.{[], ◌∷◌, ◌≡◌};
    ghost use Rattle.chi_lex.specs.Cursors.{StandsAfter};

    /// At the first byte of a source.
    pub fn at_start() -> Cursor
        ensures { StandsAfter [] result }
    {
        Cursor {
            offset: 0,
            line: FIRST,
            column: FIRST,
        }
    }

    /// The place of the next byte.
    pub fn place(self) -> Place
        ensures line { result.line ≡ self.line }
        ensures column { result.column ≡ self.column }
    {
        Place {
            line: self.line,
            column: self.column,
        }
    }

    /// The cursor past one more byte.
    fn past_byte(self, byte: u8) -> Cursor
        requires { self.offset + 2 < 2 ^ 32 }
        ensures offset { result.offset ≡ self.offset + 1 }
        ensures stands { (before : List ℕ) → StandsAfter before self → StandsAfter (before ++ byte ∷ []) result }
    {
        let offset = self.offset + 1;
        if byte == b'\n' {
            Cursor {
                offset,
                line: self.line + 1,
                column: FIRST,
            }
        } else {
            Cursor {
                offset,
                line: self.line,
                column: self.column + 1,
            }
        }
    }

    /// The cursor past these bytes.
    pub fn past(self, bytes: &[u8]) -> Cursor
        requires { self.offset + length bytes.now + 2 < 2 ^ 32 }
        ensures offset { result.offset ≡ self.offset + length bytes.now }
        ensures stands { (before : List ℕ) → StandsAfter before self → StandsAfter (before ++ bytes.now) result }
    {
        let mut cursor = self;
        for &byte in bytes {
            cursor = cursor.past_byte(byte);
        }
        cursor
    }
}
