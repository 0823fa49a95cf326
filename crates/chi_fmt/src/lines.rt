ghost use Rattle.std.specs.Prelude.{◌≡◌, ◌∷◌, [], ◌++◌, IfOk, OnOk};
ghost use Rattle.chi_fmt.specs.Definitions.{first_line};
ghost use Rattle.chi_fmt.specs.Lines.{end_line, header, inside, line};
ghost use Rattle.chi_fmt.specs.Parts.{word};

use crate::draft::Draft;
use crate::line::{Line, Semicolon};
use chi_base::{Items, NoMemory};
use chi_token::{Keyword, Sign};
use std::alloc::Global;

/// What a line has at its end where no statement or definition ends.
pub const NO_SEMICOLON: Semicolon = Semicolon {
    written: false,
    kept: false,
};

/// The lines so far.
#[derive(Drop)]
pub struct Lines {
    pub alloc: Global,
    pub lines: Vec<Line>,
}

impl Lines {
    /// A line with no token yet.
    pub fn draft(&self) -> Draft
        ensures { result.spots.items ≡ [] }
    {
        Draft {
            alloc: self.alloc,
            spots: Vec::new(self.alloc),
        }
    }

    /// A line that begins with a word.
    pub fn begun_with(&self, keyword: Keyword) -> Result<Draft, NoMemory>
        ensures { IfOk result (λ draft. draft.spots.items ≡ word keyword ∷ []) }
    {
        let mut draft = self.draft();
        draft.word(keyword)?;
        Ok(draft)
    }

    pub fn put(&mut self, margin: u32, draft: Draft, semicolon: Semicolon) -> Result<(), NoMemory>
        ensures { OnOk result (self.new.lines.items ≡ self.old.lines.items ++ line margin draft.spots.items semicolon ∷ []) }
    {
        let Draft { alloc, spots } = draft;
        let spots = Items::of(alloc, spots)?;
        self.lines.push(Line {
            after_empty: false,
            margin,
            spots,
            semicolon,
        })?;
        Ok(())
    }

    /// The first line of a definition, maybe after an empty line.
    pub fn put_first(
        &mut self,
        after_empty: bool,
        draft: Draft,
        semicolon: Semicolon,
    ) -> Result<(), NoMemory>
        ensures { OnOk result (self.new.lines.items ≡
            self.old.lines.items ++ first_line after_empty draft.spots.items semicolon ∷ []) }
    {
        let Draft { alloc, spots } = draft;
        let spots = Items::of(alloc, spots)?;
        self.lines.push(Line {
            after_empty,
            margin: 0,
            spots,
            semicolon,
        })?;
        Ok(())
    }

    /// A line to which a colon is added.
    pub fn header(&mut self, margin: u32, draft: Draft) -> Result<(), NoMemory>
        ensures { OnOk result (self.new.lines.items ≡ self.old.lines.items ++ header margin draft.spots.items ∷ []) }
    {
        let mut draft = draft;
        draft.sign(Sign::Colon)?;
        self.put(margin, draft, NO_SEMICOLON)
    }

    pub fn end(&mut self, margin: u32, semicolon: Semicolon) -> Result<(), NoMemory>
        ensures { OnOk result (self.new.lines.items ≡ self.old.lines.items ++ end_line margin semicolon ∷ []) }
    {
        let draft = self.begun_with(Keyword::EndWord)?;
        self.put(margin, draft, semicolon)
    }
}

/// The margin of a block. Blocks nest at most 64 deep, so that there always is one; where there were none it would be told as
/// want of memory.
pub fn inside(margin: u32) -> Result<u32, NoMemory>
    ensures { IfOk result (λ inner. inner ≡ inside margin) }
{
    margin.checked_add(2).ok_or(NoMemory)
}
