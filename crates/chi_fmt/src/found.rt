ghost use Rattle.std.specs.Prelude.{◌≡◌, ◌==◌, ◌++◌, ◌≤◌, IfOk, OnOk, length};
ghost use Rattle.std.specs.List.{position_or_len};
ghost use Rattle.chi_lex.specs.Reading.{Reads};
ghost use Rattle.chi_fmt.specs.Comments.{comments_of, gap_comments, line_comment};

use crate::comment::Comment;
use chi_base::NoMemory;
use chi_lex::MOST_BYTES;
use chi_token::{Bytes, Spanned};
use std::alloc::Global;

/// The comments of a source, in order.
pub fn comments(alloc: Global, source: &[u8], tokens: &[Spanned]) -> Result<Vec<Comment>, NoMemory>
    requires few { length source.now ≤ MOST_BYTES }
    requires read { Reads source.now tokens.now }
    ensures { IfOk result (λ comments. comments.items ≡ comments_of source.now tokens.now) }
{
    let mut found = Found {
        alloc,
        comments: Vec::new(alloc),
    };
    let mut offset: usize = 0;
    let mut index: u32 = 0;
    for t in tokens {
        found.gap(index, &source[offset..t.start as usize])?;
        offset = t.stop as usize;
        index += 1;
    }
    found.gap(index, &source[offset..])?;
    let Found { comments, .. } = found;
    Ok(comments)
}

/// The comments so far.
#[derive(Drop)]
struct Found {
    alloc: Global,
    comments: Vec<Comment>,
}

impl Found {
    /// Those of what stands before a token.
    fn gap(&mut self, before: u32, gap: &[u8]) -> Result<(), NoMemory>
        ensures { OnOk result (self.new.comments.items ≡ self.old.comments.items ++ gap_comments before gap.now) }
    {
        let mut rest = gap;
        let mut stop = first_index(rest, b'\n');
        'lines: while stop < rest.len() {
            self.line(before, &rest[..stop])?;
            rest = &rest[stop + 1..];
            stop = first_index(rest, b'\n');
        }
        self.line(before, rest)
    }

    /// That of a line of it, from its first hash sign on.
    fn line(&mut self, before: u32, line: &[u8]) -> Result<(), NoMemory>
        ensures { OnOk result (self.new.comments.items ≡ self.old.comments.items ++ line_comment before line.now) }
    {
        let from = first_index(line, b'#');
        if from == line.len() {
            return Ok(());
        }
        let text = Bytes::copy_of(self.alloc, &line[from..])?;
        self.comments.push(Comment { before, text })?;
        Ok(())
    }
}

/// The index of the first of these bytes that is the given one, or their number.
fn first_index(bytes: &[u8], wanted: u8) -> usize
    ensures first { result ≡ position_or_len (λ byte. byte == wanted) bytes.now }
    ensures within { result ≤ length bytes.now }
{
    bytes.iter().take_while(|byte| **byte != wanted).count()
}
