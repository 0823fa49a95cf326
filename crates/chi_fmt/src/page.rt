ghost use Rattle.std.specs.Prelude.{◌≡◌, ◌+◌, ◌++◌, ◌<◌, ◌≤◌, Err, IfOk, OnOk, length, nat_lt};
ghost use Rattle.std.specs.List.{flat_map, prefix_len};
ghost use Rattle.chi_token.specs.Spelling.{canonical_spelling};
ghost use Rattle.chi_fmt.specs.Pages.{kept_tokens, line_with, lines_text, source_tokens};
ghost use Rattle.chi_fmt.specs.Rows.{comment_text, empty_line, gap, line_text, semicolon_text, spaces, text_of};
ghost use Rattle.chi_fmt.specs.declared.fault.FmtFault.TheVariants.{TooLong};

use crate::comment::Comment;
use crate::fault::FmtFault;
use crate::line::Line;
use crate::space::is_joined;
use crate::spot::Spot;
use chi_base::NoMemory;
use chi_lex::MOST_BYTES;
use chi_token::{Sign, Token, quoted};
use std::alloc::Global;

/// The text so far.
#[derive(Drop)]
pub struct Page {
    pub alloc: Global,
    pub bytes: Vec<u8>,
}

impl Page {
    fn put(&mut self, bytes: &[u8]) -> Result<(), FmtFault>
        requires { length self.old.bytes.items ≤ MOST_BYTES }
        ensures added { OnOk result (self.new.bytes.items ≡ self.old.bytes.items ++ bytes.now) }
        ensures within { OnOk result (length self.new.bytes.items ≤ MOST_BYTES) }
        ensures too_long { result ≡ Err TooLong → MOST_BYTES < length (self.old.bytes.items ++ bytes.now) }
    {
        if MOST_BYTES - self.bytes.len() < bytes.len() {
            return Err(FmtFault::TooLong);
        }
        match self.bytes.extend_from_slice(bytes) {
            Ok(()) => Ok(()),
            Err(_) => Err(FmtFault::NoMemory),
        }
    }

    fn spaces(&mut self, count: u32) -> Result<(), FmtFault>
        requires { length self.old.bytes.items ≤ MOST_BYTES }
        ensures added { OnOk result (self.new.bytes.items ≡ self.old.bytes.items ++ spaces count) }
        ensures within { OnOk result (length self.new.bytes.items ≤ MOST_BYTES) }
        ensures too_long { result ≡ Err TooLong → MOST_BYTES < length (self.old.bytes.items ++ spaces count) }
    {
        let (passed, count) = (self.bytes.len(), count as usize);
        if MOST_BYTES - passed < count {
            return Err(FmtFault::TooLong);
        }
        match self.bytes.resize(passed + count, b' ') {
            Ok(()) => Ok(()),
            Err(_) => Err(FmtFault::NoMemory),
        }
    }

    fn token(&mut self, token: &Token) -> Result<(), FmtFault>
        requires { length self.old.bytes.items ≤ MOST_BYTES }
        ensures added { OnOk result (self.new.bytes.items ≡ self.old.bytes.items ++ canonical_spelling token.now) }
        ensures within { OnOk result (length self.new.bytes.items ≤ MOST_BYTES) }
        ensures too_long { result ≡ Err TooLong → MOST_BYTES < length (self.old.bytes.items ++ canonical_spelling token.now) }
    {
        match token {
            Token::Word(keyword) => self.put(keyword.word().as_bytes()),
            Token::Name(bytes) | Token::Int(bytes) | Token::Real(bytes) => {
                self.put(bytes.as_slice())
            }
            Token::Text(bytes) => {
                let text = quoted(self.alloc, bytes.as_slice())?;
                self.put(text.as_slice())
            }
            Token::Sign(sign) => self.put(sign.mark().as_bytes()),
        }
    }

    /// What stands between two tokens of a line.
    fn gap(&mut self, first: &Spot, second: &Spot) -> Result<(), FmtFault>
        requires { length self.old.bytes.items ≤ MOST_BYTES }
        ensures added { OnOk result (self.new.bytes.items ≡ self.old.bytes.items ++ gap first.now second.now) }
        ensures within { OnOk result (length self.new.bytes.items ≤ MOST_BYTES) }
        ensures too_long { result ≡ Err TooLong → MOST_BYTES < length (self.old.bytes.items ++ gap first.now second.now) }
    {
        if is_joined(first, second) {
            return Ok(());
        }
        self.put(b" ")
    }

    #[tactic(auto, using(crate::proofs::Lengths::longer))]
    fn spots(&mut self, spots: &[Spot]) -> Result<(), FmtFault>
        requires { length self.old.bytes.items ≤ MOST_BYTES }
        ensures added { OnOk result (self.new.bytes.items ≡ self.old.bytes.items ++ text_of spots.now) }
        ensures within { OnOk result (length self.new.bytes.items ≤ MOST_BYTES) }
        ensures too_long { result ≡ Err TooLong → MOST_BYTES < length (self.old.bytes.items ++ text_of spots.now) }
    {
        let Some((first, more)) = spots.split_first() else {
            return Ok(());
        };
        self.token(&first.token)?;
        let mut last = first;
        for spot in more {
            self.gap(last, spot)?;
            self.token(&spot.token)?;
            last = spot;
        }
        Ok(())
    }

    fn semicolon(&mut self, kept: bool) -> Result<(), FmtFault>
        requires { length self.old.bytes.items ≤ MOST_BYTES }
        ensures added { OnOk result (self.new.bytes.items ≡ self.old.bytes.items ++ semicolon_text kept) }
        ensures within { OnOk result (length self.new.bytes.items ≤ MOST_BYTES) }
        ensures too_long { result ≡ Err TooLong → MOST_BYTES < length (self.old.bytes.items ++ semicolon_text kept) }
    {
        if kept {
            return self.put(Sign::Semicolon.mark().as_bytes());
        }
        Ok(())
    }

    #[tactic(auto, using(crate::proofs::Lengths::longer))]
    fn line(&mut self, line: &Line) -> Result<(), FmtFault>
        requires { length self.old.bytes.items ≤ MOST_BYTES }
        ensures added { OnOk result (self.new.bytes.items ≡ self.old.bytes.items ++ line_text line.now) }
        ensures within { OnOk result (length self.new.bytes.items ≤ MOST_BYTES) }
        ensures too_long { result ≡ Err TooLong → MOST_BYTES < length (self.old.bytes.items ++ line_text line.now) }
    {
        self.spaces(line.margin)?;
        self.spots(line.spots.as_slice())?;
        self.semicolon(line.semicolon.kept)?;
        self.put(b"\n")
    }

    fn empty_line(&mut self, stands: bool) -> Result<(), FmtFault>
        requires { length self.old.bytes.items ≤ MOST_BYTES }
        ensures added { OnOk result (self.new.bytes.items ≡ self.old.bytes.items ++ empty_line stands) }
        ensures within { OnOk result (length self.new.bytes.items ≤ MOST_BYTES) }
        ensures too_long { result ≡ Err TooLong → MOST_BYTES < length (self.old.bytes.items ++ empty_line stands) }
    {
        if stands {
            return self.put(b"\n");
        }
        Ok(())
    }

    /// A comment on a line of its own.
    #[tactic(auto, using(crate::proofs::Lengths::longer))]
    fn comment(&mut self, margin: u32, comment: &Comment) -> Result<(), FmtFault>
        requires { length self.old.bytes.items ≤ MOST_BYTES }
        ensures added { OnOk result (self.new.bytes.items ≡ self.old.bytes.items ++ comment_text margin comment.now) }
        ensures within { OnOk result (length self.new.bytes.items ≤ MOST_BYTES) }
        ensures too_long { result ≡ Err TooLong → MOST_BYTES < length (self.old.bytes.items ++ comment_text margin comment.now) }
    {
        self.spaces(margin)?;
        self.put(comment.text.as_slice())?;
        self.put(b"\n")
    }

    #[tactic(auto, using(crate::proofs::Lengths::longer))]
    fn comments(&mut self, margin: u32, comments: &[Comment]) -> Result<(), FmtFault>
        requires { length self.old.bytes.items ≤ MOST_BYTES }
        ensures added { OnOk result (self.new.bytes.items ≡ self.old.bytes.items ++ flat_map (comment_text margin) comments.now) }
        ensures within { OnOk result (length self.new.bytes.items ≤ MOST_BYTES) }
        ensures too_long { result ≡ Err TooLong → MOST_BYTES < length (self.old.bytes.items ++ flat_map (comment_text margin) comments.now) }
    {
        for comment in comments {
            self.comment(margin, comment)?;
        }
        Ok(())
    }

    /// A line, the comments that stand before it, and an empty line before these where one stands there.
    #[tactic(auto, using(crate::proofs::Lengths::longer))]
    fn line_with(&mut self, line: &Line, comments: &[Comment]) -> Result<(), FmtFault>
        requires { length self.old.bytes.items ≤ MOST_BYTES }
        ensures added { OnOk result (self.new.bytes.items ≡ self.old.bytes.items ++ line_with line.now comments.now) }
        ensures within { OnOk result (length self.new.bytes.items ≤ MOST_BYTES) }
        ensures too_long { result ≡ Err TooLong → MOST_BYTES < length (self.old.bytes.items ++ line_with line.now comments.now) }
    {
        self.empty_line(line.after_empty)?;
        self.comments(line.margin, comments)?;
        self.line(line)
    }

    /// Lines with the comments before them and after them.
    #[tactic(auto, using(crate::proofs::Lengths::longer))]
    pub fn lines(&mut self, lines: &[Line], comments: &[Comment]) -> Result<(), FmtFault>
        requires { length self.old.bytes.items ≤ MOST_BYTES }
        ensures added { OnOk result (self.new.bytes.items ≡ self.old.bytes.items ++ lines_text 0 lines.now comments.now) }
        ensures within { OnOk result (length self.new.bytes.items ≤ MOST_BYTES) }
        ensures too_long { result ≡ Err TooLong → MOST_BYTES < length (self.old.bytes.items ++ lines_text 0 lines.now comments.now) }
    {
        let mut passed = 0;
        let mut rest = comments;
        for line in lines {
            let stop = after_kept(passed, line)?;
            let count = comments_before(stop, rest);
            let (here, later) = rest.split_at(count);
            self.line_with(line, here)?;
            passed = after(passed, line)?;
            rest = later;
        }
        self.comments(0, rest)
    }
}

/// How many comments from the first on stand before the token with this index.
fn comments_before(stop: u64, comments: &[Comment]) -> usize
    ensures count { result ≡ prefix_len (λ comment. nat_lt comment.before stop) comments.now }
    ensures within { result ≤ length comments.now }
{
    comments
        .iter()
        .take_while(|comment| u64::from(comment.before) < stop)
        .count()
}

fn sum(first: u64, second: usize) -> Result<u64, NoMemory>
    ensures { IfOk result (λ total. total ≡ first + second) }
{
    first.checked_add(second as u64).ok_or(NoMemory)
}

/// How many tokens the source has up to the last one of a line that is kept, where it has so many before the line. That their
/// number is too large for memory is told as want of it.
fn after_kept(passed: u64, line: &Line) -> Result<u64, NoMemory>
    ensures { IfOk result (λ total. total ≡ passed + kept_tokens line.now) }
{
    let semicolon = line.semicolon.written && line.semicolon.kept;
    sum(
        sum(passed, line.spots.as_slice().len())?,
        semicolon as usize,
    )
}

/// The same up to the end of the line.
fn after(passed: u64, line: &Line) -> Result<u64, NoMemory>
    ensures { IfOk result (λ total. total ≡ passed + source_tokens line.now) }
{
    let semicolon = line.semicolon.written;
    sum(
        sum(passed, line.spots.as_slice().len())?,
        semicolon as usize,
    )
}
