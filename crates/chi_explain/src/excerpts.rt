ghost use Rattle.std.specs.Prelude.{◌≡◌, ◌≤◌, ◌++◌, List, ℕ, drop, length, map, slice_range, OnOk};
ghost use Rattle.std.specs.List.{before_first};
ghost use Rattle.chi_lex.specs.Places.{is_line_feed, place_of};
ghost use Rattle.chi_explain.specs.Excerpts.{below, caret_line, cut, excerpt, first_shown, from_place, front_shown, indentation, line_alone, line_at, numbered_line, shown, shown_line};

use chi_base::NoMemory;
use chi_token::Place;

/// The most bytes of a line that are shown.
pub const MOST_SHOWN: usize = 120;

/// How many of them stand before the place, where the line is longer and goes on far enough on both sides.
pub const MOST_BEFORE: usize = 60;

/// The line of a number, which is 1 or more, without its line feed: nothing where the source has no such line.
pub fn numbered_line(source: &[u8], number: u32) -> &[u8]
    ensures { result.now ≡ numbered_line source.now number }
{
    let before = number.saturating_sub(1) as usize;
    let mut lines = source.split(|byte| *byte == b'\n');
    match lines.nth(before) {
        Some(line) => line,
        None => &[],
    }
}

/// The line of a place, without its line feed.
fn line_at(source: &[u8], place: Place) -> &[u8]
    ensures { result.now ≡ line_at source.now place }
{
    numbered_line(source, place.line)
}

/// A byte as it is shown.
fn shown(byte: u8) -> u8
    ensures { result ≡ shown byte }
{
    if byte == b'\t' || (32 <= byte && byte <= 126) {
        byte
    } else {
        b'?'
    }
}

/// What stands below a byte before the caret.
fn below(byte: u8) -> u8
    ensures { result ≡ below byte }
{
    if byte == b'\t' { b'\t' } else { b' ' }
}

/// The index of the first byte of a line of so many that is shown, for the place of an index.
fn first_shown(size: usize, at: usize) -> usize
    ensures shown { result ≡ first_shown size at }
    ensures before { result ≤ at }
    ensures within { result ≤ size }
{
    at.saturating_sub(MOST_BEFORE)
        .min(size.saturating_sub(MOST_SHOWN))
}

/// The bytes from one index to before another, or to the end.
#[tactic(auto, using(std::proofs::lemmas::List::take_min, std::proofs::lemmas::List::drop_min))]
fn part(line: &[u8], first: usize, stop: usize) -> &[u8]
    ensures { result.now ≡ slice_range line.now first stop }
{
    let rest = line.split_at(first.min(line.len())).1;
    rest.split_at(stop.saturating_sub(first).min(rest.len())).0
}

/// The bytes from a place on, to the end of its line.
#[tactic(auto, using(std::proofs::lemmas::List::drop_min))]
pub fn from_place(source: &[u8], place: Place) -> &[u8]
    ensures { result.now ≡ from_place source.now place }
{
    let line = line_at(source, place);
    let at = place.column.saturating_sub(1) as usize;
    line.split_at(at.min(line.len())).1
}

/// Appends bytes as they are shown.
pub fn put_as_shown(bytes: &[u8], out: &mut Vec<u8>) -> Result<(), NoMemory>
    ensures { OnOk result (out.new.items ≡ out.old.items ++ map shown bytes.now) }
{
    for byte in bytes {
        out.push(shown(*byte))?;
    }
    Ok(())
}

/// Appends what stands below bytes.
fn put_below(bytes: &[u8], out: &mut Vec<u8>) -> Result<(), NoMemory>
    ensures { OnOk result (out.new.items ≡ out.old.items ++ map below bytes.now) }
{
    for byte in bytes {
        out.push(below(*byte))?;
    }
    Ok(())
}

/// Appends dots where bytes are left out.
fn put_cut(is_cut: bool, out: &mut Vec<u8>) -> Result<(), NoMemory>
    ensures { OnOk result (out.new.items ≡ out.old.items ++ cut is_cut) }
{
    if is_cut {
        out.extend_from_slice(b"..")?;
    }
    Ok(())
}

/// Appends the bytes of a line from one index to before another, with dots where it is cut.
fn put_shown(line: &[u8], first: usize, stop: usize, out: &mut Vec<u8>) -> Result<(), NoMemory>
    ensures { OnOk result (out.new.items ≡ out.old.items ++ shown_line line.now first stop) }
{
    put_cut(0 < first, out)?;
    put_as_shown(part(line, first, stop), out)?;
    put_cut(stop < line.len(), out)?;
    Ok(())
}

/// Appends a caret below the byte of an index, where the bytes from another on are shown.
fn put_caret(line: &[u8], first: usize, at: usize, out: &mut Vec<u8>) -> Result<(), NoMemory>
    ensures { OnOk result (out.new.items ≡ out.old.items ++ caret_line line.now first at) }
{
    if 0 < first {
        out.extend_from_slice(b"  ")?;
    }
    put_below(part(line, first, at), out)?;
    out.push(b'^')?;
    Ok(())
}

/// Appends the line on which a place stands, as it is shown, and a caret below the place.
#[tactic(auto)]
pub fn excerpt(source: &[u8], place: Place, out: &mut Vec<u8>) -> Result<(), NoMemory>
    ensures { OnOk result (out.new.items ≡ out.old.items ++ excerpt source.now place) }
{
    let line = line_at(source, place);
    let at = place.column.saturating_sub(1) as usize;
    let first = first_shown(line.len(), at);
    out.extend_from_slice(b"    ")?;
    put_shown(line, first, first + MOST_SHOWN, out)?;
    out.push(b'\n')?;
    out.extend_from_slice(b"    ")?;
    put_caret(line, first, at, out)?;
    out.push(b'\n')?;
    Ok(())
}

/// How many blanks a line begins with.
fn indentation(line: &[u8]) -> usize
    ensures blanks { result ≡ indentation line.now }
    ensures within { result ≤ length line.now }
{
    line.iter()
        .take_while(|byte| byte.is_ascii_whitespace())
        .count()
}

/// Appends the line of a number as it is shown for its first byte that is no blank, without a caret.
#[tactic(auto)]
pub fn line_alone(source: &[u8], number: u32, out: &mut Vec<u8>) -> Result<(), NoMemory>
    ensures { OnOk result (out.new.items ≡ out.old.items ++ line_alone source.now number) }
{
    let line = numbered_line(source, number);
    let first = first_shown(line.len(), indentation(line));
    out.extend_from_slice(b"    ")?;
    put_shown(line, first, first + MOST_SHOWN, out)?;
    out.push(b'\n')?;
    Ok(())
}

/// Appends a line as it is shown from its first byte on, within other words.
pub fn put_front(line: &[u8], out: &mut Vec<u8>) -> Result<(), NoMemory>
    ensures { OnOk result (out.new.items ≡ out.old.items ++ front_shown line.now) }
{
    put_shown(line, 0, MOST_SHOWN, out)
}

/// A law of every source: from the place of an offset on there stand on its line the bytes of the source from that offset
/// on, up to the line's end.
#[tactic(auto, using(crate::proofs::PlaceLemmas::from_place_of))]
pub fn place_law()
    ensures { (source : List ℕ) (offset : ℕ) → from_place source (place_of source offset) ≡ before_first is_line_feed (drop offset source) }
{}
