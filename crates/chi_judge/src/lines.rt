//! The lines of a text.

ghost use Rattle.std.specs.Prelude.{◌≡◌, ◌++◌, MatchOption, None, Some};
ghost use Rattle.chi_log.specs.Allowed.{first_lines};

use chi_trace::next_line;

/// The first line of a text, with the line feed that ends it, and what stands after it.
#[tactic(auto, using(crate::proofs::Cuts::lines))]
pub fn first_line(text: &[u8]) -> Option<(&[u8], &[u8])>
    ensures { MatchOption result (first_lines 1 text.now ≡ None)
        (λ cut. (first_lines 1 text.now ≡ Some cut.0.now) × (text.now ≡ cut.0.now ++ cut.1.now)) }
{
    match next_line(text) {
        Some((line, _)) => Some(text.split_at(line.len() + 1)),
        None => None,
    }
}
