ghost use Rattle.std.specs.Prelude.{◌≡◌, ◌≤◌, ◌<◌, ◌^◌, ℕ, List, length, Err, IfOk};
ghost use Rattle.chi_grammar.specs.declared.fault.ParseFault.{ParseFault};
ghost use Rattle.chi_token.specs.declared.place.Spanned.{Spanned};
ghost use Rattle.chi_tree_laws.specs.Answers.{IsAnswer};
ghost use Rattle.chi_explain_syntax.specs.Syntax.{IsSyntaxExplanation};

use crate::fault::{depth_words, fault_words};
use crate::standing::place_at;
use chi_base::NoMemory;
use chi_explain::explained;
use chi_explain_expected::{block_depth_law, expected_law};
use chi_grammar::ParseFault;
use chi_lex::MOST_BYTES;
use chi_token::Spanned;
use std::alloc::Global;

/// The text that explains why the tokens of a source are no program.
pub fn explain_syntax(
    alloc: Global,
    file: &[u8],
    source: &[u8],
    tokens: &[Spanned],
    fault: ParseFault,
) -> Result<Vec<u8>, NoMemory>
    requires within { length source.now ≤ MOST_BYTES }
    requires short { length tokens.now < 2 ^ 32 }
    requires fault { IsAnswer tokens.now (Err fault) }
    ensures { IfOk result (λ text. IsSyntaxExplanation file.now source.now tokens.now fault text.items) }
{
    match fault {
        ParseFault::Syntax(at) => {
            let words = fault_words(alloc, source, tokens, at)?;
            explained(alloc, file, source, place_at(source, tokens, at), &words)
        }
        ParseFault::TooDeep(at) => {
            let words = depth_words(alloc, tokens, at)?;
            explained(alloc, file, source, place_at(source, tokens, at), &words)
        }
        ParseFault::NoMemory => Err(NoMemory),
    }
}

/// The tokens of a source that are no program have exactly one explanation.
pub fn syntax_explanation_law()
    ensures some { (file source : List ℕ) (tokens : List Spanned) (fault : ParseFault)
        → IsAnswer tokens (Err fault) → (text : List ℕ) × IsSyntaxExplanation file source tokens fault text }
    ensures one { (file source : List ℕ) (tokens : List Spanned) (fault : ParseFault) (text other : List ℕ)
        → IsSyntaxExplanation file source tokens fault text → IsSyntaxExplanation file source tokens fault other → text ≡ other }
{
    expected_law();
    block_depth_law();
}
