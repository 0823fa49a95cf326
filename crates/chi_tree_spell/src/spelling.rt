ghost use Rattle.std.specs.Prelude.{◌≡◌, IfOk};
ghost use Rattle.chi_tree_spell.specs.Statements.{spelled};

use crate::speller::Speller;
use chi_base::NoMemory;
use chi_token::Token;
use chi_tree::Program;
use std::alloc::Global;

/// The tokens of a source.
pub fn spell(alloc: Global, tree: &Program) -> Result<Vec<Token>, NoMemory>
    ensures spelled { IfOk result (λ tokens. tokens.items ≡ spelled tree.now) }
{
    let mut speller = Speller {
        alloc,
        tokens: Vec::new(alloc),
    };
    speller.items(tree.items.as_slice())?;
    let Speller { tokens, .. } = speller;
    Ok(tokens)
}
