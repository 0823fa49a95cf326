ghost use Rattle.std.specs.Prelude.{◌^◌, ◌<◌, ◌≤◌, length};
ghost use Rattle.chi_grammar.specs.declared.room.Room.{Room};
ghost use Rattle.chi_grammar.specs.Rules.{maybe};
ghost use Rattle.chi_grammar.specs.Reads.{ReadsTree};
ghost use Rattle.chi_tree.specs.Rules.{grammar, sign};
ghost use Rattle.chi_tree.specs.Tables.{table};
ghost use Rattle.chi_token.specs.declared.sign.Sign.TheVariants.{Semicolon};
ghost use Rattle.chi_parse.specs.Heads.{is_there};

use chi_parse_look::take;
use chi_token::{Sign, Spanned};
use chi_tree::Class;

/// Whether a `;` stands here, with the index after it.
pub fn optional_semicolon(tokens: &[Spanned], at: u32) -> (bool, u32)
    requires short { length tokens.now < 2 ^ 32 }
    requires inside { at ≤ length tokens.now }
    ensures { (room : Room) → ReadsTree grammar table tokens.now is_there room (maybe (sign Semicolon)) at result.0 result.1 }
{
    match take(tokens, at, Class::Sign(Sign::Semicolon)) {
        Ok((_, end)) => (true, end),
        Err(_) => (false, at),
    }
}
