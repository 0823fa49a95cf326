ghost use Rattle.std.specs.Prelude.{◌≡◌};
ghost use Rattle.std.specs.List.{list_all};
ghost use Rattle.chi_token.specs.Characters.{is_name_start, is_name_byte};
ghost use Rattle.chi_trace.specs.Told.{is_name};

use chi_token::Keyword;

/// Whether the bytes are a name of the language, and no keyword.
#[tactic(auto, unfolding(crate::specs::Told::is_name))]
pub fn is_name(bytes: &[u8]) -> bool
    ensures tells { result ≡ is_name bytes.now }
{
    match bytes.split_first() {
        Some((first, rest)) => {
            is_name_start(*first) && goes_on(rest) && Keyword::of(bytes).is_none()
        }
        None => false,
    }
}

fn goes_on(rest: &[u8]) -> bool
    ensures { result ≡ list_all is_name_byte rest.now }
{
    rest.iter().all(|byte| is_name_byte(*byte))
}

fn is_name_start(byte: u8) -> bool
    ensures { result ≡ is_name_start byte }
{
    byte.is_ascii_alphabetic() || byte == b'_'
}

fn is_name_byte(byte: u8) -> bool
    ensures { result ≡ is_name_byte byte }
{
    is_name_start(byte) || byte.is_ascii_digit()
}
