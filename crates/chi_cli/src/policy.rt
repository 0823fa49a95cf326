ghost use Rattle.std.specs.Prelude.{◌≡◌, option_map};
ghost use Rattle.chi_cli.specs.Requests.{pick_of, policy_named, policy_or_first};

use crate::request::Pick;

/// The name of a policy.
#[derive(Clone, Copy, Debug)]
pub enum PolicyName {
    First,
    Last,
    Spread,
}

impl PolicyName {
    /// The policy that a word names.
    fn named(word: &[u8]) -> Option<PolicyName>
        ensures { result ≡ policy_named word.now }
    {
        if word == b"first".as_slice() {
            Some(PolicyName::First)
        } else if word == b"last".as_slice() {
            Some(PolicyName::Last)
        } else if word == b"spread".as_slice() {
            Some(PolicyName::Spread)
        } else {
            None
        }
    }

    /// The policy of an option's value, the first where it isn't given.
    pub fn asked(value: Option<&[u8]>) -> Option<PolicyName>
        ensures { result ≡ policy_or_first (option_map (λ name. name.now) value.entry) }
    {
        match value {
            Some(name) => PolicyName::named(name),
            None => Some(PolicyName::First),
        }
    }

    pub fn pick(self, salt: u64) -> Pick
        ensures { result ≡ pick_of self salt }
    {
        match self {
            PolicyName::First => Pick::First,
            PolicyName::Last => Pick::Last,
            PolicyName::Spread => Pick::Spread(salt),
        }
    }
}
