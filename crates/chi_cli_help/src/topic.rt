ghost use Rattle.std.specs.Prelude.{◌≡◌};
ghost use Rattle.chi_cli_help.specs.Topics.{topic_named};

/// What help is asked of: all commands, or one.
#[derive(Clone, Copy, Debug, PartialEq, Eq)]
pub enum Topic {
    AllCommands,
    Sim,
    Explain,
    Xper,
    Check,
    Code,
    Fmt,
    Replay,
    Judge,
    Picks,
    Load,
    TraceUp,
    Help,
}

impl Topic {
    /// The command that a word names.
    pub fn named(word: &[u8]) -> Option<Topic>
        ensures { result ≡ topic_named word.now }
    {
        if word == b"sim".as_slice() {
            Some(Topic::Sim)
        } else if word == b"explain".as_slice() {
            Some(Topic::Explain)
        } else if word == b"xper".as_slice() {
            Some(Topic::Xper)
        } else if word == b"check".as_slice() {
            Some(Topic::Check)
        } else if word == b"code".as_slice() {
            Some(Topic::Code)
        } else if word == b"fmt".as_slice() {
            Some(Topic::Fmt)
        } else if word == b"replay".as_slice() {
            Some(Topic::Replay)
        } else if word == b"judge".as_slice() {
            Some(Topic::Judge)
        } else if word == b"picks".as_slice() {
            Some(Topic::Picks)
        } else if word == b"load".as_slice() {
            Some(Topic::Load)
        } else if word == b"trace-up".as_slice() {
            Some(Topic::TraceUp)
        } else if word == b"help".as_slice() {
            Some(Topic::Help)
        } else {
            None
        }
    }
}
