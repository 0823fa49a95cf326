ghost use Rattle.std.specs.Prelude.{◌≡◌};
ghost use Rattle.chi_cli.specs.Commands.{command_named, options_of, option_text, takes_value};

/// What the first word asks for.
#[derive(Clone, Copy, Debug)]
pub enum Command {
    Sim,
    Explain,
    Xper,
    Check,
    Code,
    Fmt,
    Load,
    Replay,
    Judge,
    Picks,
    TraceUp,
}

/// An option of a command.
#[derive(Clone, Copy, Debug)]
pub enum OptionName {
    Seed,
    Steps,
    Policy,
    Salt,
    Until,
    Probe,
    Trace,
}

const SIM_OPTIONS: [OptionName; 7] = [
    OptionName::Seed,
    OptionName::Steps,
    OptionName::Policy,
    OptionName::Salt,
    OptionName::Until,
    OptionName::Probe,
    OptionName::Trace,
];

const EXPLAIN_OPTIONS: [OptionName; 5] = [
    OptionName::Seed,
    OptionName::Steps,
    OptionName::Policy,
    OptionName::Salt,
    OptionName::Until,
];

const XPER_OPTIONS: [OptionName; 4] = [
    OptionName::Seed,
    OptionName::Steps,
    OptionName::Policy,
    OptionName::Salt,
];

const REPLAY_OPTIONS: [OptionName; 4] = [
    OptionName::Seed,
    OptionName::Steps,
    OptionName::Until,
    OptionName::Trace,
];

const JUDGE_OPTIONS: [OptionName; 3] = [OptionName::Seed, OptionName::Steps, OptionName::Until];

impl Command {
    /// The command that a word names.
    pub fn named(word: &[u8]) -> Option<Command>
        ensures { result ≡ command_named word.now }
    {
        if word == b"sim".as_slice() {
            Some(Command::Sim)
        } else if word == b"explain".as_slice() {
            Some(Command::Explain)
        } else if word == b"xper".as_slice() {
            Some(Command::Xper)
        } else if word == b"check".as_slice() {
            Some(Command::Check)
        } else if word == b"code".as_slice() {
            Some(Command::Code)
        } else if word == b"fmt".as_slice() {
            Some(Command::Fmt)
        } else if word == b"load".as_slice() {
            Some(Command::Load)
        } else if word == b"replay".as_slice() {
            Some(Command::Replay)
        } else if word == b"judge".as_slice() {
            Some(Command::Judge)
        } else if word == b"picks".as_slice() {
            Some(Command::Picks)
        } else if word == b"trace-up".as_slice() {
            Some(Command::TraceUp)
        } else {
            None
        }
    }

    /// The options that the command has.
    pub fn options(self) -> &'static [OptionName]
        ensures { result.now ≡ options_of self }
    {
        match self {
            Command::Sim => &SIM_OPTIONS,
            Command::Explain => &EXPLAIN_OPTIONS,
            Command::Xper => &XPER_OPTIONS,
            Command::Replay => &REPLAY_OPTIONS,
            Command::Judge | Command::Picks => &JUDGE_OPTIONS,
            Command::Check | Command::Code | Command::Fmt | Command::Load | Command::TraceUp => &[],
        }
    }
}

impl OptionName {
    /// The name of the option, without the hyphens.
    pub fn text<'a>(self) -> &'a str
        ensures { result.now ≡ option_text self }
    {
        match self {
            OptionName::Seed => "seed",
            OptionName::Steps => "steps",
            OptionName::Policy => "policy",
            OptionName::Salt => "salt",
            OptionName::Until => "until",
            OptionName::Probe => "probe",
            OptionName::Trace => "trace",
        }
    }

    pub fn takes_value(self) -> bool
        ensures { result ≡ takes_value self }
    {
        !matches!(self, OptionName::Trace)
    }
}
