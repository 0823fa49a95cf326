ghost use Rattle.std.specs.Prelude.{◌≡◌, IfOk};
ghost use Rattle.chi_tool.specs.Settings.{plain};

use crate::settings::ByPicks;
use chi_base::{Items, NoMemory};
use chi_cli::{Pick, STEPS};
use chi_cli_help::Topic;
use chi_terms::Terms;
use chi_token::Bytes;
use chi_trace::Filter;
use chi_xper_machines::ExperimentTerms;
use std::alloc::Global;

/// The most bytes of a second file.
pub const MOST_BESIDE: usize = 67_108_864;

/// What a run is asked for with, beside its program.
#[derive(Debug, Drop)]
pub struct Asked<P> {
    /// With what names the policy.
    pub terms: Terms<P, Filter>,
    /// Those of the model's arguments.
    pub texts: Items<Bytes>,
}

/// What a run is asked for with where the words say nothing of it.
pub fn unasked(alloc: Global) -> Result<Asked<Pick>, NoMemory>
    ensures { IfOk result (λ asked. asked ≡ plain) }
{
    Ok(Asked {
        terms: Terms {
            seed: 0,
            bound: STEPS,
            policy: Pick::First,
            until: None,
            trace: None,
        },
        texts: Items::of(alloc, Vec::new(alloc))?,
    })
}

/// What is done with a program.
#[derive(Debug, Drop)]
pub enum ProgramPurpose {
    Simulate(Asked<Pick>),
    Check,
    /// Its code is listed.
    ListCode,
    /// Its first experiment is run, on these terms.
    Experiment(ExperimentTerms),
}

/// What is done with a source.
#[derive(Debug, Drop)]
pub enum Purpose {
    /// Something is done with its program.
    OfProgram(ProgramPurpose),
    /// Its program is simulated, and what comes of that is told at length.
    Explain(Asked<Pick>),
    /// It is laid out, as it is written.
    LayOut,
}

/// A file that holds a source, and what is done with that.
#[derive(Debug, Drop)]
pub struct FileTask {
    pub file: Bytes,
    pub purpose: Purpose,
}

/// What is told of a text that is a log of a program.
#[derive(Clone, Copy, Debug)]
pub enum LogPurpose {
    /// That it is, and what its run wrote.
    Judge,
    /// The picks of its run.
    Picks,
}

/// What is done with a source and the text of a second file.
#[derive(Debug, Drop)]
pub enum PairPurpose {
    /// Its program is run by the picks of the text.
    Replay(Asked<ByPicks>),
    /// It is told whether the text is a log that its program can give, whatever the policy.
    OnLog(LogPurpose, Asked<ByPicks>),
}

/// Two files, and what is done with what they hold.
#[derive(Debug, Drop)]
pub struct Pair {
    /// It holds a source.
    pub file: Bytes,
    pub beside: Bytes,
    pub purpose: PairPurpose,
}

/// What is done, and with what.
#[derive(Debug, Drop)]
pub enum Task {
    /// With the source that a file holds.
    OfFile { file: Bytes, purpose: Purpose },
    /// With the source that a file holds, and the text of another.
    OfPair(Pair),
    /// The log that a file holds is brought up.
    OfLog { file: Bytes },
    /// A factory of this size is run.
    OfFactory { size: u32 },
    /// Help is told on a command, or on all.
    OfTopic { topic: Topic },
}
