use chi_base::Items;
use chi_cli_help::Topic;
use chi_num::Real;
use chi_token::Bytes;
use chi_trace::Filter;

/// Which of the labels that may come a run takes.
#[derive(Clone, Copy, Debug)]
pub enum Pick {
    First,
    Last,
    /// One that this salt spreads.
    Spread(u64),
}

/// What the words of the command line ask for.
#[derive(Debug, Drop)]
pub enum Request {
    Sim {
        file: Bytes,
        /// The texts of the model's arguments.
        args: Items<Bytes>,
        seed: u64,
        /// On the costs of all steps together.
        bound: u64,
        /// The stopping time.
        until: Option<Real>,
        pick: Pick,
        /// Whether the trace is wanted.
        trace: bool,
        /// Which events of the trace are shown.
        probe: Filter,
    },
    /// To simulate, and to say in words how it ended, or what is wrong.
    Explain {
        file: Bytes,
        /// The texts of the model's arguments.
        args: Items<Bytes>,
        seed: u64,
        /// On the costs of all steps together.
        bound: u64,
        /// The stopping time.
        until: Option<Real>,
        pick: Pick,
    },
    /// To run the first experiment of a file.
    Xper {
        file: Bytes,
        /// Of the first run.
        seed: u64,
        /// On the costs of the experiment's own statements, and on those of each run.
        bound: u64,
        pick: Pick,
    },
    Check {
        file: Bytes,
    },
    /// To list the code of a program.
    Code {
        file: Bytes,
    },
    /// To write a source in the canonical layout.
    Fmt {
        file: Bytes,
    },
    Load {
        /// The size of the factory.
        n: u32,
    },
    /// To run a program by the picks that another file has.
    Replay {
        file: Bytes,
        picks: Bytes,
        /// The texts of the model's arguments.
        args: Items<Bytes>,
        seed: u64,
        /// On the costs of all steps together.
        bound: u64,
        /// The stopping time.
        until: Option<Real>,
        /// Whether the trace is wanted.
        trace: bool,
    },
    /// To judge whether a log is one that a program can give.
    Judge {
        file: Bytes,
        /// The name of the log's file.
        trace: Bytes,
        /// The texts of the model's arguments.
        args: Items<Bytes>,
        seed: u64,
        /// On the costs of all steps together.
        bound: u64,
        /// The stopping time.
        until: Option<Real>,
    },
    /// To write the picks by which the run of a log is made.
    Picks {
        file: Bytes,
        /// The name of the log's file.
        trace: Bytes,
        /// The texts of the model's arguments.
        args: Items<Bytes>,
        seed: u64,
        /// On the costs of all steps together.
        bound: u64,
        /// The stopping time.
        until: Option<Real>,
    },
    /// To bring a log of traces in version 1 to version 2.
    TraceUp {
        file: Bytes,
    },
    /// To say what there is to ask for, or more of one command.
    Help {
        topic: Topic,
    },
}
