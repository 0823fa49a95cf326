ghost use Rattle.std.specs.Prelude.{◌≡◌};
ghost use Rattle.chi_tool.specs.Words.{is_refusal, task_of, unpicked};

use crate::settings::{ByPicks, trace_by};
use crate::task::{Asked, LogPurpose, Pair, PairPurpose, ProgramPurpose, Purpose, Task};
use chi_base::Items;
use chi_cli::{CliFault, Request};
use chi_num::Real;
use chi_terms::Terms;
use chi_token::Bytes;
use chi_trace::Filter;
use chi_xper_machines::ExperimentTerms;

/// What a request wants to be done.
pub fn task_of(request: Request) -> Task
    ensures { result ≡ task_of request }
{
    match request {
        Request::Sim {
            file,
            args,
            seed,
            bound,
            until,
            pick,
            trace,
            probe,
        } => {
            let terms = Terms {
                seed,
                bound,
                policy: pick,
                until,
                trace: trace_by(trace, probe),
            };
            let asked = Asked { terms, texts: args };
            Task::OfFile {
                file,
                purpose: Purpose::OfProgram(ProgramPurpose::Simulate(asked)),
            }
        }
        Request::Explain {
            file,
            args,
            seed,
            bound,
            until,
            pick,
        } => {
            let terms = Terms {
                seed,
                bound,
                policy: pick,
                until,
                trace: None,
            };
            Task::OfFile {
                file,
                purpose: Purpose::Explain(Asked { terms, texts: args }),
            }
        }
        Request::Xper {
            file,
            seed,
            bound,
            pick,
        } => {
            let terms = ExperimentTerms { seed, bound, pick };
            Task::OfFile {
                file,
                purpose: Purpose::OfProgram(ProgramPurpose::Experiment(terms)),
            }
        }
        Request::Check { file } => Task::OfFile {
            file,
            purpose: Purpose::OfProgram(ProgramPurpose::Check),
        },
        Request::Code { file } => Task::OfFile {
            file,
            purpose: Purpose::OfProgram(ProgramPurpose::ListCode),
        },
        Request::Fmt { file } => Task::OfFile {
            file,
            purpose: Purpose::LayOut,
        },
        Request::Load { n } => Task::OfFactory { size: n },
        Request::Replay {
            file,
            picks,
            args,
            seed,
            bound,
            until,
            trace,
        } => {
            let trace = trace_by(trace, Filter::All);
            Task::OfPair(Pair {
                file,
                beside: picks,
                purpose: PairPurpose::Replay(unpicked(args, seed, bound, until, trace)),
            })
        }
        Request::Judge {
            file,
            trace,
            args,
            seed,
            bound,
            until,
        } => Task::OfPair(Pair {
            file,
            beside: trace,
            purpose: PairPurpose::OnLog(
                LogPurpose::Judge,
                unpicked(args, seed, bound, until, None),
            ),
        }),
        Request::Picks {
            file,
            trace,
            args,
            seed,
            bound,
            until,
        } => Task::OfPair(Pair {
            file,
            beside: trace,
            purpose: PairPurpose::OnLog(
                LogPurpose::Picks,
                unpicked(args, seed, bound, until, None),
            ),
        }),
        Request::TraceUp { file } => Task::OfLog { file },
        Request::Help { topic } => Task::OfTopic { topic },
    }
}

/// What a program is asked for with where its picks come from the second file.
fn unpicked(
    texts: Items<Bytes>,
    seed: u64,
    bound: u64,
    until: Option<Real>,
    trace: Option<Filter>,
) -> Asked<ByPicks>
    ensures { result ≡ unpicked texts seed bound until trace }
{
    let terms = Terms {
        seed,
        bound,
        policy: ByPicks,
        until,
        trace,
    };
    Asked { terms, texts }
}

/// Whether words are refused, where there was memory to read them.
pub fn is_refusal(fault: CliFault) -> bool
    ensures { result ≡ is_refusal fault }
{
    match fault {
        CliFault::Usage | CliFault::Command | CliFault::BadNumber => true,
        CliFault::NoMemory => false,
    }
}
