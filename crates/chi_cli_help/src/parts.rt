//! Which parts the text of a topic has, in their order.

ghost use Rattle.std.specs.Prelude.{◌≡◌, map};
ghost use Rattle.chi_cli_help.specs.Help.{parts_of};

use crate::texts::*;
use crate::topic::Topic;

const OF_ALL_COMMANDS: [&str; 13] = [
    USAGE,
    SIM_LINE,
    EXPLAIN_LINE,
    XPER_LINE,
    CHECK_LINE,
    CODE_LINE,
    FMT_LINE,
    REPLAY_LINE,
    JUDGE_LINE,
    PICKS_LINE,
    LOAD_LINE,
    TRACE_UP_LINE,
    HELP_LINE,
];

const OF_SIM: [&str; 18] = [
    SIM,
    OPTIONS,
    SEED,
    STEPS,
    POLICY,
    SALT,
    UNTIL,
    TRACE,
    PROBE,
    STATUSES,
    RUN_ENDED,
    UNREAD,
    UNTYPED,
    UNFIT,
    NO_REQUEST,
    NO_FILE,
    FAILED,
    SIM_EXAMPLE,
];

const OF_EXPLAIN: [&str; 16] = [
    EXPLAIN,
    OPTIONS,
    SEED,
    STEPS,
    POLICY,
    SALT,
    UNTIL,
    STATUSES,
    RUN_ENDED,
    UNREAD,
    UNTYPED,
    UNFIT,
    NO_REQUEST,
    NO_FILE,
    FAILED,
    EXPLAIN_EXAMPLE,
];

const OF_XPER: [&str; 15] = [
    XPER,
    OPTIONS,
    SEED,
    STEPS,
    POLICY,
    SALT,
    STATUSES,
    XPER_ENDED,
    UNREAD,
    UNTYPED,
    NO_XPER,
    NO_REQUEST,
    NO_FILE,
    FAILED,
    XPER_EXAMPLE,
];

const OF_CHECK: [&str; 9] = [
    CHECK,
    STATUSES,
    ACCEPTED,
    UNREAD,
    UNTYPED,
    NO_REQUEST,
    NO_FILE,
    FAILED,
    CHECK_EXAMPLE,
];

const OF_CODE: [&str; 9] = [
    CODE,
    STATUSES,
    TOLD,
    UNREAD,
    UNTYPED,
    NO_REQUEST,
    NO_FILE,
    FAILED,
    CODE_EXAMPLE,
];

const OF_FMT: [&str; 9] = [
    FMT,
    STATUSES,
    TOLD,
    UNREAD,
    NO_LAYOUT,
    NO_REQUEST,
    NO_FILE,
    FAILED,
    FMT_EXAMPLE,
];

const OF_REPLAY: [&str; 16] = [
    REPLAY,
    OPTIONS,
    SEED,
    STEPS,
    UNTIL,
    TRACE,
    STATUSES,
    RUN_ENDED,
    UNREAD,
    UNTYPED,
    UNFIT,
    NO_PICKS,
    NO_REQUEST,
    NO_FILE,
    FAILED,
    REPLAY_EXAMPLE,
];

const OF_JUDGE: [&str; 15] = [
    JUDGE,
    OPTIONS,
    SEED,
    STEPS,
    UNTIL,
    STATUSES,
    JUDGED,
    UNREAD,
    UNTYPED,
    UNFIT,
    NO_LOG,
    NO_REQUEST,
    NO_FILE,
    FAILED,
    JUDGE_EXAMPLE,
];

const OF_PICKS: [&str; 15] = [
    PICKS,
    OPTIONS,
    SEED,
    STEPS,
    UNTIL,
    STATUSES,
    TOLD,
    UNREAD,
    UNTYPED,
    UNFIT,
    NO_LOG,
    NO_REQUEST,
    NO_FILE,
    FAILED,
    PICKS_EXAMPLE,
];

const OF_LOAD: [&str; 6] = [LOAD, STATUSES, RUN_ENDED, NO_REQUEST, FAILED, LOAD_EXAMPLE];

const OF_TRACE_UP: [&str; 8] = [
    TRACE_UP,
    STATUSES,
    TOLD,
    NO_TRACE,
    NO_REQUEST,
    NO_FILE,
    FAILED,
    TRACE_UP_EXAMPLE,
];

const OF_HELP: [&str; 6] = [HELP, STATUSES, TOLD, NO_REQUEST, FAILED, HELP_EXAMPLE];

/// The parts of the text of a topic, in their order.
pub fn parts_of(topic: Topic) -> &'static [&'static str]
    ensures { map (λ part. part.now) result.now ≡ parts_of topic }
{
    match topic {
        Topic::AllCommands => &OF_ALL_COMMANDS,
        Topic::Sim => &OF_SIM,
        Topic::Explain => &OF_EXPLAIN,
        Topic::Xper => &OF_XPER,
        Topic::Check => &OF_CHECK,
        Topic::Code => &OF_CODE,
        Topic::Fmt => &OF_FMT,
        Topic::Replay => &OF_REPLAY,
        Topic::Judge => &OF_JUDGE,
        Topic::Picks => &OF_PICKS,
        Topic::Load => &OF_LOAD,
        Topic::TraceUp => &OF_TRACE_UP,
        Topic::Help => &OF_HELP,
    }
}
