//! The parts of which texts of help are put together, each of whole lines: a line of a command, the head of a command's own
//! text, lines of options and of statuses, and examples.

pub const USAGE: &str = "chi COMMAND [OPTIONS] FILE [ARGS..]\n\n";

pub const SIM_LINE: &str = "  sim       simulates the first model of a file\n";

pub const EXPLAIN_LINE: &str = "  explain   simulates it too, and says in words what is wrong\n";

pub const XPER_LINE: &str = "  xper      runs the first experiment of a file\n";

pub const CHECK_LINE: &str = "  check     says whether a file is a program\n";

pub const CODE_LINE: &str = "  code      lists the code of its program\n";

pub const FMT_LINE: &str = "  fmt       lays a file out\n";

pub const REPLAY_LINE: &str = "  replay    simulates by a list of picks\n";

pub const JUDGE_LINE: &str = "  judge     says whether a model can give a log\n";

pub const PICKS_LINE: &str = "  picks     tells the picks of such a log\n";

pub const LOAD_LINE: &str = "  load      simulates a factory of N machines\n";

pub const TRACE_UP_LINE: &str = "  trace-up  brings a log of version 1 up to version 2\n";

pub const HELP_LINE: &str = "  help      says this, or more of one command: chi help COMMAND\n";

pub const SIM: &str = "chi sim [OPTIONS] FILE [ARGS..]

Simulates the first model of FILE. ARGS are texts of its parameters, whose types are bool, int, real or string. What the
model writes goes to the output, and how it ended to the log.
";

pub const EXPLAIN: &str = "chi explain [OPTIONS] FILE [ARGS..]

Simulates the first model of FILE as `chi sim` does, with its output and status. The log says in words what is wrong, with
the line and the place.
";

pub const XPER: &str = "chi xper [OPTIONS] FILE

Runs the first experiment of FILE, which runs models of FILE one after another and reckons with the values of their exits.
The first run has the seed of the words, and each run after it the next one. The bound on steps holds for the experiment's
own statements, and for each run anew. What the runs and the experiment write goes to the output, in order, and how the
experiment ended to the log.
";

pub const CHECK: &str = "chi check FILE

Says `accepted` of a file that is a program, and of another the first thing that is wrong.
";

pub const CODE: &str = "chi code FILE

Writes the listing of the code of FILE's program. Nothing is run.
";

pub const FMT: &str = "chi fmt FILE

Writes FILE in its canonical layout, with its comments. The file itself stays as it is.
";

pub const REPLAY: &str = "chi replay [OPTIONS] FILE PICKS [ARGS..]

Simulates the first model of FILE by the numbers of PICKS, a line for each: two for each line of a trace, the place of the
instance and that of what it does, each from 0 among those that there are. The first is taken where a number isn't there.
";

pub const JUDGE: &str = "chi judge [OPTIONS] FILE LOG [ARGS..]

Says `yes` where LOG is one that the first model of FILE can give with its whole trace, and writes what its run wrote; or
tells the first wrong line.
";

pub const PICKS: &str = "chi picks [OPTIONS] FILE LOG [ARGS..]

Writes the numbers by which `chi replay` makes the run of LOG again; or tells the first wrong line.
";

pub const LOAD: &str = "chi load N

Simulates a factory of N machines, from 1 to 1,000, and reads no file.
";

pub const TRACE_UP: &str = "chi trace-up FILE

Writes what a log of a run with its trace in version 1 is in version 2, or tells its first line that doesn't fit.
";

pub const HELP: &str = "chi help [COMMAND]

Writes what a command does, with its options, its statuses and an example; without COMMAND what there is.
";

pub const OPTIONS: &str = "\nOptions:\n";

pub const SEED: &str = "  --seed N      the seed of the draws, below 2^64; 0 without it\n";

pub const STEPS: &str =
    "  --steps N     the bound on the costs of all steps, at most 10^15; 10,000,000 without it\n";

pub const POLICY: &str =
    "  --policy P    which choice is taken: first, last or spread; first without it\n";

pub const SALT: &str = "  --salt N      what spread spreads by, below 2^64; 0 without it\n";

pub const UNTIL: &str =
    "  --until T     the stopping time, a real without a minus; none without it\n";

pub const TRACE: &str =
    "  --trace       the log has a line for each label of the run; none without it\n";

pub const PROBE: &str =
    "  --probe W     which of these lines are shown: instance=N, channel=N or kind=K; all without it\n";

pub const STATUSES: &str = "\nStatuses:\n";

pub const TOLD: &str = "  0    what is asked for is written\n";

pub const JUDGED: &str = "  0    the log is one that the model can give\n";

pub const ACCEPTED: &str = "  0    the file is a program\n";

pub const RUN_ENDED: &str = "  0    the run has completed
  10   the model has exited
  11   deadlock: nothing can happen any more
  12   a fault has ended the run
  13   out of steps: the next one costs more than is left of the bound
  14   stopped at the stopping time
";

pub const XPER_ENDED: &str = "  0    the experiment has completed
  11   deadlock in a run: nothing can happen any more
  12   a fault has ended it, in a run or outside of one
  13   out of steps, in a run or outside of one
  15   a run had no value: it has completed, or has exited without one
";

pub const UNREAD: &str = "  20   a byte or a text of the file can't stand where it does
  21   its tokens are no program
";

pub const UNTYPED: &str = "  22   the program breaks a rule of typing\n";

pub const UNFIT: &str = "  23   the arguments don't fit the model's parameters\n";

pub const NO_TRACE: &str = "  24   a line of the log doesn't fit\n";

pub const NO_LOG: &str = "  25   the model can't give the log\n";

pub const NO_PICKS: &str = "  26   a line of the picks doesn't fit\n";

pub const NO_LAYOUT: &str = "  27   the layout has more than 1,048,576 bytes\n";

pub const NO_XPER: &str = "  28   the file has no experiment\n";

pub const NO_REQUEST: &str = "  3    the words are no request\n";

pub const NO_FILE: &str = "  4    a file can't be read\n";

pub const FAILED: &str = "  5    the output or the log can't be written
  6    memory is wanting
  7    the words can't be had
";

pub const SIM_EXAMPLE: &str = "\nExample:\n  chi sim --seed 7 models/line.chi\n";

pub const EXPLAIN_EXAMPLE: &str = "\nExample:\n  chi explain models/line.chi\n";

pub const XPER_EXAMPLE: &str = "\nExample:\n  chi xper --seed 7 models/staffing.chi\n";

pub const CHECK_EXAMPLE: &str = "\nExample:\n  chi check models/line.chi\n";

pub const CODE_EXAMPLE: &str = "\nExample:\n  chi code models/line.chi\n";

pub const FMT_EXAMPLE: &str = "\nExample:\n  chi fmt models/line.chi\n";

pub const REPLAY_EXAMPLE: &str = "\nExample:\n  chi replay models/line.chi picks.txt\n";

pub const JUDGE_EXAMPLE: &str = "\nExample:\n  chi judge models/line.chi line.log\n";

pub const PICKS_EXAMPLE: &str = "\nExample:\n  chi picks models/line.chi line.log\n";

pub const LOAD_EXAMPLE: &str = "\nExample:\n  chi load 3\n";

pub const TRACE_UP_EXAMPLE: &str = "\nExample:\n  chi trace-up old.log\n";

pub const HELP_EXAMPLE: &str = "\nExample:\n  chi help sim\n";
