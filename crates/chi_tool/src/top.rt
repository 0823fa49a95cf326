ghost use Rattle.std.specs.Prelude.{◌≡◌, false, map};
ghost use Rattle.chi_tool.specs.Words.{NamesNoFile, wish_of};
ghost use Rattle.chi_tool.specs.Call.{sink_use, shelf_use};
ghost use Rattle.chi_tool.specs.Headline.{Headline, Causes, IsComplete};

use crate::deliver::deliver;
use crate::help::serve_help;
use crate::laws::{asked_runs_law, one_code_law, report_law};
use crate::logs::serve_log;
use crate::pairs::serve_pair;
use crate::serve::{serve, serve_factory};
use crate::status::{NO_MEMORY, NO_REQUEST};
use crate::task::{FileTask, Task};
use crate::words::{is_refusal, task_of};
use chi_cli::{numbers_are_in_range, read_words, values_are_of_parameters};
use chi_engine::Engine;
use chi_io::{Shelf, Sink};
use std::alloc::Global;

/// Does what the words ask for, and answers the status. `words` are those of the command line without
/// the program's name. What they ask to be simulated is run by the engine; what `explain` tells of where
/// it came to rest is of the run of the meaning.
pub fn chi<E: Engine, H: Shelf, O: Sink, L: Sink>(
    alloc: Global,
    words: &[&str],
    shelf: &mut H,
    out: &mut O,
    log: &mut L,
    engine: &mut E,
) -> u8
    requires out_goes { O.stopped out.old ≡ false }
    requires log_goes { L.stopped log.old ≡ false }

    // The status and every byte are those of the report of these words and files, with what comes of a run with this engine.
    ensures headline { Headline (E.outcome engine.old) (record {
      words = map (λ word. word.now) words.now;
      status = result;
      shelf = shelf_use H.files H.faults shelf.old shelf.new;
      out = sink_use O.taken O.faults O.stopped out.old out.new;
      log = sink_use L.taken L.faults L.stopped log.old log.new;
    }) }
    // Words that name no file leave the shelf as it was.
    ensures untouched { NamesNoFile (wish_of (map (λ word. word.now) words.now)) → shelf.new ≡ shelf.old }
    // Each status has its cause.
    ensures causes { Causes (E.outcome engine.old) (record {
      words = map (λ word. word.now) words.now;
      status = result;
      shelf = shelf_use H.files H.faults shelf.old shelf.new;
      out = sink_use O.taken O.faults O.stopped out.old out.new;
      log = sink_use L.taken L.faults L.stopped log.old log.new;
    }) }
    // A program that is asked for is run to its end.
    ensures complete { IsComplete (E.outcome engine.old) (record {
      words = map (λ word. word.now) words.now;
      status = result;
      shelf = shelf_use H.files H.faults shelf.old shelf.new;
      out = sink_use O.taken O.faults O.stopped out.old out.new;
      log = sink_use L.taken L.faults L.stopped log.old log.new;
    }) }
{
    report_law(engine);
    asked_runs_law(engine);
    one_code_law();
    numbers_are_in_range();
    values_are_of_parameters();
    match read_words(alloc, words) {
        Ok(request) => match task_of(request) {
            Task::OfFile { file, purpose } => {
                let asked = FileTask { file, purpose };
                serve(alloc, &asked, shelf, out, log, engine)
            }
            Task::OfPair(pair) => serve_pair(alloc, &pair, shelf, out, log),
            Task::OfLog { file } => serve_log(alloc, file.as_slice(), shelf, out, log),
            Task::OfFactory { size } => serve_factory(alloc, size, out, log, engine),
            Task::OfTopic { topic } => serve_help(alloc, topic, out, log),
        },
        Err(fault) => {
            if !is_refusal(fault) {
                return NO_MEMORY;
            }
            let usage = b"usage: chi COMMAND [OPTIONS] FILE [ARGS]\n";
            deliver(NO_REQUEST, out, b"", log, usage)
        }
    }
}
