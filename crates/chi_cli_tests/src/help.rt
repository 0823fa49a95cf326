use chi_cli_help::{Topic, help_text};
use std::test::Fail;

#[test]
fn help_tells_of_a_command(rt: HostRuntime) -> Result<(), Fail> {
    let text = help_text(rt.alloc(), Topic::Load)?;
    let shown = std::str::from_utf8(text.as_slice()).unwrap_or("no text");
    assert_eq!(rt;
        shown,
        "chi load N

Simulates a factory of N machines, from 1 to 1,000, and reads no file.

Statuses:
  0    the run has completed
  10   the model has exited
  11   deadlock: nothing can happen any more
  12   a fault has ended the run
  13   out of steps: the next one costs more than is left of the bound
  14   stopped at the stopping time
  3    the words are no request
  5    the output or the log can't be written
  6    memory is wanting
  7    the words can't be had

Example:
  chi load 3
"
    );
    Ok(())
}

#[test]
fn a_word_names_a_command(rt: HostRuntime) -> Result<(), Fail> {
    assert_eq!(rt; Topic::named(b"trace-up"), Some(Topic::TraceUp));
    assert_eq!(rt; Topic::named(b"xper"), Some(Topic::Xper));
    assert_eq!(rt; Topic::named(b"helps"), None);
    Ok(())
}
