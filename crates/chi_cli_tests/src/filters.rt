//! Which events filters and probes show.

ghost use Rattle.std.specs.Prelude.{◌≡◌, IfOk};
ghost use Rattle.chi_trace.specs.Filters.{shows};

use chi_trace::{Detail, Event, EventKind, Filter, Probe, Sieve, admits, matches, read_line};
use std::alloc::{AllocError, Global};
use std::test::Fail;

/// Events of each kind, and a pair of which the channel isn't known.
const LINES: [&str; 7] = [
    "0 local 1 M 1",
    "1 pair 1 0 2 0 3 7",
    "2 pair 2 0 1 0 4 7",
    "3 pair 3 1 2 1 - -",
    "4 wake 1 3 M",
    "5 join 2 M",
    "6 advance 1.0",
];

/// Filters, each with the turns of the events that it shows.
const SHOWN: [(Filter, &[u64]); 12] = [
    (Filter::All, &[0, 1, 2, 3, 4, 5, 6]),
    (Filter::Instance(0), &[]),
    (Filter::Instance(1), &[0, 1, 2, 4]),
    (Filter::Instance(2), &[1, 2, 3, 5]),
    (Filter::Instance(3), &[3]),
    (Filter::Channel(3), &[1]),
    (Filter::Channel(7), &[]),
    (Filter::Kind(EventKind::Local), &[0]),
    (Filter::Kind(EventKind::Pair), &[1, 2, 3]),
    (Filter::Kind(EventKind::Wake), &[4]),
    (Filter::Kind(EventKind::Join), &[5]),
    (Filter::Kind(EventKind::Advance), &[6]),
];

#[test]
fn a_filter_shows_its_events(rt: HostRuntime) -> Result<(), Fail> {
    for (filter, turns) in SHOWN {
        for line in LINES {
            let event = read_line(rt.alloc(), line.as_bytes())?;
            let wanted = turns.contains(&event.turn);
            assert_eq!(rt; matches(&filter, &event), wanted, "{line}");
            let channel = channel_of(&event.detail);
            assert_eq!(rt; admits(&filter, event.label, channel), wanted, "{line}");
            assert_eq!(rt; filter.shown(&event), wanted, "{line}");
            assert_eq!(rt; probed(rt.alloc(), filter, &event)?, wanted, "{line}");
        }
    }
    Ok(())
}

/// The channel that a detail tells.
fn channel_of(detail: &Detail) -> Option<u32> {
    match detail {
        Detail::Sent(channel, _) => Some(*channel),
        Detail::Unknown | Detail::Bare | Detail::At(_, _) | Detail::Of(_) => None,
    }
}

/// What a probe tells of an event whose stored closure asks the filter.
fn probed(alloc: Global, filter: Filter, event: &Event) -> Result<bool, AllocError>
    ensures { IfOk result (λ shown. shown ≡ shows filter event.now) }
{
    let test = Box::new(
        alloc,
        move |event: &Event| -> bool
            ensures { result ≡ shows filter event.now }
        { matches(&filter, event) },
    )?;
    let probe = Probe::new(filter, test);
    Ok(probe.shown(event))
}
