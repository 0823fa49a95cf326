ghost use Rattle.std.specs.Prelude.{◌≡◌, ◌<◌, ◌≤◌, false, length, None};

use chi_io::{
    DiskShelf, Fetch, MemShelf, MemSink, MuteShelf, MuteSink, Put, Shelf, Sink, SinkFailed,
    StdSink, put_all,
};
use std::io;
use std::io::{ErrorKind, Write};
use std::test::Fail;

#[test]
fn fetches_from_memory(rt: HostRuntime) -> Result<(), Fail> {
    let alloc = rt.alloc();
    let files = vec![in alloc; (b"name".to_vec(alloc)?, b"text".to_vec(alloc)?)]?;
    let mut shelf = MemShelf::new(files, vec![in alloc; 2]?);
    let rows = [
        (b"name", 4, Fetch::Bytes(b"text".to_vec(alloc)?)),
        (b"name", 3, Fetch::TooLong),
        (b"name", 4, Fetch::Failed),
        (b"none", 4, Fetch::NoSuch),
        (b"name", 4, Fetch::Bytes(b"text".to_vec(alloc)?)),
    ];
    for (name, limit, want) in rows {
        let answer = shelf.fetch(alloc, name, limit);
        assert_eq!(rt; answer, want, "{name:?} within {limit}");
    }
    Ok(())
}

#[test]
fn puts_to_memory(rt: HostRuntime) -> Result<(), Fail> {
    let alloc = rt.alloc();
    // The room, the most of one put, the put that fails, and what is taken of "abcdef".
    let rows = [
        (6, 6, 9, "abcdef", Ok(())),
        (6, 4, 9, "abcdef", Ok(())),
        (9, 1, 9, "abcdef", Ok(())),
        (5, 2, 9, "abcde", Err(SinkFailed)),
        (0, 1, 9, "", Err(SinkFailed)),
        (6, 2, 1, "ab", Err(SinkFailed)),
        (6, 6, 0, "", Err(SinkFailed)),
    ];
    for (room, most, failing, taken, want) in rows {
        let mut sink = MemSink::new(alloc, room, most, vec![in alloc; failing]?)?;
        let answer = put_all(&mut sink, b"abcdef");
        assert_eq!(rt; answer, want, "room {room}, most {most}, failing {failing}");
        assert_eq!(rt;
            sink.bytes(),
            taken.as_bytes(),
            "room {room}, most {most}, failing {failing}"
        );
    }
    Ok(())
}

#[test]
fn passes_calls_on(rt: HostRuntime) -> Result<(), Fail> {
    let alloc = rt.alloc();
    let files = vec![in alloc; (b"name".to_vec(alloc)?, b"text".to_vec(alloc)?)]?;
    let mut shelf = MuteShelf::new(MemShelf::new(files, vec![in alloc; 1]?));
    let wanted = [
        Fetch::Bytes(b"text".to_vec(alloc)?),
        Fetch::Failed,
        Fetch::Bytes(b"text".to_vec(alloc)?),
    ];
    for want in wanted {
        let answer = shelf.fetch(alloc, b"name", 4);
        assert_eq!(rt; answer, want);
    }
    assert_eq!(rt; shelf.fetch(alloc, b"none", 4), Fetch::NoSuch);
    let mut sink = MuteSink::new(MemSink::new(alloc, 6, 4, Vec::new(alloc))?);
    assert_eq!(rt; put_all(&mut sink, b"abcdef"), Ok(()));
    assert_eq!(rt; put_all(&mut sink, b"g"), Err(SinkFailed));
    Ok(())
}

/// A sink that takes at most two bytes of a put, and keeps how long its first three offers were.
#[derive(Drop)]
struct Recorder {
    offered: [usize; 3],
    puts: usize,
}

impl Sink for Recorder {
    ghost taken = { λ _. None };

    ghost faults = { λ _. 0 };

    ghost stopped = { λ _. false };

    fn put(&mut self, bytes: &[u8]) -> Put {
        if self.puts < 3 {
            self.offered[self.puts] = bytes.len();
            self.puts += 1;
        }
        Put::Took(bytes.len().min(2))
    }
}

#[test]
fn offers_the_whole_rest(rt: HostRuntime) {
    let mut sink = Recorder {
        offered: [0; 3],
        puts: 0,
    };
    assert_eq!(rt; put_all(&mut sink, b""), Ok(()));
    assert_eq!(rt; sink.puts, 0);
    assert_eq!(rt; put_all(&mut sink, b"abcde"), Ok(()));
    assert_eq!(rt; sink.offered, [5, 3, 1]);
}

#[test]
fn fetches_from_the_disk(rt: HostRuntime) {
    let alloc = rt.alloc();
    let rows = [
        (b"/dev/null".as_slice(), 0, Fetch::Bytes(Vec::new(alloc))),
        (b"/no such file".as_slice(), 9, Fetch::NoSuch),
        (b"/dev/\xff".as_slice(), 9, Fetch::NoSuch),
        (b"/dev/zero".as_slice(), 0, Fetch::TooLong),
        (b"/dev/zero".as_slice(), 10_000, Fetch::TooLong),
        (b"/".as_slice(), 9, Fetch::Failed),
    ];
    let mut shelf = DiskShelf::new(&rt);
    for (name, limit, want) in rows {
        let answer = shelf.fetch(alloc, name, limit);
        assert_eq!(rt; answer, want, "{name:?} within {limit}");
    }
}

/// A stream that fails at each write.
#[derive(Drop)]
struct Broken;

impl Write for Broken {
    fn write(&mut self, _bytes: &[u8]) -> io::Result<usize> {
        Err(io::Error::from(ErrorKind::BrokenPipe))
    }

    fn flush(&mut self) -> io::Result<()> {
        Ok(())
    }
}

#[test]
fn puts_to_streams(rt: HostRuntime) {
    let mut page = [0; 5];
    let mut sink = StdSink::new(page.as_mut_slice());
    assert_eq!(rt; put_all(&mut sink, b"abc"), Ok(()));
    // No room is left after two bytes, so the stream takes nothing.
    assert_eq!(rt; put_all(&mut sink, b"def"), Err(SinkFailed));
    assert_eq!(rt; page, *b"abcde");
    assert_eq!(rt; put_all(&mut StdSink::new(Broken), b"abc"), Err(SinkFailed));
}
