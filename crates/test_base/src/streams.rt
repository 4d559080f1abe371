//! What no clause says: that calls succeed where memory is ample, faults in turn at each call, and
//! the adapters over readers and writers in memory.
use emu_io::{Failed, InputSource, Memory, OutputSink, ReadFault, Sink, read_front, write_all};
use memory_io::{ListSink, ListSource, SureSink, SureSource};
use std::alloc::Global;
use std::io::{self, ErrorKind, Read, Write};
use std::process::Abort;
use std::test::Fail;

fn bytes(alloc: Global, text: &[u8]) -> Result<Vec<u8>, Memory> {
    Ok(Vec::from_slice(alloc, text)?)
}

/// How many bytes a source has left, of 20,000 at most, all of which are read.
fn read_len(alloc: Global, source: &mut ListSource) -> Result<usize, ReadFault> {
    let front = read_front(alloc, source, 20_000)?;
    Ok(front.bytes.len())
}

/// A source of 10,000 bytes, of which the call of this number fails.
fn failing_at(alloc: Global, call: u64) -> Result<ListSource, Memory> {
    let bytes = vec![in alloc; 7; 10_000]?;
    Ok(ListSource::new(bytes, vec![in alloc; call]?))
}

/// A call that fails, how many bytes are read, the faults and the bytes that are left then, and how
/// many bytes are read when it is asked again.
type Reads = (
    u64,
    Result<usize, ReadFault>,
    (u64, usize),
    Result<usize, ReadFault>,
);

static READS: [Reads; 5] = [
    (1, Err(ReadFault::Failed), (1, 10_000), Ok(10_000)),
    (2, Err(ReadFault::Failed), (1, 5_904), Ok(5_904)),
    (3, Err(ReadFault::Failed), (1, 1_808), Ok(1_808)),
    (4, Err(ReadFault::Failed), (1, 0), Ok(0)),
    (5, Ok(10_000), (0, 0), Err(ReadFault::Failed)),
];

#[test]
fn each_read_fails_in_turn(rt: HostRuntime) -> Result<(), Fail> {
    for &(call, first, then, again) in &READS {
        let mut source = failing_at(rt.alloc(), call)?;
        let found = read_len(rt.alloc(), &mut source);
        let state = (source.faults(), source.left().len());
        let second = read_len(rt.alloc(), &mut source);
        assert_eq!(rt; (found, state, second), (first, then, again), "call {call}");
    }
    Ok(())
}

/// Whether the front of a source is this text, and whether there is more.
fn front_is(
    alloc: Global,
    source: &mut SureSource,
    most: usize,
    kept: &str,
) -> Result<(bool, bool), ReadFault> {
    let front = read_front(alloc, source, most)?;
    Ok((front.bytes.as_slice() == kept.as_bytes(), front.past))
}

/// The most bytes, what is kept of `hello`, and whether there is more.
static FRONTS: [(usize, &str, bool); 4] = [
    (6, "hello", false),
    (5, "hello", false),
    (4, "hell", true),
    (0, "", true),
];

#[test]
fn no_more_than_the_most_is_kept(rt: HostRuntime) -> Result<(), Fail> {
    for &(most, kept, past) in &FRONTS {
        let mut source = SureSource::new(bytes(rt.alloc(), b"hello")?);
        let found = front_is(rt.alloc(), &mut source, most, kept);
        let ended = source.left().is_empty();
        assert_eq!(rt; (found, ended), (Ok((true, past)), true), "{most}");
    }
    Ok(())
}

/// A sink that takes one byte at a time.
#[derive(Drop)]
struct Narrow {
    sink: ListSink,
}

impl Sink for Narrow {
    ghost use Rattle.std.specs.Prelude.{Some};

    ghost written = { λ s. Some s.sink.written };

    ghost faults = { λ s. s.sink.faults };

    fn write(&mut self, buf: &[u8]) -> Result<usize, Failed> {
        self.sink.write(&buf[..buf.len().min(1)])
    }
}

/// Whether `abc` is written whole where a call fails, whether no fault is counted, and whether the sink
/// then has this text.
fn written(alloc: Global, call: u64, text: &str) -> Result<(bool, bool, bool), Memory> {
    let mut narrow = Narrow {
        sink: ListSink::new(alloc, vec![in alloc; call]?),
    };
    let done = write_all(&mut narrow, b"abc").is_ok();
    let counts = narrow.sink.faults() == 0;
    Ok((done, counts, narrow.sink.bytes() == text.as_bytes()))
}

/// A call that fails, and what is written before it.
static WRITES: [(u64, &str); 4] = [(1, ""), (2, "a"), (3, "ab"), (4, "abc")];

#[test]
fn each_write_fails_in_turn(rt: HostRuntime) -> Result<(), Fail> {
    for &(call, text) in &WRITES {
        let found = written(rt.alloc(), call, text)?;
        assert_eq!(rt; found, (call == 4, call == 4, true), "call {call}");
    }
    Ok(())
}

/// Texts, whether each is written where there is room for three bytes, and the faults that are counted then.
static ROOM: [(&str, bool, u64); 5] = [
    ("ab", true, 0),
    ("cd", false, 1),
    ("", true, 1),
    ("c", true, 1),
    ("d", false, 2),
];

/// Writes the texts, and compares.
fn expect_room(rt: &impl Abort, sink: &mut SureSink) {
    for &(text, good, faults) in &ROOM {
        let done = write_all(sink, text.as_bytes()).is_ok();
        assert_eq!(rt; (done, sink.faults()), (good, faults), "{text}");
    }
}

#[test]
fn room_is_not_passed(rt: HostRuntime) -> Result<(), Fail> {
    let mut sink = SureSink::new(rt.alloc(), 3)?;
    expect_room(&rt, &mut sink);
    assert_eq!(rt; sink.bytes(), b"abc".as_slice());
    Ok(())
}

/// A reader and writer of which each call fails.
#[derive(Drop)]
struct Broken;

impl Read for Broken {
    fn read(&mut self, _buf: &mut [u8]) -> io::Result<usize> {
        Err(io::Error::from(ErrorKind::Other))
    }
}

impl Write for Broken {
    fn write(&mut self, _buf: &[u8]) -> io::Result<usize> {
        Err(io::Error::from(ErrorKind::Other))
    }

    fn flush(&mut self) -> io::Result<()> {
        Ok(())
    }
}

/// A writer that takes nothing.
#[derive(Drop)]
struct Full;

impl Write for Full {
    fn write(&mut self, _buf: &[u8]) -> io::Result<usize> {
        Ok(0)
    }

    fn flush(&mut self) -> io::Result<()> {
        Ok(())
    }
}

fn refuses<W: Write + Drop>(rt: &impl Abort, writer: W) {
    let mut sink = OutputSink::new(writer);
    let answer = write_all(&mut sink, b"a");
    assert_eq!(rt; (answer, sink.faults()), (Err(Failed), 1));
}

/// Writes to a sink over a list: the faults that are counted, and what the list then has.
fn passed_on(alloc: Global, bytes: &[u8]) -> (Result<u64, Failed>, Vec<u8>) {
    let mut sink = OutputSink::new(Vec::new(alloc));
    let answer = write_all(&mut sink, bytes);
    let faults = sink.faults();
    (answer.map(|()| faults), sink.into_inner())
}

#[test]
fn adapters_pass_bytes_on(rt: HostRuntime) -> Result<(), Fail> {
    let mut source = InputSource::new(b"hello".as_slice());
    let front = read_front(rt.alloc(), &mut source, 5)?;
    let (answer, written) = passed_on(rt.alloc(), front.bytes.as_slice());
    assert_eq!(rt; (source.faults(), answer), (0, Ok(0)));
    assert_eq!(rt; written.as_slice(), b"hello".as_slice());
    Ok(())
}

/// A reader of which each call fails is told to fail, and its fault is counted.
fn fails(rt: &impl Abort, alloc: Global) {
    let mut broken = InputSource::new(Broken);
    let found = read_front(alloc, &mut broken, 5).err();
    assert_eq!(rt; (found, broken.faults()), (Some(ReadFault::Failed), 1));
}

#[test]
fn adapters_count_faults(rt: HostRuntime) {
    fails(&rt, rt.alloc());
    refuses(&rt, Broken);
    refuses(&rt, Full);
    assert_eq!(rt; InputSource::new(rt.stdin()).faults(), 0);
    assert_eq!(rt; OutputSink::new(rt.stdout()).faults(), 0);
}
