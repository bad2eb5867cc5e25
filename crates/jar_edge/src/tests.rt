//! Streams that fail, in pieces and at their limits. The calls are counted by hand.

ghost use Rattle.std.specs.Prelude.{◌<◌, ◌≤◌, List, ℕ, IfSome, OnOk};
ghost use Rattle.std.specs.Io.KnownBytes.{Appends};
ghost use Rattle.jar_edge.specs.Streams.{GivesToEnd, TakesJust};

use crate::{
    MOST_ASKED, MemSink, MemSource, NoMemory, ReadRefusal, Sink, Source, StdSink, StdSource,
    WriteFault, read_whole, write_all,
};
use std::alloc::Global;
use std::io;
use std::io::{Cursor, ErrorKind, Read};
use std::process::Abort;
use std::test::Fail;

const TEXT: &[u8] = b"abcde";

/// A reader whose reads fail.
#[derive(Drop)]
struct Broken;

impl Read for Broken {
    fn read(&mut self, _buf: &mut [u8]) -> io::Result<usize> {
        Err(io::Error::from(ErrorKind::BrokenPipe))
    }
}

/// A reader at its end, which keeps how many bytes it was asked for.
#[derive(Drop)]
struct Asked(usize);

impl Read for Asked {
    fn read(&mut self, buf: &mut [u8]) -> io::Result<usize> {
        self.0 = buf.len();
        Ok(0)
    }
}

/// What a program does: at `Ok` the sink took what the source gave up to its end, and that is what
/// was left, where both know.
fn relay<S: Source, O: Sink>(alloc: Global, source: &mut S, sink: &mut O) -> Result<(), Fail>
    ensures history { OnOk result ((bytes : List ℕ)
        × GivesToEnd (S.told source.old) (S.told source.new) bytes
        × TakesJust (O.told sink.old) (O.told sink.new) bytes) }
    ensures known { OnOk result (IfSome (S.told source.old).left
        (Appends (O.told sink.old).written (O.told sink.new).written)) }
{
    let bytes = read_whole(alloc, source, 5)?;
    write_all(sink, &bytes)?;
    Ok(())
}

fn reads(
    rt: &impl Abort,
    alloc: Global,
    piece: usize,
    failing: u64,
    succeeds: bool,
) -> Result<(), Fail>
    requires { 1 ≤ piece }
{
    let mut source = MemSource::of(TEXT.to_vec(alloc)?, piece, [failing].to_vec(alloc)?);
    let read = read_whole(alloc, &mut source, 5);
    if succeeds {
        assert_eq!(rt;
            read?.as_slice(),
            TEXT,
            "in pieces of {piece}, read {failing}"
        );
    } else {
        assert_eq!(rt; read.err(), Some(ReadRefusal::ReadFault), "read {failing}");
    }
    Ok(())
}

#[test]
fn a_whole_read_has_pieces_of_any_size_and_fails_at_any_read(rt: HostRuntime) -> Result<(), Fail> {
    let alloc = rt.alloc();
    reads(&rt, alloc, 1, 0, true)?;
    reads(&rt, alloc, 2, 0, true)?;
    reads(&rt, alloc, 100, 0, true)?;
    reads(&rt, alloc, 100, 1, false)?;
    reads(&rt, alloc, 1, 3, false)?;
    // The read that finds the end is the second.
    reads(&rt, alloc, 100, 2, false)?;
    reads(&rt, alloc, 100, 3, true)?;
    Ok(())
}

#[test]
fn one_byte_past_the_limit_is_too_large(rt: HostRuntime) -> Result<(), Fail> {
    let alloc = rt.alloc();
    for (text, limit, fits) in [
        (TEXT, 5, true),
        (TEXT, 4, false),
        (b"a".as_slice(), 0, false),
        (b"".as_slice(), 0, true),
    ] {
        let mut source = MemSource::of(text.to_vec(alloc)?, 2, Vec::new(alloc));
        let read = read_whole(alloc, &mut source, limit);
        assert_eq!(rt; read.is_ok(), fits, "at {limit}");
        if let Err(refusal) = read {
            assert_eq!(rt; refusal, ReadRefusal::TooLarge, "at {limit}");
        }
    }
    Ok(())
}

/// A text of this length is read by reads that give 10,000 bytes at most.
fn reads_long(
    rt: &impl Abort,
    alloc: Global,
    length: usize,
    limit: usize,
    fits: bool,
) -> Result<(), Fail>
    requires { limit < usize.MAX }
{
    let mut text = Vec::new(alloc);
    for i in 0..length {
        text.push((i % 251) as u8)?;
    }
    let mut source = MemSource::of(text.clone()?, 10_000, Vec::new(alloc));
    match read_whole(alloc, &mut source, limit) {
        Ok(bytes) => assert!(rt; fits && bytes == text, "{length} bytes, at {limit}"),
        Err(refusal) => {
            assert!(rt; !fits, "{length} bytes, at {limit}");
            assert_eq!(rt; refusal, ReadRefusal::TooLarge);
        }
    }
    Ok(())
}

#[test]
fn a_read_goes_on_past_the_most_that_one_read_is_asked_for(rt: HostRuntime) -> Result<(), Fail> {
    let alloc = rt.alloc();
    reads_long(&rt, alloc, 8191, 8191, true)?;
    reads_long(&rt, alloc, 8192, 8192, true)?;
    reads_long(&rt, alloc, 8193, 8193, true)?;
    reads_long(&rt, alloc, 8193, 8192, false)?;
    reads_long(&rt, alloc, 20_000, 30_000, true)?;
    reads_long(&rt, alloc, 20_000, 19_999, false)?;
    Ok(())
}

#[test]
fn a_read_is_asked_for_no_byte_past_the_limit_but_one(rt: HostRuntime) -> Result<(), Fail> {
    let alloc = rt.alloc();
    for (limit, asked) in [
        (0, 1),
        (8190, 8191),
        (8191, 8192),
        (8192, 8192),
        (20_000, MOST_ASKED),
    ] {
        let mut reader = Asked(0);
        let read = read_whole(alloc, &mut StdSource::of(&mut reader), limit)?;
        assert!(rt; read.is_empty());
        assert_eq!(rt; reader.0, asked, "at {limit}");
    }
    Ok(())
}

fn writes(
    rt: &impl Abort,
    alloc: Global,
    room: usize,
    failing: u64,
    want: &[u8],
) -> Result<(), Fail> {
    let mut sink = MemSink::of(alloc, room, 1, [failing].to_vec(alloc)?)?;
    let written = write_all(&mut sink, TEXT);
    assert_eq!(rt; sink.written(), want, "room for {room}, write {failing}");
    assert_eq!(rt;
        written.is_ok(),
        want.len() == 5,
        "room for {room}, write {failing}"
    );
    Ok(())
}

#[test]
fn a_write_that_fails_leaves_what_was_written_before(rt: HostRuntime) -> Result<(), Fail> {
    let alloc = rt.alloc();
    writes(&rt, alloc, 5, 0, TEXT)?;
    writes(&rt, alloc, 5, 3, b"ab")?;
    writes(&rt, alloc, 5, 1, b"")?;
    writes(&rt, alloc, 3, 0, b"abc")?;
    writes(&rt, alloc, 0, 0, b"")?;
    Ok(())
}

#[test]
fn room_that_no_memory_has_is_want_of_memory(rt: HostRuntime) {
    let alloc = rt.alloc();
    let sink = MemSink::of(alloc, usize::MAX, 1, Vec::new(alloc));
    assert_eq!(rt; sink.err(), Some(NoMemory));
}

#[test]
fn readers_and_writers_of_std_are_read_and_written(rt: HostRuntime) -> Result<(), Fail> {
    let alloc = rt.alloc();
    let mut written = Vec::new(alloc);
    relay(
        alloc,
        &mut StdSource::of(TEXT),
        &mut StdSink::of(&mut written),
    )?;
    assert_eq!(rt; written.as_slice(), TEXT);
    let mut sink = MemSink::of(alloc, 5, 2, Vec::new(alloc))?;
    relay(
        alloc,
        &mut MemSource::of(written, 2, Vec::new(alloc)),
        &mut sink,
    )?;
    assert_eq!(rt; sink.written(), TEXT);
    Ok(())
}

#[test]
fn errors_of_std_and_full_writers_are_faults(rt: HostRuntime) -> Result<(), Fail> {
    let alloc = rt.alloc();
    let read = read_whole(alloc, &mut StdSource::of(Broken), 5);
    assert_eq!(rt; read.err(), Some(ReadRefusal::ReadFault));
    // The cursor takes two bytes, and then nothing.
    let mut full = Cursor::new([0u8; 2]);
    let written = write_all(&mut StdSink::of(&mut full), TEXT);
    assert_eq!(rt; written, Err(WriteFault));
    assert_eq!(rt; full.into_inner().as_slice(), b"ab".as_slice());
    Ok(())
}
