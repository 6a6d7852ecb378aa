//! Streams that fail where they are set to, and the adapters over streams of a test.
ghost use Rattle.std.specs.Prelude.{◌≤◌, IfOk};

use bim_io::{
    Clock, ListClock, MemClock, MemSink, MemSource, Sink, Source, StdSink, StdSource, SureSink,
    SureSource, SystemClock,
};
use bim_model::{Bytes, Items, Moment};
use std::alloc::{AllocError, Global};
use std::io::{Error, ErrorKind, Read, Result as IoResult, Write};
use std::process::Abort;
use std::test::Fail;

fn calls(alloc: Global, numbers: &[u64]) -> Result<Items<u64>, AllocError> {
    Ok(Items::from_vec(numbers.to_vec(alloc)?))
}

// Reads into a room of four bytes; where nothing is wanted, the call is to fail.
fn try_reads<S: Source>(rt: &impl Abort, source: &mut S, wanted: &[Option<&str>]) {
    for want in wanted {
        let mut room = [0; 4];
        match source.read(&mut room) {
            Ok(count) => assert_eq!(rt; Some(&room[..count]), want.map(|w| w.as_bytes())),
            Err(_) => assert!(rt; want.is_none()),
        }
    }
}

// Writes a piece of four bytes each time.
fn try_writes<K: Sink>(rt: &impl Abort, sink: &mut K, wanted: &[Option<usize>]) {
    for want in wanted {
        assert_eq!(rt; sink.write(b"abcd").ok(), *want);
    }
}

#[test]
fn sources_fail_where_told(rt: HostRuntime) -> Result<(), Fail> {
    let alloc = rt.alloc();
    let contents = Bytes::of(alloc, b"abcdefgh")?;
    let mut source = MemSource::new(contents, 3, calls(alloc, &[2, 5])?)?;
    let wanted = [
        Some("abc"),
        None,
        Some("def"),
        Some("gh"),
        None,
        Some(""),
        Some(""),
    ];
    try_reads(&rt, &mut source, &wanted);

    let mut sure = SureSource::new(Bytes::of(alloc, b"abcdefgh")?, 9)?;
    try_reads(&rt, &mut sure, &[Some("abcd"), Some("efgh"), Some("")]);
    Ok(())
}

#[test]
fn sinks_fail_where_told(rt: HostRuntime) -> Result<(), Fail> {
    let alloc = rt.alloc();
    let mut sink = MemSink::new(alloc, 3, calls(alloc, &[1, 3])?)?;
    try_writes(&rt, &mut sink, &[None, Some(3), None, Some(3)]);
    assert_eq!(rt; sink.bytes(), b"abcabc".as_slice());

    let mut sure = SureSink::new(alloc, 9)?;
    try_writes(&rt, &mut sure, &[Some(4), Some(4)]);
    assert_eq!(rt; sure.bytes(), b"abcdabcd".as_slice());
    Ok(())
}

#[test]
fn clocks_tell_the_time(rt: HostRuntime) -> Result<(), Fail> {
    assert_eq!(rt; MemClock::new(1_714_564_800).now(), 1_714_564_800);
    let mut moments = Items::new(rt.alloc());
    moments.push(Moment::new(1_714_564_800))?;
    moments.push(Moment::new(1_714_564_812))?;
    let mut listed = ListClock::new(moments);
    assert_eq!(rt; listed.now(), 1_714_564_800);
    assert_eq!(rt; listed.now(), 1_714_564_812);
    assert_eq!(rt; listed.now(), 0);
    let mut clock = SystemClock::new(rt);
    let moment = clock.now();
    assert!(rt; 1_700_000_000 < moment && moment < Moment::LAST);
    Ok(())
}

// A stream whose first call moves at most two bytes, whose second fails and whose others move none.
#[derive(Drop)]
struct Broken {
    calls: u8,
}

impl Broken {
    fn at_most_two(&mut self, count: usize) -> IoResult<usize>
        ensures { IfOk result (λ n. (n ≤ count) × (n ≤ 2)) }
    {
        self.calls = self.calls.saturating_add(1);
        match self.calls {
            1 => Ok(count.min(2)),
            2 => Err(Error::from(ErrorKind::BrokenPipe)),
            _ => Ok(0),
        }
    }
}

impl Read for Broken {
    fn read(&mut self, room: &mut [u8]) -> IoResult<usize> {
        let count = self.at_most_two(room.len())?;
        room[..count].copy_from_slice(&b"xy"[..count]);
        Ok(count)
    }
}

impl Write for Broken {
    fn write(&mut self, piece: &[u8]) -> IoResult<usize> {
        self.at_most_two(piece.len())
    }

    fn flush(&mut self) -> IoResult<()> {
        Ok(())
    }
}

#[test]
fn adapters_pass_faults_on(rt: HostRuntime) {
    let mut source = StdSource::new(Broken { calls: 0 });
    try_reads(&rt, &mut source, &[Some("xy"), None, Some(""), Some("")]);
    let mut sink = StdSink::new(Broken { calls: 0 });
    try_writes(&rt, &mut sink, &[Some(2), None, None, None]);
}
