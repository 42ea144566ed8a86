//! Real ends behind the sources and sinks: a slice, a vector, and a reader that fails. Answers are written as text: the
//! bytes given, or the digit of how many were taken, or '!' for a failure.

use ffi3_io::{Failed, ReadSource, Sink, Source, WriteSink};
use std::alloc::Global;
use std::io;
use std::io::{Error, ErrorKind, Read};
use std::process::Abort;

/// A reader that always fails.
#[derive(Drop)]
struct Broken;

impl Read for Broken {
    fn read(&mut self, _buf: &mut [u8]) -> io::Result<usize> {
        Err(Error::from(ErrorKind::Other))
    }
}

/// The answers of three reads of two bytes at most.
fn check_reads<I: Source>(rt: &impl Abort, alloc: Global, source: &mut I, want: &[u8]) {
    let mut text = Vec::new(alloc);
    for _ in 0..3usize {
        let mut buf = [0u8; 2];
        match source.read(&mut buf) {
            Ok(n) => text.extend_from_slice(&buf[..n]).expect(rt, "memory"),
            Err(Failed) => text.push(b'!').expect(rt, "memory"),
        }
        text.push(b'|').expect(rt, "memory");
    }
    assert!(rt; text.as_slice() == want);
}

/// The answers of the writes of some pieces.
fn check_writes<O: Sink>(
    rt: &impl Abort,
    alloc: Global,
    sink: &mut O,
    pieces: &[&[u8]],
    want: &[u8],
) {
    let mut text = Vec::new(alloc);
    for piece in pieces {
        let digit = match sink.write(*piece) {
            Ok(n) if n < 10 => b'0' + n as u8,
            Ok(_) => b'?',
            Err(Failed) => b'!',
        };
        text.push(digit).expect(rt, "memory");
    }
    assert!(rt; text.as_slice() == want);
}

#[test]
fn ends_answer(rt: HostRuntime) {
    let alloc = rt.alloc();
    let reader: &[u8] = b"abc";
    check_reads(&rt, alloc, &mut ReadSource::new(reader), b"ab|c||");
    check_reads(&rt, alloc, &mut ReadSource::new(Broken), b"!|!|!|");
    let mut over_vec = WriteSink::new(Vec::new(alloc));
    check_writes(&rt, alloc, &mut over_vec, &[b"ab", b"", b"c"], b"201");
    let mut room = [0u8; 3];
    let part: &mut [u8] = &mut room;
    let mut over_slice = WriteSink::new(part);
    let pieces: [&[u8]; 4] = [b"ab", b"cd", b"e", b""];
    check_writes(&rt, alloc, &mut over_slice, &pieces, b"21!0");
}
