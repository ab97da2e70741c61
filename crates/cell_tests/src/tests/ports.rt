//! Ports over a reader and a writer that fail, call by call: no clause says that a call is tried again, nor that a
//! writer is flushed.

use super::rows::expect;
use report_ports::{Given, Sink, Source, StdSink, StdSource, Taken};
use std::io;
use std::io::{ErrorKind, Read, Write};

// A reader whose first `failing` reads fail with this kind of error, and which then gives `left` bytes and ends.
#[derive(Drop)]
struct FailingReader {
    kind: ErrorKind,
    failing: u32,
    left: usize,
}

impl Read for FailingReader {
    fn read(&mut self, into: &mut [u8]) -> io::Result<usize> {
        if self.failing == 0 {
            let given = self.left.min(into.len());
            self.left -= given;
            return Ok(given);
        }
        self.failing -= 1;
        Err(io::Error::from(self.kind))
    }
}

// A writer whose first `failing` writes and first `unflushed` flushes fail with this kind of error. It takes one
// byte at a time.
#[derive(Drop)]
struct FailingWriter {
    kind: ErrorKind,
    failing: u32,
    unflushed: u32,
    flushes: u32,
}

impl Write for FailingWriter {
    fn write(&mut self, piece: &[u8]) -> io::Result<usize> {
        if self.failing == 0 {
            return Ok(piece.len().min(1));
        }
        self.failing -= 1;
        Err(io::Error::from(self.kind))
    }

    fn flush(&mut self) -> io::Result<()> {
        if self.unflushed == 0 {
            self.flushes += u32::from(self.flushes < 9);
            return Ok(());
        }
        self.unflushed -= 1;
        Err(io::Error::from(self.kind))
    }
}

// The kind of error, how many reads fail, the answers of the first two calls, and the faults that are counted.
type ReadRow = (ErrorKind, u32, (Taken, Taken, u64));

const READS: &[ReadRow] = &[
    (ErrorKind::Other, 0, (Taken::Got(2), Taken::End, 0)),
    (ErrorKind::Other, 1, (Taken::Failed, Taken::Got(2), 1)),
    (ErrorKind::Interrupted, 99, (Taken::Got(2), Taken::End, 0)),
    (
        ErrorKind::Interrupted,
        100,
        (Taken::Failed, Taken::Got(2), 1),
    ),
    (
        ErrorKind::Interrupted,
        200,
        (Taken::Failed, Taken::Failed, 2),
    ),
];

#[test]
fn an_interrupted_read_is_tried_again(rt: HostRuntime) {
    for (row, &(kind, failing, want)) in READS.iter().enumerate() {
        expect(&rt, row, two_reads(kind, failing), want);
    }
}

fn two_reads(kind: ErrorKind, failing: u32) -> (Taken, Taken, u64) {
    let mut room = [0u8; 3];
    let mut source = StdSource::new(FailingReader {
        kind,
        failing,
        left: 2,
    });
    let first = source.take(&mut room);
    let second = source.take(&mut room);
    (first, second, source.faults())
}

// The kind of error, how many writes and how many flushes fail, the piece, the answer, the faults that are
// counted, and how often the writer was flushed.
type GiveRow = (ErrorKind, u32, u32, &'static [u8], (Given, u64, u32));

const GIVES: &[GiveRow] = &[
    (ErrorKind::Other, 0, 0, b"disks", (Given::All, 0, 1)),
    (ErrorKind::Other, 1, 0, b"disks", (Given::Failed, 1, 0)),
    (ErrorKind::Other, 1, 0, b"", (Given::All, 0, 1)),
    (ErrorKind::Other, 0, 1, b"disks", (Given::Failed, 1, 0)),
    (ErrorKind::Other, 0, 1, b"", (Given::Failed, 1, 0)),
    (ErrorKind::Interrupted, 99, 99, b"disks", (Given::All, 0, 1)),
    (
        ErrorKind::Interrupted,
        100,
        0,
        b"disks",
        (Given::Failed, 1, 0),
    ),
    (
        ErrorKind::Interrupted,
        0,
        100,
        b"disks",
        (Given::Failed, 1, 0),
    ),
];

#[test]
fn a_piece_is_written_and_flushed(rt: HostRuntime) {
    for (row, &(kind, failing, unflushed, piece, want)) in GIVES.iter().enumerate() {
        let writer = FailingWriter {
            kind,
            failing,
            unflushed,
            flushes: 0,
        };
        expect(&rt, row, given_to(writer, piece), want);
    }
}

// The answer for a piece, the faults that are counted, and how often the writer was flushed.
fn given_to(mut writer: FailingWriter, piece: &[u8]) -> (Given, u64, u32) {
    let (given, faults) = give_to(&mut writer, piece);
    (given, faults, writer.flushes)
}

fn give_to(writer: &mut FailingWriter, piece: &[u8]) -> (Given, u64) {
    let mut sink = StdSink::new(writer);
    let given = sink.give(piece);
    (given, sink.faults())
}
