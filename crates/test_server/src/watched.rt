use crate::made::tells_as;
use ov_ends::{Sink, Source, Watched};
use std::alloc::Global;
use std::io;
use std::io::{ErrorKind, Read, Write};
use std::test::Fail;

/// A reader that counts its calls. Each gives two bytes, or fails.
#[derive(Drop)]
struct CountedReader {
    fails: bool,
    reads: u64,
}

impl Read for CountedReader {
    fn read(&mut self, buf: &mut [u8]) -> io::Result<usize> {
        self.reads = self.reads.saturating_add(1);
        if self.fails {
            return Err(io::Error::from(ErrorKind::Other));
        }
        Ok(buf.len().min(2))
    }
}

/// A writer that counts its calls. Each takes two bytes, or fails.
#[derive(Drop)]
struct CountedWriter {
    fails: bool,
    writes: u64,
    flushes: u64,
}

impl Write for CountedWriter {
    fn write(&mut self, buf: &[u8]) -> io::Result<usize> {
        self.writes = self.writes.saturating_add(1);
        if self.fails {
            return Err(io::Error::from(ErrorKind::Other));
        }
        Ok(buf.len().min(2))
    }

    fn flush(&mut self) -> io::Result<()> {
        self.flushes = self.flushes.saturating_add(1);
        if self.fails {
            return Err(io::Error::from(ErrorKind::Other));
        }
        Ok(())
    }
}

/// The outcome of one read, the failures counted afterwards, and the reads that were made.
fn read_once(fails: bool) -> (Option<usize>, u64, u64) {
    let mut reader = Watched::new(CountedReader { fails, reads: 0 });
    let mut piece = [0; 4];
    let read = reader.read(&mut piece);
    let failures = reader.failures();
    (read, failures, reader.into_inner().reads)
}

/// The outcome of one write, the failures counted afterwards, and the writes that were made.
fn written_once(fails: bool) -> (Option<usize>, u64, u64) {
    let mut writer = Watched::new(CountedWriter {
        fails,
        writes: 0,
        flushes: 0,
    });
    let written = writer.write(b"abcd");
    let failures = writer.failures();
    (written, failures, writer.into_inner().writes)
}

/// The outcome of one flush, the failures counted afterwards, and the flushes that were made.
fn flushed_once(fails: bool) -> (bool, u64, u64) {
    let mut writer = Watched::new(CountedWriter {
        fails,
        writes: 0,
        flushes: 0,
    });
    let flushed = writer.flush();
    let failures = writer.failures();
    (flushed, failures, writer.into_inner().flushes)
}

/// Fails unless this is the outcome of a call.
fn is_once(alloc: Global, found: (Option<usize>, u64, u64), wanted: &str) -> Result<(), Fail> {
    tells_as(alloc, format!(in alloc; "{found:?}"), wanted)
}

#[test]
fn a_failure_is_one_of_what_is_watched(rt: HostRuntime) -> Result<(), Fail> {
    is_once(rt.alloc(), read_once(false), "(Some(2), 0, 1)")?;
    is_once(rt.alloc(), read_once(true), "(None, 1, 1)")?;
    is_once(rt.alloc(), written_once(false), "(Some(2), 0, 1)")?;
    is_once(rt.alloc(), written_once(true), "(None, 1, 1)")
}

/// Fails unless this is the outcome of a flush.
fn is_flushed(alloc: Global, found: (bool, u64, u64), wanted: &str) -> Result<(), Fail> {
    tells_as(alloc, format!(in alloc; "{found:?}"), wanted)
}

#[test]
fn what_is_watched_is_flushed(rt: HostRuntime) -> Result<(), Fail> {
    is_flushed(rt.alloc(), flushed_once(false), "(true, 0, 1)")?;
    is_flushed(rt.alloc(), flushed_once(true), "(false, 1, 1)")
}
