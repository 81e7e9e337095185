ghost use Rattle.std.specs.Prelude.{◌≡◌, [], false};
ghost use Rattle.ov_ends.specs.Ends.{one_more};

use crate::ends::{Sink, Source};
use ov_base::ByteTrace;
use std::io::{Read, Write};

/// A reader or a writer of std's as a source or a sink. An interrupted call counts as a failure, and so does a write of no
/// byte.
#[derive(Drop)]
pub struct Watched<T> {
    inner: T,
    trace: ByteTrace,
    ended: bool,
    flushed: bool,
    failures: u64,
}

impl<T> Watched<T> {
    /// A source or a sink that has not been used yet.
    pub fn new(inner: T) -> Watched<T>
        ensures inner { result.inner ≡ inner }
        ensures trace { result.trace.bytes ≡ [] }
        ensures ended { result.ended ≡ false }
        ensures flushed { result.flushed ≡ false }
        ensures failures { result.failures ≡ 0 }
    {
        Watched {
            inner,
            trace: ByteTrace::new(),
            ended: false,
            flushed: false,
            failures: 0,
        }
    }

    /// The reader or writer that it watched.
    pub fn into_inner(self) -> T
        ensures { result ≡ self.inner }
    {
        let Watched { inner, .. } = self;
        inner
    }

    fn count_failure(&mut self)
        ensures { self.new ≡ record self.old { failures = one_more self.old.failures } }
    {
        self.failures = self.failures.saturating_add(1);
    }
}

impl<R: Read> Source for Watched<R> {
    ghost bytes_read = { λ w. w.trace.bytes };

    ghost remaining = { λ w. R.remaining w.inner };

    ghost at_end = { λ w. w.ended };

    ghost faults = { λ w. w.failures };

    fn read(&mut self, piece: &mut [u8]) -> Option<usize> {
        match self.inner.read(piece) {
            Ok(n) => {
                self.trace.add(&piece[..n]);
                if n == 0 && !piece.is_empty() {
                    self.ended = true;
                }
                Some(n)
            }
            Err(_) => {
                self.count_failure();
                None
            }
        }
    }

    fn ended(&self) -> bool {
        self.ended
    }

    fn failures(&self) -> u64 {
        self.failures
    }
}

impl<W: Write> Sink for Watched<W> {
    ghost bytes_written = { λ w. w.trace.bytes };

    ghost contents = { λ w. W.contents w.inner };

    ghost is_flushed = { λ w. w.flushed };

    ghost faults = { λ w. w.failures };

    fn write(&mut self, bytes: &[u8]) -> Option<usize> {
        self.flushed = false;
        match self.inner.write(bytes) {
            Ok(0) if !bytes.is_empty() => {
                self.count_failure();
                None
            }
            Ok(n) => {
                self.trace.add(&bytes[..n]);
                Some(n)
            }
            Err(_) => {
                self.count_failure();
                None
            }
        }
    }

    fn flush(&mut self) -> bool {
        self.flushed = self.inner.flush().is_ok();
        if !self.flushed {
            self.count_failure();
        }
        self.flushed
    }

    fn failures(&self) -> u64 {
        self.failures
    }
}
