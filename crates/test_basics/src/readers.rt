use std::io;
use std::io::{ErrorKind, Read};

/// A reader that returns at most `most` bytes a call, and fails after `calls` calls.
#[derive(Drop)]
pub struct SlowReader<'a> {
    /// The bytes still to read.
    pub rest: &'a [u8],
    /// The most bytes per call.
    pub most: usize,
    /// How many calls are answered.
    pub calls: usize,
    /// The error of later calls.
    pub error: ErrorKind,
}

impl Read for SlowReader<'_> {
    fn read(&mut self, buf: &mut [u8]) -> io::Result<usize> {
        if self.calls == 0 {
            return Err(io::Error::from(self.error));
        }
        self.calls -= 1;
        let n = self.most.min(self.rest.len()).min(buf.len());
        buf[..n].copy_from_slice(&self.rest[..n]);
        self.rest = &self.rest[n..];
        Ok(n)
    }
}
