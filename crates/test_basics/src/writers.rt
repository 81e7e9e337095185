use std::io;
use std::io::{ErrorKind, Write};

/// A writer that accepts at most `most` bytes a call and `left` bytes in all. Then it fails, or accepts no byte.
#[derive(Drop)]
pub struct SlowWriter {
    /// The bytes accepted.
    pub taken: Vec<u8>,
    /// The most bytes per call.
    pub most: usize,
    /// How many more bytes it accepts.
    pub left: usize,
    /// Whether it fails then.
    pub fails: bool,
    /// Whether `flush` succeeds.
    pub flushes: bool,
}

impl Write for SlowWriter {
    fn write(&mut self, buf: &[u8]) -> io::Result<usize> {
        if self.left == 0 && self.fails {
            return Err(io::Error::from(ErrorKind::Other));
        }
        let n = self.most.min(self.left).min(buf.len());
        if self.taken.extend_from_slice(&buf[..n]).is_err() {
            return Ok(0);
        }
        self.left -= n;
        Ok(n)
    }

    fn flush(&mut self) -> io::Result<()> {
        if self.flushes {
            Ok(())
        } else {
            Err(io::Error::from(ErrorKind::Other))
        }
    }
}
