ghost use Rattle.std.specs.Prelude.{◌≡◌, ◌≤◌, ◌<◌, ◌++◌, ℕ, List, Bool, true, false, Option};
ghost use Rattle.std.specs.Prelude.{length, take, IfSome, IfNone};
ghost use Rattle.std.specs.Io.KnownBytes.{IsAtEnd};
ghost use Rattle.ov_ends.specs.Ends.{one_more, met_end, KeepsInput, GivesWritten};

/// A reader whose bytes contracts name.
pub trait Source {
    /// The bytes read so far.
    ghost bytes_read: { Self → List ℕ };

    /// The bytes still to be read, if known.
    ghost remaining: { Self → Option (List ℕ) };

    /// Whether the end of the input was met.
    ghost at_end: { Self → Bool };

    /// How many reads failed; it stays at 2^64-1.
    ghost faults: { Self → ℕ };

    /// Reads the next bytes into the front of the piece, and returns how many; None is an error. If the piece has room and
    /// no byte is read, the input has ended.
    fn read(&mut self, piece: &mut [u8]) -> Option<usize>
        ensures within { IfSome result (λ n. n ≤ length piece.new) }
        ensures trace { IfSome result (λ n. bytes_read self.new
            ≡ bytes_read self.old ++ take n piece.new) }
        ensures input { KeepsInput (bytes_read self.old) (remaining self.old) (bytes_read self.new)
            (remaining self.new) }
        ensures end { IfSome result (λ n. at_end self.new
            ≡ met_end n (length piece.new) (at_end self.old)) }
        ensures all { IfSome result (λ n. n ≡ 0 → 0 < length piece.new
            → IsAtEnd (remaining self.new)) }
        ensures good { IfSome result (λ n. faults self.new ≡ faults self.old) }
        ensures none { IfNone result ((bytes_read self.new ≡ bytes_read self.old)
            × (at_end self.new ≡ at_end self.old)
            × (faults self.new ≡ one_more (faults self.old))) };

    /// Whether the end of the input was met.
    fn ended(&self) -> bool
        ensures { result ≡ at_end self.now };

    /// How many reads failed; it stays at 2^64-1.
    fn failures(&self) -> u64
        ensures { result ≡ faults self.now };
}

/// A writer whose bytes contracts name.
pub trait Sink {
    /// The bytes written so far. A writer that gathers bytes may still hold some of them, until a flush.
    ghost bytes_written: { Self → List ℕ };

    /// All that the writer holds and has handed on, if known.
    ghost contents: { Self → Option (List ℕ) };

    /// Whether the last call of `write` or `flush` was a flush that succeeded, so that nothing written is still held.
    ghost is_flushed: { Self → Bool };

    /// How many writes and flushes failed; it stays at 2^64-1.
    ghost faults: { Self → ℕ };

    /// Writes the first of the bytes, and returns how many: at least one, if there is one. None is an error.
    fn write(&mut self, bytes: &[u8]) -> Option<usize>
        ensures within { IfSome result (λ n. n ≤ length bytes.now) }
        ensures some { IfSome result (λ n. 0 < length bytes.now → 0 < n) }
        ensures trace { IfSome result (λ n. bytes_written self.new
            ≡ bytes_written self.old ++ take n bytes.now) }
        ensures given { GivesWritten (bytes_written self.old) (contents self.old)
            (bytes_written self.new) (contents self.new) }
        ensures held { is_flushed self.new ≡ false }
        ensures good { IfSome result (λ n. faults self.new ≡ faults self.old) }
        ensures none { IfNone result ((bytes_written self.new ≡ bytes_written self.old)
            × (faults self.new ≡ one_more (faults self.old))) };

    /// Hands on what was written and is still held. False is an error.
    fn flush(&mut self) -> bool
        ensures trace { bytes_written self.new ≡ bytes_written self.old }
        ensures given { GivesWritten (bytes_written self.old) (contents self.old)
            (bytes_written self.new) (contents self.new) }
        ensures flushed { is_flushed self.new ≡ result }
        ensures good { result ≡ true → faults self.new ≡ faults self.old }
        ensures bad { result ≡ false → faults self.new ≡ one_more (faults self.old) };

    /// How many writes and flushes failed; it stays at 2^64-1.
    fn failures(&self) -> u64
        ensures { result ≡ faults self.now };
}

/// A clock that reports the moments of events.
pub trait Clock {
    /// The clock before, the moment that it reports, and the clock after.
    ghost tells: { Self → ℕ → Self → Type 0 };

    /// The moment in milliseconds.
    fn now(&mut self) -> u64
        ensures { tells self.old result self.new };
}
