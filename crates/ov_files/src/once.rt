//! A disk that fails once, for tests.

ghost use Rattle.std.specs.Prelude.{◌≡◌, ◌+◌, ◌↔◌, ◌&&◌, not, false, Some, None, IsErr};
ghost use Rattle.sqlite_disk.specs.Disk.{CountsFault};
ghost use Rattle.sqlite_disk.specs.Refusal.{finds_no_room};
ghost use Rattle.ov_files.specs.Once.{after_one_call};

use sqlite_disk::{Crash, Disk, Tally};
use std::io;

/// A disk over another that passes a number of calls on, fails the next one, and passes on all that follow. The call that
/// fails changes nothing. If it is a sync, the disk cannot be used until it crashes.
#[derive(Drop)]
pub struct FailsOnce<D: Disk> {
    inner: D,
    calls_left: Option<u64>,
    failed: u64,
    sync_failed: bool,
}

impl<D: Disk> FailsOnce<D> {
    ghost use Rattle.ov_files.specs.Once.{inner_of, calls_left, IsFresh};

    /// A disk that fails after this number of calls.
    pub fn new(inner: D, calls: u64) -> FailsOnce<D>
        ensures inner { inner_of result ≡ inner }
        ensures calls { calls_left result ≡ Some calls }
        ensures fresh { IsFresh result }
    {
        FailsOnce {
            inner,
            calls_left: Some(calls),
            failed: 0,
            sync_failed: false,
        }
    }

    /// The disk below.
    pub fn inner(&self) -> &D
        ensures { result.now ≡ inner_of self.now }
    {
        &self.inner
    }

    /// How many calls it passes on before the one that fails; `None` once that has failed, or after a crash.
    pub fn calls_left(&self) -> Option<u64>
        ensures { result ≡ calls_left self.now }
    {
        self.calls_left
    }
}

/// Counts a call, which fails if none is left before the one that does.
fn spend(calls_left: &mut Option<u64>, failed: &mut u64) -> io::Result<()>
    ensures fails { IsErr result ↔ (calls_left.old ≡ Some 0) }
    ensures left { calls_left.new ≡ after_one_call calls_left.old }
    ensures faults { CountsFault result failed.old failed.new }
    ensures kind { finds_no_room result ≡ false }
{
    match *calls_left {
        None => Ok(()),
        Some(0) => {
            *calls_left = None;
            *failed = failed.saturating_add(1);
            Err(io::Error::other("the disk fails once"))
        }
        Some(calls) => {
            *calls_left = Some(calls - 1);
            Ok(())
        }
    }
}

impl<D: Disk> Disk for FailsOnce<D> {
    ghost seen = { λ f. D.Disk.seen f.inner };

    ghost may_leave = { λ f. D.Disk.may_leave f.inner };

    ghost is_usable = { λ f. D.Disk.is_usable f.inner && not f.sync_failed };

    ghost faults = { λ f. D.Disk.faults f.inner + f.failed };

    ghost tally_of = { λ f. D.Disk.tally_of f.inner };

    ghost is_rotten = { λ f. D.Disk.is_rotten f.inner };

    ghost key_of = { λ f. D.Disk.key_of f.inner };

    ghost is_clean = { λ f. D.Disk.is_clean f.inner };

    ghost is_fair = { λ f. D.Disk.is_fair f.inner };

    ghost fair_if_clean = { λ f. D.Disk.fair_if_clean f.inner };

    ghost seen_may_stay = { λ f. D.Disk.seen_may_stay f.inner };

    ghost is_mixing = { λ f. D.Disk.is_mixing f.inner };

    fn mixes(&self) -> bool {
        self.inner.mixes()
    }

    fn key(&self) -> u64 {
        self.inner.key()
    }

    fn tally(&self) -> Tally {
        self.inner.tally()
    }

    fn may_be_used(&self) -> bool {
        self.inner.may_be_used() && !self.sync_failed
    }

    fn len(&mut self) -> io::Result<usize> {
        spend(&mut self.calls_left, &mut self.failed)?;
        self.inner.len()
    }

    fn read_at(&mut self, at: usize, buf: &mut [u8]) -> io::Result<()> {
        spend(&mut self.calls_left, &mut self.failed)?;
        self.inner.read_at(at, buf)
    }

    fn read_checked(&mut self, key: u64, want: u64, at: usize, buf: &mut [u8]) -> io::Result<()> {
        spend(&mut self.calls_left, &mut self.failed)?;
        self.inner.read_checked(key, want, at, buf)
    }

    fn write_at(&mut self, at: usize, bytes: &[u8]) -> io::Result<()> {
        spend(&mut self.calls_left, &mut self.failed)?;
        self.inner.write_at(at, bytes)
    }

    fn set_len(&mut self, len: usize) -> io::Result<()> {
        spend(&mut self.calls_left, &mut self.failed)?;
        self.inner.set_len(len)
    }

    fn sync(&mut self) -> io::Result<()> {
        if let Err(error) = spend(&mut self.calls_left, &mut self.failed) {
            self.sync_failed = true;
            return Err(error);
        }
        self.inner.sync()
    }
}

/// After a crash it does not fail.
impl<D: Crash> Crash for FailsOnce<D> {
    fn crash(&mut self) {
        self.inner.crash();
        self.calls_left = None;
        self.sync_failed = false;
    }
}
