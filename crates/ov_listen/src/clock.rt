ghost use Rattle.std.specs.Prelude.{◌≡◌};
ghost use Rattle.ov_listen.specs.Clock.{milliseconds_between};

use ov_ends::Clock;
use std::rt::Clock as SystemClock;
use std::time::Instant;

/// A clock of milliseconds since it was made, by the system's monotonic clock. If that can't be read, it stays at the last
/// moment; if it could not be read when the clock was made, it stays at 0.
#[derive(Drop)]
pub struct MonotonicClock<'a, R: SystemClock> {
    system: &'a R,
    start: Option<Instant>,
    /// The last reading of the system's clock.
    reading: Option<Instant>,
    last: u64,
}

impl<'a, R: SystemClock> MonotonicClock<'a, R> {
    /// A clock that stands at 0 now.
    pub fn new(system: &'a R) -> MonotonicClock<'a, R>
        ensures { result.last ≡ 0 }
    {
        MonotonicClock {
            system,
            start: Instant::now(system).ok(),
            reading: None,
            last: 0,
        }
    }
}

/// The milliseconds between two readings; 0 if one of them failed.
fn milliseconds_between(start: Option<Instant>, now: Option<Instant>) -> u64
    ensures { result ≡ milliseconds_between start now }
{
    match (start, now) {
        (Some(start), Some(now)) => {
            u64::try_from(now.duration_since(start).as_millis()).unwrap_or(u64::MAX)
        }
        _ => 0,
    }
}

impl<'a, R: SystemClock> Clock for MonotonicClock<'a, R> {
    ghost use Rattle.std.specs.Prelude.{◌≡◌, max};
    ghost use Rattle.ov_listen.specs.Clock.{milliseconds_between};

    // The moment is in milliseconds since the start, by the last reading, and never goes back.
    ghost tells = { λ old moment new.
        (moment ≡ max old.last (milliseconds_between new.start new.reading))
        × (new.last ≡ moment) × (new.start ≡ old.start) };

    fn now(&mut self) -> u64 {
        self.reading = Instant::now(self.system).ok();
        let passed = milliseconds_between(self.start, self.reading);
        self.last = self.last.max(passed);
        self.last
    }
}
