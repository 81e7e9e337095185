use ov_ends::Clock;
use ov_listen::MonotonicClock;
use std::test::Fail;
use std::thread;
use std::time::Duration;
use test_basics::holds;

/// A clock that returns a later moment at each call.
#[derive(Drop)]
pub(crate) struct RisingClock {
    /// The last moment that it returned.
    pub moment: u64,
}

impl Clock for RisingClock {
    ghost tells = { λ _ _ _. Unit {0} };

    fn now(&mut self) -> u64 {
        self.moment = self.moment.saturating_add(1);
        self.moment
    }
}

#[test]
fn the_clock_counts_milliseconds(rt: HostRuntime) -> Result<(), Fail> {
    let mut clock = MonotonicClock::new(&rt);
    let first = clock.now();
    thread::sleep(&rt, Duration::from_millis(20));
    let passed = clock.now().saturating_sub(first);
    holds(
        rt.alloc(),
        passed >= 20 && passed < 2_000,
        "20 milliseconds passed",
    )
}
