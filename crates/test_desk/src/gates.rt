use ov_workers::{Gate, Point};
use std::sync::atomic::{AtomicU64, Ordering};

/// A gate that counts how often a worker of session 7 passes one of the points.
#[derive(Drop)]
pub(crate) struct CountingGate {
    point: Point,
    passed: AtomicU64,
}

impl CountingGate {
    /// A gate that nobody has passed yet.
    pub(crate) fn new(point: Point) -> CountingGate {
        CountingGate {
            point,
            passed: AtomicU64::new(0),
        }
    }

    /// How often it has been passed.
    pub(crate) fn passed(&self) -> u64 {
        self.passed.load(Ordering::SeqCst)
    }
}

impl Gate for CountingGate {
    fn pass(&self, serial: u64, point: Point) {
        if serial == 7 && point == self.point {
            self.passed.fetch_add(1, Ordering::SeqCst);
        }
    }
}
