use ov_workers::{Gate, Point};
use std::alloc::Global;
use std::rt::Clock;
use std::sync::atomic::{AtomicBool, AtomicU64, Ordering};
use std::test::Fail;
use std::thread;
use std::time::Duration;

/// The number of serials that are counted, including the one that stands for all.
const SERIALS: usize = 66;

/// How many turns of a millisecond a wait for a mark lasts at most.
const TURNS: u32 = 10_000;

/// The workers of the session with this serial have reached this point `times` times. Serial 0 stands for all sessions
/// together.
#[derive(Clone, Copy, PartialEq, Eq)]
pub(crate) struct Mark {
    pub serial: u64,
    pub point: Point,
    pub times: u64,
}

/// The point of a word.
fn point_of(word: &str) -> Option<Point> {
    match word {
        "push" => Some(Point::BeforePush),
        "frame" => Some(Point::BeforeWrite),
        _ => None,
    }
}

impl Mark {
    /// The mark of a text: `SERIAL push TIMES` before an item is pushed, or `SERIAL frame TIMES` before a frame is written.
    pub(crate) fn read(text: &str) -> Option<Mark> {
        let (serial, rest) = text.split_once(" ").unwrap_or((text, ""));
        let (word, times) = rest.split_once(" ").unwrap_or((rest, ""));
        let serial = serial.parse::<u64>();
        let times = times.parse::<u64>();
        match (serial, point_of(word), times) {
            (Ok(serial), Some(point), Ok(times)) => Some(Mark {
                serial,
                point,
                times,
            }),
            _ => None,
        }
    }
}

/// A worker that reaches the first mark is held up until the second has been reached.
pub(crate) type Hold = (Mark, Mark);

/// The holds of a gate.
pub(crate) type Holds = [Option<Hold>; 4];

/// Nobody is held up.
pub(crate) const NO_HOLDS: Holds = [None, None, None, None];

/// A count for each serial.
fn new_counts(alloc: Global) -> Result<Vec<AtomicU64>, Fail> {
    let mut counts = Vec::new(alloc);
    for _ in 0..SERIALS {
        counts.push(AtomicU64::new(0))?;
    }
    Ok(counts)
}

/// A gate that counts the workers that reach it, and holds some up until others have come.
///
/// After ten seconds a worker that waits is let go, and all others with it; the gate then says that it was too late.
#[derive(Drop)]
pub(crate) struct HoldingGate<'a, R: Clock> {
    rt: &'a R,
    holds: Holds,
    pushes: Vec<AtomicU64>,
    frames: Vec<AtomicU64>,
    is_late: AtomicBool,
}

impl<'a, R: Clock> HoldingGate<'a, R> {
    /// A gate that nobody has reached yet, with these holds.
    pub(crate) fn new(rt: &'a R, alloc: Global, holds: Holds) -> Result<HoldingGate<'a, R>, Fail> {
        let pushes = new_counts(alloc)?;
        let frames = new_counts(alloc)?;
        Ok(HoldingGate {
            rt,
            holds,
            pushes,
            frames,
            is_late: AtomicBool::new(false),
        })
    }

    /// Whether somebody has waited too long.
    pub(crate) fn is_late(&self) -> bool {
        self.is_late.load(Ordering::SeqCst)
    }

    /// Adds to the number of times that a point has been reached, and returns the number before.
    fn count(&self, serial: u64, point: Point, more: u64) -> u64 {
        let counts = match point {
            Point::BeforePush => &self.pushes,
            Point::BeforeWrite => &self.frames,
        };
        match counts.get(serial as usize) {
            Some(count) => count.fetch_add(more, Ordering::SeqCst),
            None => 0,
        }
    }

    /// Waits until a mark has been reached.
    pub(crate) fn wait(&self, mark: Mark) {
        for _ in 0..TURNS {
            if self.count(mark.serial, mark.point, 0) >= mark.times || self.is_late() {
                return;
            }
            thread::sleep(self.rt, Duration::from_millis(1));
        }
        self.is_late.store(true, Ordering::SeqCst);
    }
}

impl<R: Clock> Gate for HoldingGate<'_, R> {
    fn pass(&self, serial: u64, point: Point) {
        self.count(0, point, 1);
        let come = Mark {
            serial,
            point,
            times: self.count(serial, point, 1).saturating_add(1),
        };
        for hold in &self.holds {
            if let Some((held, until)) = hold {
                if *held == come {
                    self.wait(*until);
                }
            }
        }
    }
}
