use std::sync::atomic::{AtomicBool, Ordering};
use std::sync::{Condvar, Mutex, Wait};
use std::thread;

/// How often a waiting thread looks before it sleeps, yielding after each look: less than a tenth of a millisecond of a
/// processor that nobody else wants. When requests come one after another, the next one comes meanwhile, and no thread has
/// to be woken for it.
pub(crate) const LOOKS: u32 = 256;

/// A bell that the desk rings for a writer after it pushed something into the writer's ring. A ring of the bell is kept
/// until it is waited for, so none that comes before the wait is lost; several that come before it count as one.
///
/// No contract can say what another thread finds under the lock. So no call here says whether the bell was rung: the waiting
/// thread looks into its ring again, and finds something there or waits once more.
///
/// Beside the bell is a flag by which the writer's thread says that it is about to end. The flag is only a hint, for the same
/// reason: a thread that joins the writer's because of it may wait a little.
#[derive(Drop)]
pub struct Bell {
    rung: Mutex<bool>,
    changed: Condvar,
    is_over: AtomicBool,
}

impl Bell {
    /// A bell that was not rung yet, and whose writer's thread has not said that it is about to end.
    pub fn new() -> Bell {
        Bell {
            rung: Mutex::new(false),
            changed: Condvar::new(),
            is_over: AtomicBool::new(false),
        }
    }

    /// Rings it, and wakes the thread that waits for it. Call it after each push into the ring, the end mark's too.
    pub fn ring<R: Wait>(&self, rt: &R) {
        {
            let mut rung = self.rung.lock(rt);
            *rung = true;
        }
        self.changed.notify_all();
    }

    /// Returns whether it was rung since the last wait, and resets that.
    fn take_ring<R: Wait>(&self, rt: &R) -> bool {
        let mut rung = self.rung.lock(rt);
        let was_rung = *rung;
        *rung = false;
        was_rung
    }

    /// Whether it is rung while the thread looks at it.
    fn is_rung_soon<R: Wait>(&self, rt: &R) -> bool {
        for _ in 0..LOOKS {
            if self.take_ring(rt) {
                return true;
            }
            thread::yield_now();
        }
        false
    }

    /// Waits until it was rung since the last wait, and resets that. Looks at it for a while before the thread sleeps.
    pub fn wait<R: Wait>(&self, rt: &R) {
        if self.is_rung_soon(rt) {
            return;
        }
        let guard = self.rung.lock(rt);
        let mut rung = self.changed.wait_while(rt, guard, |rung| !*rung);
        *rung = false;
    }

    /// Says that the writer's thread is about to end.
    pub fn say_over(&self) {
        self.is_over.store(true, Ordering::SeqCst);
    }

    /// Whether the writer's thread has said that it is about to end, since the bell was made or renewed. Only a hint.
    pub fn is_over(&self) -> bool {
        self.is_over.load(Ordering::SeqCst)
    }

    /// Unsets what the writer's thread said. Call it after that thread was joined, and before the bell is used for the next
    /// session at the same place.
    pub fn renew(&self) {
        self.is_over.store(false, Ordering::SeqCst);
    }
}
