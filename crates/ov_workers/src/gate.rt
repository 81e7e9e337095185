/// A point that a worker passes.
#[derive(Clone, Copy, Debug, PartialEq, Eq, Drop)]
pub enum Point {
    /// A reader is about to push its next item.
    BeforePush,
    /// A writer is about to write its next frame.
    BeforeWrite,
}

/// What the workers pass: once for each item before its first push, and once for each frame before its first write. A gate
/// that waits holds a worker there, so a test can choose who goes first. No contract says when a gate was passed.
pub trait Gate {
    /// Passes the point, for the session of this serial.
    fn pass(&self, serial: u64, point: Point);
}

/// A gate that lets all workers pass at once.
#[derive(Clone, Copy, Drop)]
pub struct FreeGate;

impl Gate for FreeGate {
    fn pass(&self, _serial: u64, _point: Point) {}
}
