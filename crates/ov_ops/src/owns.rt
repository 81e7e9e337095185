ghost use Rattle.std.specs.Prelude.{◌≡◌, ℕ, List, Bool};

/// Answers which locks the asking session owns, while its transaction is tried (RFC 7047, 4.1.8).
pub trait Owns {
    /// By its state and the bytes of the lock's name.
    ghost owned: { Self → List ℕ → Bool };

    /// Whether the session owns the lock of this name. Allocates nothing.
    fn owns(&self, lock: &str) -> bool
        ensures { result ≡ owned self.now lock.now };
}
