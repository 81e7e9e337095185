use ov_requests::Draws;
use uuid::Uuid;

/// Draws the identifiers `00000000-0000-4000-8000-000000000001`, `..02` and so on.
#[derive(Drop)]
pub struct Counter {
    drawn: u64,
}

impl Counter {
    /// Nothing has been drawn yet.
    pub fn new() -> Counter {
        Counter::after(0)
    }

    /// This many have been drawn.
    pub fn after(drawn: u64) -> Counter {
        Counter { drawn }
    }
}

impl Draws for Counter {
    ghost draws = { λ _ _ _. Unit {0} };

    fn draw(&mut self) -> Uuid {
        self.drawn = self.drawn.saturating_add(1);
        Uuid::from_u128(0x4000_8000_0000_0000_0000 | self.drawn as u128)
    }
}
