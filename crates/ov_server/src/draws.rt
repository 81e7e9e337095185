use ov_requests::Draws;
use rand::make_rng;
use rand::rngs::StdRng;
use rand_core::Rng;
use std::io;
use std::random::RandomSource;
use uuid::Uuid;

/// Random identifiers (RFC 4122, 4.4), each from sixteen bytes of a generator.
#[derive(Drop)]
pub struct RandomDraws<G> {
    generator: G,
}

impl RandomDraws<StdRng> {
    /// Identifiers from a generator that the runtime seeds.
    pub fn seeded(rt: &impl RandomSource) -> io::Result<RandomDraws<StdRng>> {
        Ok(RandomDraws {
            generator: make_rng(rt)?,
        })
    }
}

impl<G: Rng> Draws for RandomDraws<G> {
    ghost use Rattle.std.specs.Prelude.{◌≡◌};
    ghost use Rattle.rand_core.specs.Stream.{fill_bytes};
    ghost use Rattle.uuid.specs.Parts.{v4_of_fill};

    ghost draws = { λ old id new.
        (id, G.stream new.generator) ≡ v4_of_fill (fill_bytes 16 (G.stream old.generator)) };

    fn draw(&mut self) -> Uuid {
        Uuid::new_v4(&mut self.generator)
    }
}
