ghost use Rattle.std.specs.Prelude.{◌≡◌, [], false, IfOk};
ghost use Rattle.std.specs.Io.Buffered.{writer_capacity};
ghost use Rattle.ov_ends.specs.States.{source_of, source_state, sink_of, sink_state};

use crate::clock::MonotonicClock;
use ov_ends::{Sink, Source, Watched};
use std::alloc::{AllocError, Global};
use std::io::{BufWriter, Read, Write};
use std::rt::Clock as SystemClock;

/// What one session is served over.
#[derive(Drop)]
pub struct Pipes<S, W, C> {
    /// What comes.
    pub reader: S,
    /// What is sent.
    pub writer: W,
    /// The moments, in milliseconds.
    pub clock: C,
}

/// The pipes over a reader and a writer of std that were not used yet, and a clock that begins at 0. The writer buffers up
/// to 8,192 bytes, until a flush.
pub fn pipes_over<'a, R: SystemClock, I: Read + Drop, O: Write + Drop>(
    rt: &'a R,
    alloc: Global,
    input: I,
    output: O,
) -> Result<Pipes<Watched<I>, Watched<BufWriter<O>>, MonotonicClock<'a, R>>, AllocError>
    ensures reader { IfOk result (λ pipes. source_of ⟦<Watched<I> as Source>⟧ pipes.reader
        ≡ source_state [] (I.remaining input) false 0) }
    ensures writer { IfOk result (λ pipes. sink_of ⟦<Watched<BufWriter<O>> as Sink>⟧ pipes.writer
        ≡ sink_state [] (O.contents output) false 0) }
    ensures buffer { IfOk result (λ pipes. writer_capacity pipes.writer.inner ≡ 8192) }
    ensures clock { IfOk result (λ pipes. pipes.clock.last ≡ 0) }
{
    let Ok(output) = BufWriter::new(alloc, output) else {
        return Err(AllocError);
    };
    Ok(Pipes {
        reader: Watched::new(input),
        writer: Watched::new(output),
        clock: MonotonicClock::new(rt),
    })
}
