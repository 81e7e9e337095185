ghost use Rattle.std.specs.Prelude.{◌≢◌};
ghost use Rattle.ov_listen.specs.Pipes.{pipes_state};
ghost use Rattle.ov_listen.specs.Session.{EndsSession, server_over};

use crate::pipes::Pipes;
use ov_core::Core;
use ov_ends::{Clock, Sink, Source};
use ov_keeper::Keeper;
use ov_requests::Draws;
use ov_serve::serve_one;
use ov_words::{Ending, ending_of_cause, ending_of_step};
use std::alloc::Global;
use std::sync::Wait;

/// Serves one session of the machine over pipes, from the first byte of the input to its end, and returns how the program
/// ends: by the cause for which the session was closed. If it can't be opened, the ending is `Memory` if an allocation
/// failed and otherwise `Streams`, and nothing is read or written.
pub fn serve_pipes<R: Wait, K: Keeper + Drop, D: Draws + Drop, S: Source, W: Sink, C: Clock>(
    rt: &R,
    alloc: Global,
    core: &mut Core<K, D>,
    pipes: &mut Pipes<S, W, C>,
) -> Ending
    ensures session { EndsSession C.tells
        (server_over core.old (pipes_state S.Source W.Sink pipes.old)) result
        (server_over core.new (pipes_state S.Source W.Sink pipes.new)) }
    ensures kind { (result ≢ Ending.Arguments) × (result ≢ Ending.Schema) }
    ensures honest { K.is_honest core.new.keeper → K.is_honest core.old.keeper }
{
    match serve_one(
        rt,
        core,
        alloc,
        &mut pipes.reader,
        &mut pipes.writer,
        &mut pipes.clock,
    ) {
        Ok(cause) => ending_of_cause(cause),
        Err(fault) => ending_of_step(fault),
    }
}
