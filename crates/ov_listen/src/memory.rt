//! Sessions of a new database in memory.

ghost use Rattle.ov_listen.specs.Pipes.{pipes_state};
ghost use Rattle.ov_listen.specs.Memory.{EndsMemory};
ghost use Rattle.ov_listen.specs.Environment.{environment_of};

use crate::endpoint::{Ended, Endpoint, Offer, serve_offer};
use crate::pipes::Pipes;
use crate::system::System;
use ov_base::Text;
use ov_core::Schema;
use ov_db::RefusedOpen;
use ov_ends::{Clock, Sink, Source};
use ov_keeper::{Keeper, VolatileKeeper};
use ov_requests::Draws;
use std::alloc::Global;

/// What is served of a database, and where.
#[derive(Drop)]
pub struct Service<D> {
    /// The schema.
    pub schema: Schema,
    /// The schema's text.
    pub text: Text,
    /// Where new identifiers come from.
    pub draws: D,
    /// Where sessions are served.
    pub endpoint: Endpoint,
}

/// How the sessions of a database in memory ended, or why it was not opened.
pub type MemoryEnded<D> = Result<Ended<VolatileKeeper, D>, RefusedOpen<VolatileKeeper>>;

/// Serves sessions of a new database in memory, as `serve_offer` does. There is no device below it, so what is promised of an
/// honest device needs no premise here.
pub fn serve_memory<R, D, S, W, C>(
    rt: &R,
    alloc: Global,
    service: Service<D>,
    pipes: &mut Pipes<S, W, C>,
) -> MemoryEnded<D>
where
    R: System,
    D: Draws + Drop,
    S: Source,
    W: Sink,
    C: Clock,
    ensures ends { EndsMemory (environment_of ⟦<VolatileKeeper as Keeper>⟧ D.draws C.tells) service
        (pipes_state S.Source W.Sink pipes.old) result (pipes_state S.Source W.Sink pipes.new) }
    ensures honest { (keeper : _) → ⟦<VolatileKeeper as Keeper>⟧.is_honest keeper }
{
    let Service {
        schema,
        text,
        draws,
        endpoint,
    } = service;
    serve_offer(
        rt,
        alloc,
        VolatileKeeper::new(text),
        Offer {
            schema,
            draws,
            endpoint,
        },
        pipes,
    )
}
