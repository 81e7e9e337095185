//! Where sessions of the database that a keeper holds are served.

ghost use Rattle.std.specs.Prelude.{◌≡◌, IfOk, IfErr, OnErr};
ghost use Rattle.ov_listen.specs.Pipes.{pipes_state};
ghost use Rattle.ov_listen.specs.Session.{server_over};
ghost use Rattle.ov_listen.specs.Environment.{environment_of};
ghost use Rattle.ov_listen.specs.Offers.{EndsAt, RefusesOffer, ServesOffer};

use crate::address::serve_at;
use crate::pipes::Pipes;
use crate::session::serve_pipes;
use crate::system::System;
use ov_base::Text;
use ov_core::{Core, Schema};
use ov_db::RefusedOpen;
use ov_ends::{Clock, Sink, Source};
use ov_hall::End;
use ov_keeper::Keeper;
use ov_requests::Draws;
use ov_sockets::{ClientReader, ClientWriter};
use ov_words::Ending;
use std::alloc::Global;
use std::collections::VecDeque;

/// Where sessions are served.
#[derive(Drop)]
pub enum Endpoint {
    /// One session, over the pipes.
    Pipes,
    /// Sessions over the connections at an address, HOST:PORT: over this many, or with every client if no number is given.
    Address(Text, Option<usize>),
}

/// What is offered of the database that a keeper holds.
#[derive(Drop)]
pub struct Offer<D> {
    /// The schema.
    pub schema: Schema,
    /// Where new identifiers come from.
    pub draws: D,
    /// Where sessions are served.
    pub endpoint: Endpoint,
}

/// How sessions ended, and the machine that served them.
#[derive(Drop)]
pub struct Ended<K: Keeper, D: Draws> {
    pub ending: Ending,
    pub core: Core<K, D>,
    /// What remains of each connection if a number of them was served, in their order; else empty. A connection is closed
    /// when what remains of it is dropped.
    pub ends: VecDeque<End<ClientReader, ClientWriter>>,
}

/// Opens the machine with the schema over what the keeper holds, as `Core::open` does, and serves its sessions: one over the
/// pipes, as `serve_pipes` does, or those at an address, as `serve_at` does, by the clock of the pipes. If `Core::open`
/// refuses, returns its refusal; then nothing is read from the pipes or written to them, and the server does not listen.
pub fn serve_offer<R, K, D, S, W, C>(
    rt: &R,
    alloc: Global,
    keeper: K,
    offer: Offer<D>,
    pipes: &mut Pipes<S, W, C>,
) -> Result<Ended<K, D>, RefusedOpen<K>>
where
    R: System,
    K: Keeper + Drop,
    D: Draws + Drop,
    S: Source,
    W: Sink,
    C: Clock,
    ensures served { IfOk result
        (λ ended. ServesOffer (environment_of K.Keeper D.draws C.tells) keeper offer
        (pipes_state S.Source W.Sink pipes.old) ended (pipes_state S.Source W.Sink pipes.new)) }
    ensures refused { IfErr result
        (λ refused. RefusesOffer (environment_of K.Keeper D.draws C.tells) keeper offer refused) }
    ensures untouched { OnErr result (pipes.new ≡ pipes.old) }
{
    let Offer {
        schema,
        draws,
        endpoint,
    } = offer;
    match Core::open(alloc, keeper, schema, draws) {
        Ok(core) => {
            let ended = serve_core(rt, alloc, core, endpoint, pipes);
            ended.core.shows_left();
            ended.core.shows_would_open();
            Ok(ended)
        }
        Err(refused) => Err(refused),
    }
}

/// Serves sessions of the machine at the endpoint.
fn serve_core<R, K, D, S, W, C>(
    rt: &R,
    alloc: Global,
    core: Core<K, D>,
    endpoint: Endpoint,
    pipes: &mut Pipes<S, W, C>,
) -> Ended<K, D>
where
    R: System,
    K: Keeper + Drop,
    D: Draws + Drop,
    S: Source,
    W: Sink,
    C: Clock,
    ensures ends { EndsAt C.tells endpoint
        (server_over core (pipes_state S.Source W.Sink pipes.old)) result.ending
        (server_over result.core (pipes_state S.Source W.Sink pipes.new)) result.ends.items }
    ensures honest { K.is_honest result.core.keeper → K.is_honest core.keeper }
{
    match endpoint {
        Endpoint::Pipes => {
            let mut core = core;
            let ending = serve_pipes(rt, alloc, &mut core, pipes);
            Ended {
                ending,
                core,
                ends: VecDeque::new(alloc),
            }
        }
        Endpoint::Address(address, count) => {
            serve_at(rt, alloc, core, address.as_str(), count, &mut pipes.clock)
        }
    }
}
