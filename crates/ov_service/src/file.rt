//! Sessions of the database in a file.
ghost use Rattle.sqlite_wal.specs.Files.{image_at};
ghost use Rattle.ov_listen.specs.Pipes.{pipes_state};
ghost use Rattle.ov_listen.specs.Environment.{environment_of};
ghost use Rattle.ov_service.specs.Files.{ClosesKept, EndsFile, EndsKept, EndsStore};

use crate::closing::closes_file;
use ov_ends::{Clock, Sink, Source};
use ov_files::{close_in_file, store_in_file};
use ov_keeper::{KeepFault, Keeper};
use ov_listen::{Ended, Offer, Pipes, Service, System, serve_offer};
use ov_requests::Draws;
use ov_store::Store;
use ov_words::{Ending, ending_of_keeping, ending_of_open};
use sqlite::{FileFrom, FileStore, Start};
use std::alloc::Global;

/// How the sessions of the database in a file ended.
#[derive(Drop)]
pub struct FileEnded {
    pub ending: Ending,
    /// What closing the file answered; None if it was not to be closed.
    pub closing: Option<Result<(), KeepFault>>,
}

/// Serves sessions of a store, if it could be opened, and returns how they ended and the machine that served them; or the
/// ending alone, if no machine was opened.
fn serve_store<R, K, D, S, W, C>(
    rt: &R,
    alloc: Global,
    store: Result<K, KeepFault>,
    offer: Offer<D>,
    pipes: &mut Pipes<S, W, C>,
) -> Result<Ended<K, D>, Ending>
where
    R: System,
    K: Keeper + Drop,
    D: Draws + Drop,
    S: Source,
    W: Sink,
    C: Clock,
    ensures { EndsStore (environment_of K.Keeper D.draws C.tells) store offer
        (pipes_state S.Source W.Sink pipes.old) result (pipes_state S.Source W.Sink pipes.new) }
{
    let keeper = match store {
        Ok(keeper) => keeper,
        Err(fault) => return Err(ending_of_keeping(fault)),
    };
    match serve_offer(rt, alloc, keeper, offer, pipes) {
        Ok(ended) => Ok(ended),
        Err(refused) => Err(ending_of_open(refused.fault)),
    }
}

/// How the sessions of a store ended, and the store if its file is to be closed after that.
#[derive(Drop)]
struct Kept<K> {
    ending: Ending,
    keeper: Option<K>,
}

/// Serves sessions of a store, and keeps the store if its file is to be closed. Else it is dropped, after the connections.
fn serve_kept<R, K, D, S, W, C>(
    rt: &R,
    alloc: Global,
    store: Result<K, KeepFault>,
    offer: Offer<D>,
    pipes: &mut Pipes<S, W, C>,
) -> Kept<K>
where
    R: System,
    K: Keeper + Drop,
    D: Draws + Drop,
    S: Source,
    W: Sink,
    C: Clock,
    ensures { EndsKept (environment_of K.Keeper D.draws C.tells) store offer
        (pipes_state S.Source W.Sink pipes.old) result.ending result.keeper
        (pipes_state S.Source W.Sink pipes.new) }
{
    match serve_store(rt, alloc, store, offer, pipes) {
        Ok(
            Ended {
                ending,
                core,
                ends: _,
            },
        ) => {
            let keeper = if closes_file(ending) {
                Some(core.into_keeper())
            } else {
                None
            };
            Kept { ending, keeper }
        }
        Err(ending) => Kept {
            ending,
            keeper: None,
        },
    }
}

/// Closes the file of a store that was kept.
fn close_kept<T: Start>(
    host: &HostRuntime,
    path: &str,
    keeper: Option<Store<FileStore<FileFrom<T>>>>,
) -> Option<Result<(), KeepFault>>
    ensures { ClosesKept keeper result }
{
    match keeper {
        Some(keeper) => Some(close_in_file(host, path, keeper)),
        None => None,
    }
}

/// Serves sessions of the database in the file at a path, as `serve_offer` does. `start` stands for what the file and its log
/// held. The connections are closed once all sessions have ended. After the ending `InputEnded` or `Streams`, even of a
/// server that could not listen, the file is then closed: it holds the whole database, with no log beside it, unless the
/// system refuses that. If the closing fails, nothing is lost: the file and its log belong together, as after a kill. If the
/// file is refused, nothing is read from the pipes or written to them, the server does not listen, and nothing is copied into
/// the file.
///
/// A refusal of the file is one of this path. But no contract ties a path to a file, so none says that the file which is opened
/// and closed is the one at the path.
pub fn serve_file<R, T, D, S, W, C>(
    host: &HostRuntime,
    rt: &R,
    path: &str,
    start: T,
    service: Service<D>,
    pipes: &mut Pipes<S, W, C>,
) -> FileEnded
where
    R: System,
    T: Start,
    D: Draws + Drop,
    S: Source,
    W: Sink,
    C: Clock,
    ensures { EndsFile (environment_of ⟦<Store<FileStore<FileFrom<T>>> as Keeper>⟧ D.draws C.tells)
        path.now (image_at T.Start) service (pipes_state S.Source W.Sink pipes.old) result
        (pipes_state S.Source W.Sink pipes.new) }
{
    let Service {
        schema,
        text,
        draws,
        endpoint,
    } = service;
    let store = store_in_file(host, path, text, start);
    let offer = Offer {
        schema,
        draws,
        endpoint,
    };
    let Kept { ending, keeper } = serve_kept(rt, host.alloc(), store, offer, pipes);
    let closing = close_kept(host, path, keeper);
    FileEnded { ending, closing }
}
