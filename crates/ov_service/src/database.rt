//! Sessions of a database in memory, or of the one in a file.

ghost use Rattle.std.specs.Prelude.{◌≡◌, IfNone, IfSome};
ghost use Rattle.sqlite_wal.specs.Files.{image_at};
ghost use Rattle.ov_listen.specs.Pipes.{pipes_state};
ghost use Rattle.ov_listen.specs.Memory.{EndsMemory};
ghost use Rattle.ov_listen.specs.Environment.{environment_of};
ghost use Rattle.ov_service.specs.Databases.{IsInFile, IsInMemory, ending_of};
ghost use Rattle.ov_service.specs.Files.{EndsFile};

use crate::file::{FileEnded, serve_file};
use ov_base::Text;
use ov_ends::{Clock, Sink, Source};
use ov_keeper::{Keeper, VolatileKeeper};
use ov_listen::{MemoryEnded, Pipes, Service, System, serve_memory};
use ov_requests::Draws;
use ov_store::Store;
use ov_words::{Ending, ending_of_open};
use sqlite::{FileFrom, FileStore, Start};

/// How the sessions of a database ended.
#[derive(Drop)]
pub enum DatabaseEnded<D: Draws> {
    /// The database was in memory.
    Memory(MemoryEnded<D>),
    /// It was in a file.
    File(FileEnded),
}

impl<D: Draws> DatabaseEnded<D> {
    /// How the program ends then.
    pub fn ending(&self) -> Ending
        ensures { result ≡ ending_of self.now }
    {
        match self {
            DatabaseEnded::Memory(Ok(ended)) => ended.ending,
            DatabaseEnded::Memory(Err(refused)) => ending_of_open(refused.fault),
            DatabaseEnded::File(ended) => ended.ending,
        }
    }
}

/// Serves sessions of the database in the file at a path, as `serve_file` does; if there is no path, of a new one in memory, as
/// `serve_memory` does.
pub fn serve_database<R, T, D, S, W, C>(
    host: &HostRuntime,
    rt: &R,
    path: Option<Text>,
    start: T,
    service: Service<D>,
    pipes: &mut Pipes<S, W, C>,
) -> DatabaseEnded<D>
where
    R: System,
    T: Start,
    D: Draws + Drop,
    S: Source,
    W: Sink,
    C: Clock,
    ensures memory { IfNone path
        (IsInMemory result
        (λ ended. EndsMemory (environment_of ⟦<VolatileKeeper as Keeper>⟧ D.draws C.tells) service
        (pipes_state S.Source W.Sink pipes.old) ended (pipes_state S.Source W.Sink pipes.new))) }
    ensures file { IfSome path
        (λ at. IsInFile result
        (λ ended. EndsFile
        (environment_of ⟦<Store<FileStore<FileFrom<T>>> as Keeper>⟧ D.draws C.tells)
        at (image_at T.Start) service
        (pipes_state S.Source W.Sink pipes.old) ended (pipes_state S.Source W.Sink pipes.new))) }
{
    match path {
        None => DatabaseEnded::Memory(serve_memory(rt, host.alloc(), service, pipes)),
        Some(path) => {
            let served = serve_file(host, rt, path.as_str(), start, service, pipes);
            DatabaseEnded::File(served)
        }
    }
}
