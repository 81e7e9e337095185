//! From the program's arguments to the database that it serves.

ghost use Rattle.std.specs.Prelude.{◌≡◌, ◌≢◌, ◌⊎◌, Err, IfOk, IfErr, IfNone, None, OnErr, map};
ghost use Rattle.sqlite_wal.specs.Files.{image_at};
ghost use Rattle.ov_words.specs.Words.{settings_of};
ghost use Rattle.ov_listen.specs.Pipes.{pipes_state};
ghost use Rattle.ov_listen.specs.Environment.{environment_of};
ghost use Rattle.ov_server.specs.Running.{IsServiceAsked, RunsDatabase, by_lacking_words, endpoint_of};
ghost use Rattle.ov_server.specs.Schemas.{IsBuiltIn};

use crate::database::built_in_schema;
use crate::draws::RandomDraws;
use ov_base::Text;
use ov_core::Schema;
use ov_ends::{Clock, Sink, Source};
use ov_keeper::{Keeper, VolatileKeeper};
use ov_listen::{Endpoint, Pipes, Service};
use ov_requests::Draws;
use ov_schema::text_of;
use ov_schema_text::read_schema;
use ov_service::{DatabaseEnded, serve_database};
use ov_store::Store;
use ov_words::{Ending, Settings, ending_of_schema, ending_of_words, read_words};
use rand::rngs::StdRng;
use sqlite::{FileFrom, FileStore, Start};
use std::alloc::Global;
use std::convert::AsStr;
use std::env;
use std::env::Env;
use std::io::ErrorKind;
use std::net::{Net, TcpListener, TcpStream};
use std::random::RandomSource;
use std::rt::{Clock as SystemClock, Files};
use std::sync::Wait;
use std::thread::Threads;

/// How the program ends if the system gives no arguments, for an error of this kind: for example, one is not UTF-8.
fn ending_without_words(kind: ErrorKind) -> Ending
    ensures { result ≡ by_lacking_words kind }
{
    match kind {
        ErrorKind::OutOfMemory => Ending::Memory,
        _ => Ending::Arguments,
    }
}

/// The program's arguments, the first of which is its name. No contract says what they are: the kit names none. Returns
/// `Memory` if an allocation fails, and `Arguments` if the system gives none, for example because one is not UTF-8.
pub fn words_of<R: Env + AllocGlobal>(rt: &R) -> Result<Vec<String>, Ending>
    ensures { IfErr result (λ ending. (ending ≡ Ending.Memory) ⊎ (ending ≡ Ending.Arguments)) }
{
    let mut words = Vec::new(rt.alloc());
    match env::args(rt) {
        Ok(all) => {
            for word in all {
                if words.push(word).is_err() {
                    return Err(Ending::Memory);
                }
            }
        }
        Err(error) => return Err(ending_without_words(error.kind())),
    }
    Ok(words)
}

/// Where the arguments ask for sessions: at an address, or over the pipes.
fn endpoint_of(listen: Option<Text>, sessions: Option<u64>) -> Endpoint
    ensures { result ≡ endpoint_of listen sessions }
{
    match listen {
        None => Endpoint::Pipes,
        Some(address) => Endpoint::Address(address, sessions.map(|count| count as usize)),
    }
}

/// The schema of a file, or the program's own if none is named. No contract says what a file holds.
fn schema_of<R: Files>(rt: &R, alloc: Global, file: Option<Text>) -> Result<Schema, Ending>
    ensures own { IfNone file (IfOk result IsBuiltIn) }
    ensures kinds { IfErr result (λ ending. (ending ≡ Ending.Memory) ⊎ (ending ≡ Ending.Schema)) }
{
    let schema = match file {
        Some(path) => read_schema(rt, alloc, path.as_str()),
        None => built_in_schema(alloc),
    };
    match schema {
        Ok(schema) => Ok(schema),
        Err(fault) => Err(ending_of_schema(fault)),
    }
}

/// What the settings ask for besides the database's file.
fn service_of<R: RandomSource, F: Files>(
    host: &F,
    rt: &R,
    alloc: Global,
    schema: Option<Text>,
    endpoint: Endpoint,
) -> Result<Service<RandomDraws<StdRng>>, Ending>
    ensures asked { IfOk result (λ service. IsServiceAsked schema endpoint service) }
    ensures kinds { IfErr result (λ ending. (ending ≡ Ending.Memory)
        ⊎ ((ending ≡ Ending.Schema) ⊎ (ending ≡ Ending.Database))) }
{
    let schema = match schema_of(host, alloc, schema) {
        Ok(schema) => schema,
        Err(ending) => return Err(ending),
    };
    let Ok(text) = text_of(alloc, &schema) else {
        return Err(Ending::Memory);
    };
    let Ok(draws) = RandomDraws::seeded(rt) else {
        return Err(Ending::Database);
    };
    Ok(Service {
        schema,
        text,
        draws,
        endpoint,
    })
}

/// Runs the program on its arguments, the first of which is its name, and returns how the sessions of its database ended, or
/// that it was not opened. If the arguments, the schema, or memory or random bytes for the start are refused, returns how the
/// program ends, and the pipes are not used. Faults are looked for in the arguments, then in the schema, then in the database,
/// and then at the address. `start` stands for what the database's file and its log hold.
pub fn run<R, A, T, S, W, C>(
    host: &HostRuntime,
    rt: &R,
    words: &[A],
    start: T,
    pipes: &mut Pipes<S, W, C>,
) -> Result<DatabaseEnded<RandomDraws<StdRng>>, Ending>
where
    R: Net<Listener = TcpListener, Stream = TcpStream>
        + Threads
        + Wait
        + RandomSource
        + SystemClock
        + Eprint
        + Sync,
    A: AsStr,
    T: Start,
    S: Source,
    W: Sink,
    C: Clock,
    ensures served { IfOk result
        (λ ended. RunsDatabase
        (environment_of ⟦<VolatileKeeper as Keeper>⟧ ⟦<RandomDraws<StdRng> as Draws>⟧.draws C.tells)
        (environment_of ⟦<Store<FileStore<FileFrom<T>>> as Keeper>⟧
        ⟦<RandomDraws<StdRng> as Draws>⟧.draws C.tells)
        (record {
          words = map A.text words.now;
          image = image_at T.Start;
          pipes = pipes_state S.Source W.Sink pipes.old;
        }) ended
        (pipes_state S.Source W.Sink pipes.new)) }
    ensures untouched { OnErr result (pipes.new ≡ pipes.old) }
    ensures kinds { IfErr result (λ ending. (ending ≢ Ending.InputEnded)
        × (ending ≢ Ending.Streams)) }
    ensures arguments { result ≡ Err Ending.Arguments → settings_of (map A.text words.now) ≡ None }
    ensures refused { IfErr result (λ ending. settings_of (map A.text words.now) ≡ None
        → (ending ≡ Ending.Arguments) ⊎ (ending ≡ Ending.Memory)) }
{
    let settings = match read_words(host.alloc(), words) {
        Ok(settings) => settings,
        Err(fault) => return Err(ending_of_words(fault)),
    };
    let Settings {
        schema,
        db,
        listen,
        sessions,
        is_on_streams: _,
    } = settings;
    let endpoint = endpoint_of(listen, sessions);
    match service_of(host, rt, host.alloc(), schema, endpoint) {
        Ok(service) => Ok(serve_database(host, rt, db, start, service, pipes)),
        Err(ending) => Err(ending),
    }
}
