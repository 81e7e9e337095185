//! Opening a machine over a keeper.

ghost use Rattle.std.specs.Prelude.{◌≡◌, [], IfOk, IfErr, None};
ghost use Rattle.ov_core.specs.Opening.{FindsAnother, OpensCore, OpensDatabase, RefusesCore};

use crate::machine::Core;
use ov_db::{Db, OpenFault, RefusedOpen};
use ov_history::History;
use ov_keeper::{KeepFault, Keeper};
use ov_live::Live;
use ov_requests::{Draws, Waiting};
use ov_schema::Schema;
use ov_sessions::Sessions;
use std::alloc::{AllocError, Global};

/// What a machine has beside its database: the history, the sessions and the waiting transactions, all empty.
#[derive(Drop)]
struct Places {
    history: History,
    sessions: Sessions,
    waiting: Waiting,
}

impl Places {
    /// Space for the 4,096 entries of the history, the serials of 64 sessions and 4,096 waiting transactions.
    fn new(alloc: Global) -> Result<Places, AllocError>
        ensures history { IfOk result (λ places. places.history ≡ []) }
        ensures sessions { IfOk result (λ places. places.sessions
            ≡ record { open_sessions = []; next = 1 }) }
        ensures waiting { IfOk result (λ places. places.waiting
            ≡ record { untried = []; outstanding = [] }) }
    {
        Ok(Places {
            history: History::new(alloc)?,
            sessions: Sessions::new(alloc)?,
            waiting: Waiting::new(alloc)?,
        })
    }
}

impl<K: Keeper + Drop, D: Draws + Drop> Core<K, D> {
    /// Opens a core on what the keeper holds, without history: no open session, last moment 0, next serial 1.
    ///
    /// Opens the database as `Db::open` does. Only if that is refused as `SchemaDiffers`, draws one identifier and converts the
    /// database to the schema as `Db::convert` does, in a commit with this identifier as its version: the schema must have the
    /// stored one's name and be newer (RFC 7047, 3.1, `<version>`; the conversion is this server's own). The keeper then holds
    /// the database in format 2; rows of format 1 are written anew.
    ///
    /// Refused as `Db::open` and `Db::convert` are; a failed allocation is the keeper's fault `Memory`. A refusal gives the
    /// keeper and the schema back, but not `draws`. The keeper then holds what it held before; only after its fault `Device`
    /// may it hold the database as written anew in format 2.
    #[tactic(auto, using(crate::proofs::Opening::no_memory))]
    pub fn open(
        alloc: Global,
        keeper: K,
        schema: Schema,
        draws: D,
    ) -> Result<Core<K, D>, RefusedOpen<K>>
        ensures opened { IfOk result (OpensCore K.Keeper D.draws keeper schema draws) }
        ensures refused { IfErr result (RefusesCore K.Keeper D.draws keeper schema draws) }
    {
        let Ok(places) = Places::new(alloc) else {
            return Err(RefusedOpen {
                fault: OpenFault::Keeping(KeepFault::Memory),
                keeper,
                schema,
            });
        };
        let (database, source) = open_database(alloc, keeper, schema, draws)?;
        database.shows_kept();
        database.shows_left();
        let Places {
            history,
            sessions,
            waiting,
        } = places;
        Ok(Core {
            live: Live::new(alloc, database, sessions, waiting),
            source,
            moment: 0,
            history,
            alloc,
        })
    }
}

/// Opens the database that a keeper holds; if that is refused as `SchemaDiffers`, draws an identifier and converts the
/// database. Returns the database and the source.
fn open_database<K: Keeper + Drop, D: Draws + Drop>(
    alloc: Global,
    keeper: K,
    schema: Schema,
    draws: D,
) -> Result<(Db<K>, D), RefusedOpen<K>>
    ensures opened { IfOk result
        (λ it. OpensDatabase K.Keeper D.draws keeper schema draws it.0 it.1) }
    ensures rest { IfOk result (λ it. (it.0.schema ≡ schema) × (it.0.sealed ≡ None)) }
    ensures refused { IfErr result (RefusesCore K.Keeper D.draws keeper schema draws) }
{
    let refused = match Db::open(alloc, keeper, schema) {
        Ok(database) => return Ok((database, draws)),
        Err(refused) => refused,
    };
    if refused.fault != OpenFault::SchemaDiffers {
        return Err(refused);
    }
    convert_database(alloc, refused.keeper, refused.schema, draws)
}

/// Draws an identifier, and converts the database that a keeper holds under another schema's text, in a commit with this
/// identifier as its version. Returns the database and the source.
fn convert_database<K: Keeper + Drop, D: Draws + Drop>(
    alloc: Global,
    keeper: K,
    schema: Schema,
    mut draws: D,
) -> Result<(Db<K>, D), RefusedOpen<K>>
    requires another { K.is_honest keeper → FindsAnother (K.leaves keeper) schema }
    ensures opened { IfOk result
        (λ it. OpensDatabase K.Keeper D.draws keeper schema draws it.0 it.1) }
    ensures rest { IfOk result (λ it. (it.0.schema ≡ schema) × (it.0.sealed ≡ None)) }
    ensures refused { IfErr result (RefusesCore K.Keeper D.draws keeper schema draws) }
{
    let version = draws.draw();
    match Db::convert(alloc, keeper, schema, version) {
        Ok(database) => Ok((database, draws)),
        Err(refused) => Err(refused),
    }
}
