use crate::lookups::{Lookups, opened_from};
use crate::owning::OwnsOne;
use ov_db::{Db, Delta};
use ov_keeper::Keeper;
use ov_txn::{Ready, Replies, Tries, Txn, attempt};
use std::alloc::Global;
use std::test::Fail;
use test_basics::{Counter, Faults, NetKeeper, is_text, new_keeper, schema_of_text, trees};

/// Makes nothing ready.
#[derive(Drop)]
struct Unprepared;

impl<K: Keeper> Ready<K> for Unprepared {
    ghost readies = { λ old db delta replies ready new. Unit {0} };

    fn ready(&mut self, _db: &Db<K>, _delta: &Delta, _replies: Replies) -> bool {
        true
    }
}

/// A database, the keys of all rows that it has or had, and the index keys at which they stand or stood.
pub(crate) struct Looked {
    db: Db<NetKeeper>,
    draws: Counter,
    lookups: Lookups,
}

impl Drop for Looked {
    // A drop of its own, so that code that drops one need not prove the drops of all that it holds again.
    fn drop(self) {
        let Looked { db, draws, lookups } = self;
        drop(db);
        drop(draws);
        drop(lookups);
    }
}

impl Looked {
    /// A new database of the schema in a text, with counted draws.
    pub(crate) fn new(alloc: Global, schema: &str) -> Result<Looked, Fail> {
        let schema = schema_of_text(alloc, schema)?;
        let keeper = new_keeper(alloc, &schema, Faults::NONE)?;
        Ok(Looked {
            db: Db::open(alloc, keeper, schema)?,
            draws: Counter::new(),
            lookups: Lookups::new(alloc),
        })
    }

    /// Attempts a transaction.
    fn attempt(&mut self, alloc: Global, operations: &str) -> Result<(), Fail> {
        let txn = Txn::read(alloc, trees(alloc, operations)?, &mut self.draws)?;
        let mut tries = Tries::new();
        let owns = OwnsOne { lock: "mine" };
        attempt(
            alloc,
            &mut self.db,
            &txn,
            &owns,
            0,
            &mut tries,
            &mut Unprepared,
        );
        Ok(())
    }

    /// What the database reports for the keys, including those of the rows that it has now.
    pub(crate) fn told(&mut self, alloc: Global) -> Result<String, Fail> {
        self.lookups.add(alloc, self.db.schema(), self.db.rows())?;
        self.lookups.told(alloc, &self.db)
    }

    /// What a database that is opened from these rows reports for the keys.
    fn told_again(&self, alloc: Global) -> Result<String, Fail> {
        let db = opened_from(alloc, self.db.schema(), self.db.rows())?;
        self.lookups.told(alloc, &db)
    }

    /// Fails unless such a database reports this.
    fn tells_again(&self, alloc: Global, told: &str) -> Result<(), Fail> {
        let again = self.told_again(alloc)?;
        is_text(alloc, again.as_str(), told)
    }

    /// Attempts the transaction of a command. Fails unless both report the same afterwards.
    pub(crate) fn look(&mut self, alloc: Global, command: &str) -> Result<(), Fail> {
        let (_age, operations) = command.split_once(" ").ok_or("no age")?;
        self.attempt(alloc, operations)?;
        let told = self.told(alloc)?;
        self.tells_again(alloc, told.as_str())
    }
}

/// Fails unless, after each attempt of a script, a new database of this schema reports the same references and indexes as
/// when it is opened again.
pub(crate) fn looks(alloc: Global, schema: &str, script: &str) -> Result<(), Fail> {
    let mut looked = Looked::new(alloc, schema)?;
    for line in script.lines() {
        let (command, _answer) = line.split_once(" -> ").unwrap_or((line, ""));
        looked.look(alloc, command)?;
    }
    Ok(())
}
