ghost use Rattle.std.specs.Prelude.{◌≡◌, ◌⊎◌, ◌<◌, ◌≤◌, ◌-◌, ◌^◌, IsTrue};
ghost use Rattle.sqlite.specs.State.{HasCleanDisk};
ghost use Rattle.sqlite.specs.Held.{state};
ghost use Rattle.ov_specs.specs.rows.Cells.{format_of};
ghost use Rattle.ov_keeper.specs.Keeping.{HasFailed, IsCommitFault};
ghost use Rattle.ov_tables.specs.Format.{stored_in};
ghost use Rattle.ov_store.specs.StoreState.{StoreState, store_code, IsAtRest, MayFind};

use ov_keeper::{KeepFault, Loaded};
use sqlite::{Alter, Connection};
use std::marker::Model;

/// The schema's text and the rows, in the tables of a stored format, over a connection. The format is 1 or 2.
pub struct Store<S: Alter> {
    pub(crate) connection: Connection<S>,
    pub(crate) format: u8,
    pub(crate) failures: u64,
    /// What the opening read, until it is loaded or changed.
    pub(crate) read: Option<Loaded>,
}

impl<S: Alter> Model for Store<S> {
    ghost use Rattle.ov_store.specs.StoreState.{StoreState, store_code, IsAtRest};

    ghost Value = { StoreState S };

    ghost coded = { store_code S.code };

    ghost view = { λ s. record {
      connection = s.connection;
      format = s.format;
      failures = s.failures;
    } };

    ghost invariant = { λ s. IsAtRest S.Store s.connection s.format s.read };
}

impl<S: Alter + Drop> Drop for Store<S> {
    // Has its own `drop`, so that crates above do not prove the drop of its parts again.
    fn drop(self) {
        let Store {
            connection,
            format: _,
            failures: _,
            read: _,
        } = self;
        drop(connection);
    }
}

impl<S: Alter> Store<S> {
    /// How often the device has failed since the store was opened. The count stays at 2^64-1.
    pub fn failures(&self) -> u64
        ensures { result ≡ self.now.failures }
    {
        self.failures
    }

    /// The stored format: 1 or 2. What an open finds is of this format, or of a later one if the device failed in a rewrite
    /// of format 1.
    pub fn format(&self) -> u8
        ensures same { result ≡ self.now.format }
        ensures kinds { (result ≡ 1) ⊎ (result ≡ 2) }
        ensures found { HasCleanDisk (state S.Store self.now.connection) → (contents : _)
            → MayFind S.Store self.now.connection contents → result ≤ format_of contents.lines }
    {
        self.format
    }

    /// Counts a failure of the device.
    pub(crate) fn count_failure(&mut self) -> KeepFault
        ensures fault { result ≡ KeepFault.Device }
        ensures kind { IsCommitFault result }
        ensures same { self.new.connection ≡ self.old.connection }
        ensures same_format { self.new.format ≡ self.old.format }
        ensures count { HasFailed self.old.failures self.new.failures }
        ensures rises { self.old.failures ≤ self.new.failures }
    {
        self.failures = self.failures.saturating_add(1);
        KeepFault::Device
    }
}

impl<S: Alter + Drop> Store<S> {
    /// Returns the connection. While it is open, an open finds its last commit.
    pub fn close(self) -> Connection<S>
        ensures same { result ≡ self.connection }
        ensures found { IsTrue (state S.Store self.connection).is_open
            → (contents : _) → MayFind S.Store self.connection contents
            → contents ≡ stored_in (state S.Store self.connection).committed.trees }
    {
        let Store {
            connection,
            format: _,
            failures: _,
            read: _,
        } = self;
        connection
    }
}
