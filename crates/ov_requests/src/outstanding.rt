ghost use Rattle.std.specs.Prelude.{◌≡◌, ◌-◌, IfOk};
ghost use Rattle.ov_specs.specs.machine.Machine.{timeout_of};
ghost use Rattle.ov_requests.specs.Waiting.{has_text};

use crate::txn::Txn;
use ov_base::{Bytes, Tree};
use std::alloc::{AllocError, Global};
use std::marker::Model;

/// A waiting transaction (RFC 7047, 4.1.3).
#[derive(Drop)]
pub struct Outstanding {
    session: u64,
    id: Tree,
    /// The text of the id, which distinguishes it from others.
    text: Bytes,
    txn: Txn,
    arrival: u64,
    timeout: Option<u64>,
}

impl Model for Outstanding {
    ghost use Rattle.std.specs.Prelude.{◌≡◌};
    ghost use Rattle.std.specs.Coded.{codes};
    ghost use Rattle.serde_json.specs.Written.{compact_text};
    ghost use Rattle.ov_specs.specs.codes.TreeCode.{tree_code, items_code};
    ghost use Rattle.ov_specs.specs.machine.Machine as machine;

    ghost Value = { machine.Outstanding };

    ghost coded = { Prim.hlevel (codes, tree_code, items_code) };

    ghost view = { λ o. record {
      session = o.session;
      id = o.id;
      draws = o.txn.draws;
      operations = o.txn.operations;
      arrival = o.arrival;
      timeout = o.timeout;
    } };

    ghost invariant = { λ o. o.text ≡ compact_text o.id };
}

impl Outstanding {
    /// A transaction of a session, which arrived at a moment and is blocked by a wait with this timeout.
    pub fn new(
        alloc: Global,
        session: u64,
        id: Tree,
        txn: Txn,
        arrival: u64,
        timeout: Option<u64>,
    ) -> Result<Outstanding, AllocError>
        ensures { IfOk result (λ o. o
            ≡ record {
              session = session;
              id = id;
              draws = txn.draws;
              operations = txn.operations;
              arrival = arrival;
              timeout = timeout;
            }) }
    {
        let text = id.to_bytes(alloc)?;
        Ok(Outstanding {
            session,
            id,
            text,
            txn,
            arrival,
            timeout,
        })
    }

    /// The serial of its session.
    pub fn session(&self) -> u64
        ensures { result ≡ self.now.session }
    {
        self.session
    }

    /// The id for its reply.
    pub fn id(&self) -> &Tree
        ensures { result.now ≡ self.now.id }
    {
        &self.id
    }

    /// The transaction, to be tried again.
    pub fn txn(&self) -> &Txn
        ensures draws { result.now.draws ≡ self.now.draws }
        ensures operations { result.now.operations ≡ self.now.operations }
    {
        &self.txn
    }

    /// Its age at a moment, in milliseconds.
    pub fn age(&self, moment: u64) -> u64
        ensures { result ≡ moment - self.now.arrival }
    {
        moment.saturating_sub(self.arrival)
    }

    /// Whether it belongs to the session and its id has this text.
    pub fn has_text(&self, session: u64, text: &[u8]) -> bool
        ensures { result ≡ has_text session text.now self.now }
    {
        self.session == session && self.text.as_slice() == text
    }

    /// When it times out; `None` if it never does (RFC 7047, 5.2.6).
    pub fn times_out(&self) -> Option<u64>
        ensures { result ≡ timeout_of self.now }
    {
        match self.timeout {
            Some(timeout) => self.arrival.checked_add(timeout),
            None => None,
        }
    }

    /// Blocks it again, by a wait with this timeout.
    pub fn wait_on(&mut self, timeout: Option<u64>)
        ensures { self.new ≡ record self.old { timeout = timeout } }
    {
        self.timeout = timeout;
    }
}
