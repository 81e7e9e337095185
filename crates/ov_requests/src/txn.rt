ghost use Rattle.std.specs.Prelude.{◌≡◌, length, true, IfOk, OnErr};
ghost use Rattle.std.specs.List.{list_all};
ghost use Rattle.ov_specs.specs.operations.Draws.{draws_wanted};
ghost use Rattle.ov_specs.specs.values.Uuid.{is_uuid};
ghost use Rattle.ov_requests.specs.Drawing.{DrawsFrom};

use crate::draws::{Draws, are_uuids, draws_for};
use ov_base::Trees;
use std::alloc::{AllocError, Global};
use std::marker::Model;
use uuid::Uuid;

/// A transaction that has been read: its operations, and the identifiers drawn for it. It may be tried more than once, each
/// time with the same identifiers.
#[derive(Drop)]
pub struct Txn {
    draws: Vec<Uuid>,
    operations: Trees,
}

impl Model for Txn {
    ghost use Rattle.ov_requests.specs.Reading as reading;
    ghost use Rattle.ov_requests.specs.Reading.{txn_code};

    ghost Value = { reading.Txn };

    ghost coded = { txn_code };

    ghost view = { λ t. record { draws = t.draws.items; operations = t.operations } };
}

impl Txn {
    /// Creates a transaction of these operations, not copied, and draws for it: the version of the rows that it changes, then
    /// an identifier for each operation that is an object whose `op` is `insert`, even for one that will be refused (RFC
    /// 7047, 5.2.1, which sets no order). If an allocation fails, nothing has been drawn.
    pub fn read<D: Draws>(
        alloc: Global,
        operations: Trees,
        source: &mut D,
    ) -> Result<Txn, AllocError>
        ensures operations { IfOk result (λ txn. txn.operations ≡ operations) }
        ensures count { IfOk result (λ txn. length txn.draws ≡ draws_wanted operations) }
        ensures drawn { IfOk result (λ txn. DrawsFrom D.draws source.old txn.draws source.new) }
        ensures uuids { IfOk result (λ txn. list_all is_uuid txn.draws ≡ true) }
        ensures err { OnErr result (source.new ≡ source.old) }
    {
        let draws = draws_for(alloc, &operations, source)?;
        are_uuids(draws.as_slice());
        Ok(Txn { draws, operations })
    }

    /// The identifiers that were drawn, in order, the version first.
    pub fn draws(&self) -> &[Uuid]
        ensures { result.now ≡ self.now.draws }
    {
        self.draws.as_slice()
    }

    /// Gives up the transaction, and returns the identifiers drawn for it.
    pub fn into_draws(self) -> Vec<Uuid>
        ensures { result.items ≡ self.draws }
    {
        let Txn {
            draws,
            operations: _,
        } = self;
        draws
    }

    /// Its operations.
    pub fn operations(&self) -> &Trees
        ensures { result.now ≡ self.now.operations }
    {
        &self.operations
    }
}
