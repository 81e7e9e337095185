use crate::store::Store;
use ov_base::Text;
use ov_keeper::{Change, KeepFault, Keeper, Loaded};
use sqlite::Alter;
use std::alloc::Global;

impl<S: Alter> Keeper for Store<S> {
    ghost use Rattle.sqlite.specs.State.{HasCleanDisk};
    ghost use Rattle.sqlite.specs.Held.{state};
    ghost use Rattle.ov_store.specs.StoreState.{MayFind};
    ghost use Rattle.ov_store.specs.SomeHeld.{some_held};

    ghost is_honest = { λ s. HasCleanDisk (state S.Store s.connection) };

    ghost leaves = { λ s. MayFind S.Store s.connection };

    ghost failed = { λ s. s.failures };

    ghost format = { λ s. s.format };

    ghost leaves_some = { λ s clean. some_held _ (S.Store.survives s.connection.store clean) };

    fn failures(&self) -> u64 {
        self.failures()
    }

    fn format(&self) -> u8 {
        self.format()
    }

    fn load(&mut self, alloc: Global) -> Result<Loaded, KeepFault> {
        self.load_all(alloc)
    }

    fn commit(&mut self, _alloc: Global, changes: &[Change]) -> Result<(), KeepFault> {
        self.commit(changes)
    }

    fn rewrite(
        &mut self,
        _alloc: Global,
        schema: &Text,
        changes: &[Change],
    ) -> Result<(), KeepFault> {
        self.rewrite(schema, changes)
    }
}
