use ov_base::Text;
use ov_keeper::{Change, KeepFault, Keeper, Loaded};
use std::alloc::Global;

/// A keeper over another, whose device fails as configured: for tests of the layers above a keeper.
#[derive(Drop)]
pub struct FailingKeeper<K: Keeper> {
    /// The keeper of the schema and the lines.
    pub inner: K,
    /// Whether the next commit or rewrite is refused as too large.
    pub is_too_large: bool,
    /// How many loads fail. Later ones are made.
    pub bad_loads: u64,
    /// How many commits and rewrites are made before the device fails.
    pub good: u64,
    /// How many of them fail then. Later ones are made.
    pub bad: u64,
    /// How often the device has failed.
    pub failures: u64,
}

impl<K: Keeper> FailingKeeper<K> {
    ghost use Rattle.std.specs.Prelude.{◌≡◌, ◌≤◌, IfSome, Some};
    ghost use Rattle.ov_keeper.specs.Keeping.{HasFailed, IsCommitFault};
    ghost use Rattle.ov_keeper.specs.declared.fault.KeepFault.TheVariants.{Device};

    /// The fault of the next commit or rewrite, if one is configured.
    fn next_fault(&mut self) -> Option<KeepFault>
        ensures same { self.new.inner ≡ self.old.inner }
        ensures kinds { IfSome result IsCommitFault }
        ensures cause { result ≡ Some Device → HasFailed self.old.failures self.new.failures }
        ensures counts { self.old.failures ≤ self.new.failures }
    {
        if self.is_too_large {
            self.is_too_large = false;
            return Some(KeepFault::TooLarge);
        }
        if self.good == 0 && self.bad > 0 {
            self.bad -= 1;
            self.failures = self.failures.saturating_add(1);
            return Some(KeepFault::Device);
        }
        self.good = self.good.saturating_sub(1);
        None
    }
}

impl<K: Keeper> Keeper for FailingKeeper<K> {
    ghost is_honest = { λ k. K.is_honest k.inner };

    ghost leaves = { λ k held. K.leaves k.inner held };

    ghost failed = { λ k. k.failures };

    ghost format = { λ k. K.format k.inner };

    ghost leaves_some = { λ k honest. K.leaves_some k.inner honest };

    fn failures(&self) -> u64 {
        self.failures
    }

    fn format(&self) -> u8 {
        self.inner.format()
    }

    fn load(&mut self, alloc: Global) -> Result<Loaded, KeepFault> {
        if self.bad_loads > 0 {
            self.bad_loads -= 1;
            self.failures = self.failures.saturating_add(1);
            return Err(KeepFault::Device);
        }
        let loaded = self.inner.load(alloc);
        if matches!(loaded, Err(KeepFault::Device)) {
            self.failures = self.failures.saturating_add(1);
        }
        loaded
    }

    fn commit(&mut self, alloc: Global, changes: &[Change]) -> Result<(), KeepFault> {
        if let Some(fault) = self.next_fault() {
            return Err(fault);
        }
        let answer = self.inner.commit(alloc, changes);
        if answer == Err(KeepFault::Device) {
            self.failures = self.failures.saturating_add(1);
        }
        answer
    }

    fn rewrite(
        &mut self,
        alloc: Global,
        schema: &Text,
        changes: &[Change],
    ) -> Result<(), KeepFault> {
        if let Some(fault) = self.next_fault() {
            return Err(fault);
        }
        let answer = self.inner.rewrite(alloc, schema, changes);
        if answer == Err(KeepFault::Device) {
            self.failures = self.failures.saturating_add(1);
        }
        answer
    }
}
