//! The keeper that stands in where no register can be opened.
ghost use Rattle.std.specs.Prelude.{◌≡◌, ◌≤◌};
ghost use Rattle.register_core.specs.Counts.{one_more};
ghost use Rattle.register_core.specs.Causes.{Breaks};

use crate::keeper::{KeepFault, Keeper, RunKey};
use frac128::ByteList;
use model_core::{Name, NameList};
use std::alloc::Global;
use std::marker::Model;

/// A keeper that fails at every call, raises its count each time and tells no tables. Contracts see
/// it as its count of faults.
#[derive(Drop)]
pub struct BrokenKeeper {
    faults: u64,
}

impl Model for BrokenKeeper {
    ghost use Rattle.std.specs.Prelude.{ℕ};

    ghost Value = { ℕ };

    ghost view = { λ k. k.faults };
}

impl BrokenKeeper {
    /// A broken keeper that hasn't failed yet.
    pub fn new() -> BrokenKeeper
        ensures { result ≡ 0 }
    {
        BrokenKeeper { faults: 0 }
    }

    // One more fault.
    fn fail(&mut self) -> KeepFault
        ensures failed { result ≡ KeepFault.Failed }
        ensures counted { self.new ≡ one_more self.old }
        ensures later { self.old ≤ self.new }
    {
        self.faults = self.faults.saturating_add(1);
        KeepFault::Failed
    }
}

impl Keeper for BrokenKeeper {
    ghost use Rattle.register_core.specs.Register.{opening};

    ghost is_told = { λ _. ⊥ };

    ghost tables = { λ _. opening };

    ghost faults = { λ k. k };

    fn faults(&self) -> u64 {
        self.faults
    }

    fn names(&mut self, _alloc: Global) -> Result<NameList, KeepFault>
        ensures { Breaks self.old self.new result }
    {
        Err(self.fail())
    }

    fn versions(&mut self, _alloc: Global, _name: &Name) -> Result<u32, KeepFault>
        ensures { Breaks self.old self.new result }
    {
        Err(self.fail())
    }

    fn model(
        &mut self,
        _alloc: Global,
        _name: &Name,
        _version: u32,
    ) -> Result<Option<ByteList>, KeepFault>
        ensures { Breaks self.old self.new result }
    {
        Err(self.fail())
    }

    fn add_model(&mut self, _alloc: Global, _name: &Name, _bytes: &[u8]) -> Result<(), KeepFault>
        ensures { Breaks self.old self.new result }
    {
        Err(self.fail())
    }

    fn kept_run(&mut self, _alloc: Global, _key: &RunKey) -> Result<Option<ByteList>, KeepFault>
        ensures { Breaks self.old self.new result }
    {
        Err(self.fail())
    }

    fn keep_run(&mut self, _alloc: Global, _key: &RunKey, _bytes: &[u8]) -> Result<(), KeepFault>
        ensures { Breaks self.old self.new result }
    {
        Err(self.fail())
    }
}
