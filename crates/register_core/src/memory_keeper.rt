//! A keeper in memory that fails on chosen calls.
ghost use Rattle.std.specs.Prelude.{◌≡◌, ◌<◌, ◌≤◌, length, IsSome};
ghost use Rattle.std.specs.FinMap.{keys};
ghost use Rattle.register_core.specs.Register.{opening, most_versions, versions_of, version_of, run_of, HasLoops, with_version, with_run};
ghost use Rattle.register_core.specs.Memory.{Counted, Reads, Writes};

use crate::keeper::{KeepFault, Keeper, RunKey};
use crate::memory_tables::MemoryTables;
use frac128::{ByteList, FailList};
use model_core::{Name, NameList};
use std::alloc::Global;
use std::marker::Model;

/// A keeper in memory that fails on the calls whose numbers stand in its list. All calls but
/// `faults` are numbered from 1, and the number stays at 2^64 - 1.
#[derive(Drop)]
pub struct MemoryKeeper {
    tables: MemoryTables,
    fails: FailList,
    calls: u64,
    faults: u64,
}

impl Model for MemoryKeeper {
    ghost use Rattle.register_core.specs.Memory.{MemoryRegister, coded_memory};

    ghost Value = { MemoryRegister };

    ghost coded = { coded_memory };

    ghost view = { λ k. record { register = k.tables; fails = k.fails; calls = k.calls; faults = k.faults } };
}

impl MemoryKeeper {
    /// A keeper without a name that fails on these calls. It takes no memory.
    pub fn new(alloc: Global, fails: FailList) -> MemoryKeeper
        ensures { result ≡ record { register = opening; fails = fails; calls = 0; faults = 0 } }
    {
        MemoryKeeper {
            tables: MemoryTables::new(alloc),
            fails,
            calls: 0,
            faults: 0,
        }
    }

    // Counts a call, and fails where its number stands in the list.
    fn count_call(&mut self) -> Result<(), KeepFault>
        ensures counted { Counted self.old self.new result }
        ensures same { self.new.register ≡ self.old.register }
    {
        self.calls = self.calls.saturating_add(1);
        if self.fails.contains(self.calls) {
            self.faults = self.faults.saturating_add(1);
            return Err(KeepFault::Failed);
        }
        Ok(())
    }
}

impl Keeper for MemoryKeeper {
    ghost use Rattle.std.specs.Prelude.{⊤};

    ghost is_told = { λ _. ⊤ };

    ghost tables = { λ k. k.register };

    ghost faults = { λ k. k.faults };

    fn faults(&self) -> u64 {
        self.faults
    }

    fn names(&mut self, alloc: Global) -> Result<NameList, KeepFault>
        ensures { Reads self.old self.new result (λ register names. names ≡ keys register.models) }
    {
        self.count_call()?;
        Ok(self.tables.names(alloc)?)
    }

    fn versions(&mut self, _alloc: Global, name: &Name) -> Result<u32, KeepFault>
        ensures { Reads self.old self.new result (λ register count. (count ≡ length (versions_of register name.now)) × (count ≤ most_versions)) }
    {
        self.count_call()?;
        Ok(self.tables.versions(name))
    }

    fn model(
        &mut self,
        alloc: Global,
        name: &Name,
        version: u32,
    ) -> Result<Option<ByteList>, KeepFault>
        ensures { Reads self.old self.new result (λ register found. found ≡ version_of register name.now version) }
    {
        self.count_call()?;
        Ok(self.tables.model(alloc, name, version)?)
    }

    fn add_model(&mut self, alloc: Global, name: &Name, bytes: &[u8]) -> Result<(), KeepFault>
        requires { length (versions_of self.old.register name.now) < most_versions }
        ensures { Writes self.old self.new result (λ register. with_version register name.now bytes.now) }
    {
        self.count_call()?;
        self.tables.add_model(alloc, name, bytes)?;
        Ok(())
    }

    fn kept_run(&mut self, alloc: Global, key: &RunKey) -> Result<Option<ByteList>, KeepFault>
        requires { HasLoops key.now }
        ensures { Reads self.old self.new result (λ register found. found ≡ run_of register key.now) }
    {
        self.count_call()?;
        Ok(self.tables.kept_run(alloc, key)?)
    }

    fn keep_run(&mut self, alloc: Global, key: &RunKey, bytes: &[u8]) -> Result<(), KeepFault>
        requires loops { HasLoops key.now }
        requires version { IsSome (version_of self.old.register key.now.name key.now.version) }
        ensures { Writes self.old self.new result (λ register. with_run register key.now bytes.now) }
    {
        self.count_call()?;
        self.tables.keep_run(alloc, key, bytes)?;
        Ok(())
    }
}
