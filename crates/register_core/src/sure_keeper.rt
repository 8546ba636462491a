//! A keeper in memory that never fails.
ghost use Rattle.std.specs.Prelude.{◌≡◌};
ghost use Rattle.register_core.specs.Register.{opening};

use crate::keeper::{KeepFault, Keeper, RunKey};
use crate::memory_tables::MemoryTables;
use frac128::ByteList;
use model_core::{Name, NameList};
use std::alloc::Global;
use std::marker::Model;

/// A keeper in memory that never fails. Contracts see it as its tables.
#[derive(Drop)]
pub struct SureKeeper {
    tables: MemoryTables,
}

impl Model for SureKeeper {
    ghost use Rattle.register_core.specs.Register.{Register};
    ghost use Rattle.register_core.specs.Codes.{coded_register};

    ghost Value = { Register };

    ghost coded = { coded_register };

    ghost view = { λ k. k.tables };
}

impl SureKeeper {
    /// A keeper without a name. It takes no memory.
    pub fn new(alloc: Global) -> SureKeeper
        ensures { result ≡ opening }
    {
        SureKeeper {
            tables: MemoryTables::new(alloc),
        }
    }
}

impl Keeper for SureKeeper {
    ghost use Rattle.std.specs.Prelude.{⊤};

    ghost is_told = { λ _. ⊤ };

    ghost tables = { λ k. k };

    ghost faults = { λ _. 0 };

    fn faults(&self) -> u64 {
        0
    }

    fn names(&mut self, alloc: Global) -> Result<NameList, KeepFault> {
        Ok(self.tables.names(alloc)?)
    }

    fn versions(&mut self, _alloc: Global, name: &Name) -> Result<u32, KeepFault> {
        Ok(self.tables.versions(name))
    }

    fn model(
        &mut self,
        alloc: Global,
        name: &Name,
        version: u32,
    ) -> Result<Option<ByteList>, KeepFault> {
        Ok(self.tables.model(alloc, name, version)?)
    }

    fn add_model(&mut self, alloc: Global, name: &Name, bytes: &[u8]) -> Result<(), KeepFault> {
        self.tables.add_model(alloc, name, bytes)?;
        Ok(())
    }

    fn kept_run(&mut self, alloc: Global, key: &RunKey) -> Result<Option<ByteList>, KeepFault> {
        Ok(self.tables.kept_run(alloc, key)?)
    }

    fn keep_run(&mut self, alloc: Global, key: &RunKey, bytes: &[u8]) -> Result<(), KeepFault> {
        self.tables.keep_run(alloc, key, bytes)?;
        Ok(())
    }
}
