//! The register in memory.
ghost use Rattle.std.specs.Prelude.{◌≡◌, ◌<◌, ◌≤◌, length, IfOk, OnOk, OnErr};
ghost use Rattle.std.specs.FinMap.{keys};
ghost use Rattle.register_core.specs.Register.{opening, most_versions, versions_of, version_of, run_of, with_version, with_run};

use crate::keeper::RunKey;
use crate::model_table::ModelTable;
use crate::run_table::RunTable;
use frac128::ByteList;
use model_core::{Name, NameList};
use std::alloc::{AllocError, Global};
use std::marker::Model;

/// The tables of a keeper in memory.
#[derive(Drop)]
pub(crate) struct MemoryTables {
    models: ModelTable,
    runs: RunTable,
}

impl Model for MemoryTables {
    ghost use Rattle.register_core.specs.Register.{Register};
    ghost use Rattle.register_core.specs.Codes.{coded_register};

    ghost Value = { Register };

    ghost coded = { coded_register };

    ghost view = { λ t. record { models = t.models; runs = t.runs } };
}

impl MemoryTables {
    /// Tables without a name.
    pub(crate) fn new(alloc: Global) -> MemoryTables
        ensures { result ≡ opening }
    {
        MemoryTables {
            models: ModelTable::new(alloc),
            runs: RunTable::new(alloc),
        }
    }

    /// The names that have a version, in byte order.
    pub(crate) fn names(&self, alloc: Global) -> Result<NameList, AllocError>
        ensures { IfOk result (λ names. names ≡ keys self.now.models) }
    {
        self.models.names(alloc)
    }

    /// The number of versions that the name has.
    pub(crate) fn versions(&self, name: &Name) -> u32
        ensures count { result ≡ length (versions_of self.now name.now) }
        ensures most { result ≤ most_versions }
    {
        self.models.versions(name)
    }

    /// The bytes of a version, counted from 1, where there is such a version.
    pub(crate) fn model(
        &self,
        alloc: Global,
        name: &Name,
        version: u32,
    ) -> Result<Option<ByteList>, AllocError>
        ensures { IfOk result (λ found. found ≡ version_of self.now name.now version) }
    {
        self.models.model(alloc, name, version)
    }

    /// Appends one version to the name's. After want of memory the tables are as they were.
    pub(crate) fn add_model(
        &mut self,
        alloc: Global,
        name: &Name,
        bytes: &[u8],
    ) -> Result<(), AllocError>
        requires { length (versions_of self.old name.now) < most_versions }
        ensures ok { OnOk result (self.new ≡ with_version self.old name.now bytes.now) }
        ensures err { OnErr result (self.new ≡ self.old) }
    {
        self.models.add_model(alloc, name, bytes)
    }

    /// The output that is kept under the key.
    pub(crate) fn kept_run(
        &self,
        alloc: Global,
        key: &RunKey,
    ) -> Result<Option<ByteList>, AllocError>
        ensures { IfOk result (λ found. found ≡ run_of self.now key.now) }
    {
        self.runs.kept_run(alloc, key)
    }

    /// Keeps an output, where the key has none yet. After want of memory the tables are as they were.
    pub(crate) fn keep_run(
        &mut self,
        alloc: Global,
        key: &RunKey,
        bytes: &[u8],
    ) -> Result<(), AllocError>
        ensures ok { OnOk result (self.new ≡ with_run self.old key.now bytes.now) }
        ensures err { OnErr result (self.new ≡ self.old) }
    {
        self.runs.keep_run(alloc, key, bytes)
    }
}
