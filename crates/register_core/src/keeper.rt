//! What keeps the register: model files by name and version, and outputs by what was asked.
ghost use Rattle.std.specs.Prelude.{◌≡◌, ◌<◌, ◌≤◌, ℕ, length, IfOk, OnOk, OnErr, IsSome};
ghost use Rattle.std.specs.FinMap.{keys};
ghost use Rattle.register_core.specs.Register.{Register, versions_of, version_of, run_of, HasLoops, with_version, with_run, most_versions};
ghost use Rattle.register_core.specs.Causes.{IsCaused, Stays, Changes};

use frac128::ByteList;
use model_core::{Format, Name, NameList};
use std::alloc::{AllocError, Global};
use std::marker::Model;
use thiserror::Error;

/// Why a keeper's call has no answer.
#[derive(Clone, Copy, Debug, PartialEq, Eq, Error)]
pub enum KeepFault {
    /// The keeper failed.
    #[error("the keeper failed")]
    Failed,
    /// Memory ran out.
    #[error("out of memory")]
    NoMemory,
}

impl From<AllocError> for KeepFault {
    ghost use Rattle.std.specs.Prelude.{◌≡◌};
    ghost use Rattle.register_core.specs.declared.keeper.KeepFault.{KeepFault};

    ghost from_gives = { λ _ fault. fault ≡ KeepFault.NoMemory };

    fn from(_error: AllocError) -> KeepFault {
        KeepFault::NoMemory
    }
}

/// The key of a run: a version of a model, the number of loops and the printed form.
#[derive(Drop)]
pub struct RunKey {
    pub name: Name,
    pub version: u32,
    pub loops: u32,
    pub format: Format,
}

impl Model for RunKey {
    ghost use Rattle.register_core.specs.Register.{Key};

    ghost Value = { Key };

    ghost view = { λ k. record { name = k.name; version = k.version; loops = k.loops; format = k.format } };
}

/// What keeps the register's tables.
///
/// A clause on tables holds where the keeper tells them at the end of the call, and then it told
/// them at the start too. `Failed` comes only where the count of faults rose, and every other
/// answer leaves the count. After any error the tables are as before.
pub trait Keeper {
    /// That it tells its tables.
    ghost is_told: { Self → Type 0 };

    /// The tables, where it tells them.
    ghost tables: { Self → Register };

    /// The number of failed calls.
    ghost faults: { Self → ℕ };

    /// The number of failed calls. At 2^64 - 1 it stays.
    fn faults(&self) -> u64
        ensures { result ≡ faults self.now };

    /// The names that have a version, in byte order.
    fn names(&mut self, alloc: Global) -> Result<NameList, KeepFault>
        ensures names { is_told self.new → IfOk result (λ names. names ≡ keys (tables self.new).models) }
        ensures same { Stays is_told tables self.old self.new }
        ensures cause { IsCaused (faults self.old) (faults self.new) result };

    /// The number of versions that the name has, 0 where it isn't there.
    fn versions(&mut self, alloc: Global, name: &Name) -> Result<u32, KeepFault>
        ensures count { is_told self.new → IfOk result (λ count. (count ≡ length (versions_of (tables self.new) name.now)) × (count ≤ most_versions)) }
        ensures same { Stays is_told tables self.old self.new }
        ensures cause { IsCaused (faults self.old) (faults self.new) result };

    /// The bytes of a version, counted from 1. `None` comes exactly where there is no such version.
    fn model(
        &mut self,
        alloc: Global,
        name: &Name,
        version: u32,
    ) -> Result<Option<ByteList>, KeepFault>
        ensures bytes { is_told self.new → IfOk result (λ found. found ≡ version_of (tables self.new) name.now version) }
        ensures same { Stays is_told tables self.old self.new }
        ensures cause { IsCaused (faults self.old) (faults self.new) result };

    /// Appends one version to the name's.
    fn add_model(&mut self, alloc: Global, name: &Name, bytes: &[u8]) -> Result<(), KeepFault>
        requires { is_told self.old → length (versions_of (tables self.old) name.now) < most_versions }
        ensures added { OnOk result (Changes is_told tables (λ register. with_version register name.now bytes.now) self.old self.new) }
        ensures same { OnErr result (Stays is_told tables self.old self.new) }
        ensures cause { IsCaused (faults self.old) (faults self.new) result };

    /// The run that is kept under the key. `None` comes exactly where no run has the key.
    fn kept_run(&mut self, alloc: Global, key: &RunKey) -> Result<Option<ByteList>, KeepFault>
        requires { HasLoops key.now }
        ensures bytes { is_told self.new → IfOk result (λ found. found ≡ run_of (tables self.new) key.now) }
        ensures same { Stays is_told tables self.old self.new }
        ensures cause { IsCaused (faults self.old) (faults self.new) result };

    /// Keeps a run of a version that is there. Where the key has a run already it changes nothing.
    fn keep_run(&mut self, alloc: Global, key: &RunKey, bytes: &[u8]) -> Result<(), KeepFault>
        requires loops { HasLoops key.now }
        requires version { is_told self.old → IsSome (version_of (tables self.old) key.now.name key.now.version) }
        ensures kept { OnOk result (Changes is_told tables (λ register. with_run register key.now bytes.now) self.old self.new) }
        ensures same { OnErr result (Stays is_told tables self.old self.new) }
        ensures cause { IsCaused (faults self.old) (faults self.new) result };
}
