//! The calls of the register, over any keeper.
ghost use Rattle.std.specs.Prelude.{Ok, IsSome, OnOk, OnErr};
ghost use Rattle.register_core.specs.Causes.{HasReason, Stays, Changes};
ghost use Rattle.register_core.specs.Register.{HasLoops, version_of, with_run};
ghost use Rattle.register_core.specs.Machine as machine;
ghost use Rattle.register_core.specs.Answers.{Answers, Ends, FailsOnly, IsShown, IsStored};

use crate::keeper::{Keeper, RunKey};
use crate::register_fault::RegisterFault;
use frac128::{ByteList, ItemList};
use model_core::Name;
use std::alloc::Global;

/// The most versions that a name may have.
pub const MOST_VERSIONS: u32 = 10_000;

/// A name and its number of versions.
#[derive(Drop)]
pub struct NameCount {
    pub name: Name,
    pub count: u32,
}

/// Names with their numbers of versions.
pub type NameCountList = ItemList<NameCount>;

/// What is there for the key of a run.
#[derive(Drop)]
pub enum RunState {
    /// The output that is kept.
    Kept(ByteList),
    /// The model's bytes, where no output is kept yet.
    Fresh(ByteList),
}

/// Stores bytes under a name, and answers their version: the first that has these bytes, or a new
/// one behind the last. Where the keeper tells its tables, `Full` comes exactly where the name has
/// `MOST_VERSIONS` versions and none has these bytes, but for a fault and want of memory.
///
/// A keeper that tells no tables may have lost a version, which is passed over, and may count more
/// than `MOST_VERSIONS`, of which so many are looked at.
pub fn store<K: Keeper>(
    alloc: Global,
    keeper: &mut K,
    name: &Name,
    bytes: &[u8],
) -> Result<u32, RegisterFault>
    ensures answer { K.is_told keeper.new → K.is_told keeper.old × Ends (K.tables keeper.old) (machine.store (K.tables keeper.old) name.now bytes.now) (K.tables keeper.new) result }
    ensures same { OnErr result (Stays K.is_told K.tables keeper.old keeper.new) }
    ensures numbers { IsStored result }
    ensures cause { HasReason (K.faults keeper.old) (K.faults keeper.new) result }
{
    let count = keeper.versions(alloc, name)?;
    let looked = count.min(MOST_VERSIONS);
    for place in 0..looked {
        if let Some(kept) = keeper.model(alloc, name, place + 1)? {
            if kept.as_slice() == bytes {
                return Ok(place + 1);
            }
        }
    }
    if count >= MOST_VERSIONS {
        return Err(RegisterFault::Full { count });
    }
    keeper.add_model(alloc, name, bytes)?;
    Ok(count + 1)
}

/// The bytes of a version. `NoSuchName` comes exactly where the name has no version, and
/// `NoSuchVersion` exactly where it has some and the number isn't from 1 to their count.
///
/// Where a keeper that tells no tables has lost a version that it counted, the answer is
/// `NoSuchVersion` too.
pub fn show<K: Keeper>(
    alloc: Global,
    keeper: &mut K,
    name: &Name,
    version: u32,
) -> Result<ByteList, RegisterFault>
    ensures answer { K.is_told keeper.new → Answers (machine.show (K.tables keeper.new) name.now version) result }
    ensures same { Stays K.is_told K.tables keeper.old keeper.new }
    ensures numbers { IsShown version result }
    ensures cause { HasReason (K.faults keeper.old) (K.faults keeper.new) result }
{
    let count = keeper.versions(alloc, name)?;
    if count == 0 {
        return Err(RegisterFault::NoSuchName);
    }
    if version == 0 || version > count {
        return Err(RegisterFault::NoSuchVersion { count });
    }
    match keeper.model(alloc, name, version)? {
        Some(bytes) => Ok(bytes),
        None => Err(RegisterFault::NoSuchVersion { count }),
    }
}

/// Each name with its number of versions, in byte order.
pub fn list<K: Keeper>(alloc: Global, keeper: &mut K) -> Result<NameCountList, RegisterFault>
    ensures answer { K.is_told keeper.new → Answers (Ok (machine.list (K.tables keeper.new))) result }
    ensures same { Stays K.is_told K.tables keeper.old keeper.new }
    ensures refusals { FailsOnly result }
    ensures cause { HasReason (K.faults keeper.old) (K.faults keeper.new) result }
{
    let names = keeper.names(alloc)?;
    let mut counted = NameCountList::new(alloc);
    for name in names.as_slice() {
        let count = keeper.versions(alloc, name)?;
        let name = name.copy();
        counted.push(NameCount { name, count })?;
    }
    Ok(counted)
}

/// The output that is kept for a run, or the model's bytes where none is. The refusals are those of
/// `show`, before a kept output is looked for. After an Ok the version is there, so an output may be
/// kept for it.
pub fn run_kept<K: Keeper>(
    alloc: Global,
    keeper: &mut K,
    key: &RunKey,
) -> Result<RunState, RegisterFault>
    requires { HasLoops key.now }
    ensures answer { K.is_told keeper.new → Answers (machine.run (K.tables keeper.new) key.now) result }
    ensures there { K.is_told keeper.new → OnOk result (IsSome (version_of (K.tables keeper.new) key.now.name key.now.version)) }
    ensures same { Stays K.is_told K.tables keeper.old keeper.new }
    ensures numbers { IsShown key.now.version result }
    ensures cause { HasReason (K.faults keeper.old) (K.faults keeper.new) result }
{
    let bytes = show(alloc, keeper, &key.name, key.version)?;
    match keeper.kept_run(alloc, key)? {
        Some(output) => Ok(RunState::Kept(output)),
        None => Ok(RunState::Fresh(bytes)),
    }
}

/// Keeps the output of a run of a version that is there. Where the key has one already it changes
/// nothing.
pub fn keep_run<K: Keeper>(
    alloc: Global,
    keeper: &mut K,
    key: &RunKey,
    bytes: &[u8],
) -> Result<(), RegisterFault>
    requires loops { HasLoops key.now }
    requires version { K.is_told keeper.old → IsSome (version_of (K.tables keeper.old) key.now.name key.now.version) }
    ensures kept { OnOk result (Changes K.is_told K.tables (λ register. with_run register key.now bytes.now) keeper.old keeper.new) }
    ensures same { OnErr result (Stays K.is_told K.tables keeper.old keeper.new) }
    ensures refusals { FailsOnly result }
    ensures cause { HasReason (K.faults keeper.old) (K.faults keeper.new) result }
{
    keeper.keep_run(alloc, key, bytes)?;
    Ok(())
}
