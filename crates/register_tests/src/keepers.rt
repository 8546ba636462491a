//! Worked examples of the register over keepers in memory.
ghost use Rattle.register_core.specs.Register.{HasLoops};

use frac128::{ByteList, FailList};
use model_core::{Format, Name, NameList};
use register_core::{
    BrokenKeeper, KeepFault, Keeper, MemoryKeeper, RegisterFault, RunKey, RunState, SureKeeper,
    keep_run, list, run_kept, show, store,
};
use std::alloc::{AllocError, Global};
use std::process::Abort;

/// The name with this text.
fn name_of<R: Abort>(rt: &R, text: &[u8]) -> Name {
    Name::new(text).ok().expect(rt, "a name")
}

/// The key of a run, of one loop or two.
fn key_of<R: Abort>(rt: &R, text: &[u8], version: u32, loops: u32, format: Format) -> RunKey
    ensures { HasLoops result }
{
    assert!(rt; loops == 1 || loops == 2);
    RunKey {
        name: name_of(rt, text),
        version,
        loops,
        format,
    }
}

/// The list of this one call.
fn only_call(alloc: Global, number: u64) -> Result<FailList, AllocError> {
    let mut fails = FailList::new(alloc);
    fails.push(number)?;
    Ok(fails)
}

/// Stores files, lists them and shows them.
fn check_versions<R: Abort, K: Keeper>(
    rt: &R,
    alloc: Global,
    keeper: &mut K,
) -> Result<(), RegisterFault> {
    let rows: [(&[u8], &[u8], u32); 7] = [
        (b"ym", b"one", 1),
        (b"ym", b"one", 1),
        (b"ym", b"two", 2),
        (b"a_", b"one", 1),
        (b"Zz", b"", 1),
        (b"a1", b"one", 1),
        (b"ym", b"one", 1),
    ];
    for (text, bytes, version) in rows {
        let stored = store(alloc, keeper, &name_of(rt, text), bytes)?;
        assert_eq!(rt; stored, version);
    }
    check_list(rt, alloc, keeper)?;
    check_shown(rt, alloc, keeper)
}

/// Lists what `check_versions` stored, in byte order.
fn check_list<R: Abort, K: Keeper>(
    rt: &R,
    alloc: Global,
    keeper: &mut K,
) -> Result<(), RegisterFault> {
    let listed = list(alloc, keeper)?;
    let wanted: [(&[u8], u32); 4] = [(b"Zz", 1), (b"a1", 1), (b"a_", 1), (b"ym", 2)];
    assert_eq!(rt; listed.len(), 4);
    for (line, (text, count)) in listed.as_slice().iter().zip(wanted) {
        assert_eq!(rt; line.name.as_bytes(), text);
        assert_eq!(rt; line.count, count);
    }
    Ok(())
}

/// Shows what `check_versions` stored, and what isn't there.
fn check_shown<R: Abort, K: Keeper>(
    rt: &R,
    alloc: Global,
    keeper: &mut K,
) -> Result<(), RegisterFault> {
    let shown: [(&[u8], u32, &[u8]); 3] = [(b"ym", 1, b"one"), (b"ym", 2, b"two"), (b"Zz", 1, b"")];
    for (text, version, bytes) in shown {
        let found = show(alloc, keeper, &name_of(rt, text), version)?;
        assert_eq!(rt; found.as_slice(), bytes);
    }
    let refused: [(&[u8], u32, RegisterFault); 5] = [
        (b"ym", 0, RegisterFault::NoSuchVersion { count: 2 }),
        (b"ym", 3, RegisterFault::NoSuchVersion { count: 2 }),
        (b"a1", u32::MAX, RegisterFault::NoSuchVersion { count: 1 }),
        (b"qed", 0, RegisterFault::NoSuchName),
        (b"qed", 1, RegisterFault::NoSuchName),
    ];
    for (text, version, fault) in refused {
        let found = show(alloc, keeper, &name_of(rt, text), version);
        assert_eq!(rt; found.err(), Some(fault));
    }
    Ok(())
}

#[test]
fn versions_are_stored_once(rt: HostRuntime) -> Result<(), RegisterFault> {
    let alloc = rt.alloc();
    check_versions(&rt, alloc, &mut SureKeeper::new(alloc))?;
    check_versions(
        &rt,
        alloc,
        &mut MemoryKeeper::new(alloc, FailList::new(alloc)),
    )
}

/// Adds versions of two bytes, the number of the version less one, up to so many.
fn fill<K: Keeper>(
    alloc: Global,
    keeper: &mut K,
    name: &Name,
    count: u16,
) -> Result<(), KeepFault> {
    for number in 0..count {
        if keeper.versions(alloc, name)? >= 10_000 {
            return Ok(());
        }
        keeper.add_model(alloc, name, &number.to_be_bytes())?;
    }
    Ok(())
}

#[test]
fn a_name_has_ten_thousand_versions(rt: HostRuntime) -> Result<(), RegisterFault> {
    let alloc = rt.alloc();
    let mut keeper = SureKeeper::new(alloc);
    let name = name_of(&rt, b"ym");
    fill(alloc, &mut keeper, &name, 9_999)?;
    let full = Some(RegisterFault::Full { count: 10_000 });
    assert_eq!(rt; store(alloc, &mut keeper, &name, b"new")?, 10_000);
    assert_eq!(rt; store(alloc, &mut keeper, &name, b"newer").err(), full);
    assert_eq!(rt; store(alloc, &mut keeper, &name, &[0, 6])?, 7);
    assert_eq!(rt; store(alloc, &mut keeper, &name, b"new")?, 10_000);
    assert_eq!(rt;
        store(alloc, &mut keeper, &name_of(&rt, b"qed"), b"newer")?,
        1
    );
    Ok(())
}

/// What stands for a state: whether it is kept, and the bytes.
fn parts(state: &RunState) -> (bool, &[u8]) {
    match state {
        RunState::Kept(output) => (true, output.as_slice()),
        RunState::Fresh(bytes) => (false, bytes.as_slice()),
    }
}

/// Keeps an output where the version is there, as one who has made it would.
fn remember<K: Keeper>(
    alloc: Global,
    keeper: &mut K,
    key: &RunKey,
    bytes: &[u8],
) -> Result<(), RegisterFault>
    requires { HasLoops key.now }
{
    let _state = run_kept(alloc, keeper, key)?;
    keep_run(alloc, keeper, key, bytes)
}

/// Keeps an output, and looks for it and for others.
fn check_runs<R: Abort, K: Keeper>(
    rt: &R,
    alloc: Global,
    keeper: &mut K,
) -> Result<(), RegisterFault> {
    store(alloc, keeper, &name_of(rt, b"ym"), b"file")?;
    let key = key_of(rt, b"ym", 1, 2, Format::Latex);
    remember(alloc, keeper, &key, b"output")?;
    remember(alloc, keeper, &key, b"another")?;
    let found: [(u32, Format, bool, &[u8]); 3] = [
        (2, Format::Latex, true, b"output"),
        (1, Format::Latex, false, b"file"),
        (2, Format::Csv, false, b"file"),
    ];
    for (loops, format, kept, bytes) in found {
        let state = run_kept(alloc, keeper, &key_of(rt, b"ym", 1, loops, format))?;
        let (is_kept, text) = parts(&state);
        assert_eq!(rt; is_kept, kept);
        assert_eq!(rt; text, bytes);
    }
    let refused: [(&[u8], u32, RegisterFault); 3] = [
        (b"ym", 0, RegisterFault::NoSuchVersion { count: 1 }),
        (b"ym", 2, RegisterFault::NoSuchVersion { count: 1 }),
        (b"qed", 1, RegisterFault::NoSuchName),
    ];
    for (text, version, fault) in refused {
        let state = run_kept(alloc, keeper, &key_of(rt, text, version, 1, Format::Text));
        assert_eq!(rt; state.err(), Some(fault));
    }
    Ok(())
}

#[test]
fn runs_are_kept_by_their_keys(rt: HostRuntime) -> Result<(), RegisterFault> {
    let alloc = rt.alloc();
    check_runs(&rt, alloc, &mut SureKeeper::new(alloc))?;
    check_runs(
        &rt,
        alloc,
        &mut MemoryKeeper::new(alloc, FailList::new(alloc)),
    )
}

/// The number that `store` answers, or 0 where the keeper failed.
fn stored_or_none<R: Abort>(
    rt: &R,
    alloc: Global,
    keeper: &mut MemoryKeeper,
) -> Result<u32, RegisterFault> {
    match store(alloc, keeper, &name_of(rt, b"ym"), b"file") {
        Err(RegisterFault::Keeper) => Ok(0),
        other => other,
    }
}

// The first store of a file takes two calls, and so does each later one of the same file.
#[test]
fn failed_calls_leave_the_tables(rt: HostRuntime) -> Result<(), RegisterFault> {
    let alloc = rt.alloc();
    for (call, first, second, third) in [
        (1, 0, 1, 1),
        (2, 0, 1, 1),
        (3, 1, 0, 1),
        (4, 1, 0, 1),
        (5, 1, 1, 0),
    ] {
        let mut keeper = MemoryKeeper::new(alloc, only_call(alloc, call)?);
        assert_eq!(rt; stored_or_none(&rt, alloc, &mut keeper)?, first);
        assert_eq!(rt; stored_or_none(&rt, alloc, &mut keeper)?, second);
        assert_eq!(rt; stored_or_none(&rt, alloc, &mut keeper)?, third);
        assert_eq!(rt; keeper.faults(), 1);
    }
    Ok(())
}

#[test]
fn each_call_hands_a_fault_on(rt: HostRuntime) -> Result<(), RegisterFault> {
    let alloc = rt.alloc();
    let mut keeper = BrokenKeeper::new();
    let name = name_of(&rt, b"ym");
    let key = key_of(&rt, b"ym", 1, 1, Format::Text);
    let fault = Some(RegisterFault::Keeper);
    assert_eq!(rt; store(alloc, &mut keeper, &name, b"file").err(), fault);
    assert_eq!(rt; show(alloc, &mut keeper, &name, 1).err(), fault);
    assert_eq!(rt; list(alloc, &mut keeper).err(), fault);
    assert_eq!(rt; run_kept(alloc, &mut keeper, &key).err(), fault);
    assert_eq!(rt; keep_run(alloc, &mut keeper, &key, b"output").err(), fault);
    assert_eq!(rt; keeper.faults(), 5);
    Ok(())
}

/// A keeper that counts versions, has lost them all, and tells no tables.
#[derive(Drop)]
struct LossyKeeper {
    count: u32,
}

impl Keeper for LossyKeeper {
    ghost use Rattle.register_core.specs.Register.{opening};

    ghost is_told = { λ _. ⊥ };

    ghost tables = { λ _. opening };

    ghost faults = { λ _. 0 };

    fn faults(&self) -> u64 {
        0
    }

    fn names(&mut self, alloc: Global) -> Result<NameList, KeepFault> {
        Ok(NameList::new(alloc))
    }

    fn versions(&mut self, _alloc: Global, _name: &Name) -> Result<u32, KeepFault> {
        Ok(self.count)
    }

    fn model(
        &mut self,
        _alloc: Global,
        _name: &Name,
        _version: u32,
    ) -> Result<Option<ByteList>, KeepFault> {
        Ok(None)
    }

    fn add_model(&mut self, _alloc: Global, _name: &Name, _bytes: &[u8]) -> Result<(), KeepFault> {
        Ok(())
    }

    fn kept_run(&mut self, _alloc: Global, _key: &RunKey) -> Result<Option<ByteList>, KeepFault> {
        Ok(None)
    }

    fn keep_run(&mut self, _alloc: Global, _key: &RunKey, _bytes: &[u8]) -> Result<(), KeepFault> {
        Ok(())
    }
}

#[test]
fn lost_versions_are_passed_over(rt: HostRuntime) -> Result<(), RegisterFault> {
    let alloc = rt.alloc();
    let name = name_of(&rt, b"ym");
    let key = key_of(&rt, b"ym", 3, 1, Format::Text);
    let mut keeper = LossyKeeper { count: 3 };
    let lost = Some(RegisterFault::NoSuchVersion { count: 3 });
    assert_eq!(rt; store(alloc, &mut keeper, &name, b"file")?, 4);
    assert_eq!(rt; show(alloc, &mut keeper, &name, 3).err(), lost);
    assert_eq!(rt; run_kept(alloc, &mut keeper, &key).err(), lost);
    let mut keeper = LossyKeeper { count: 20_000 };
    let full = Some(RegisterFault::Full { count: 20_000 });
    assert_eq!(rt; store(alloc, &mut keeper, &name, b"file").err(), full);
    Ok(())
}

#[test]
fn faults_have_texts(rt: HostRuntime) -> Result<(), AllocError> {
    let alloc = rt.alloc();
    let rows = [
        (RegisterFault::NoSuchName, "no such name"),
        (
            RegisterFault::NoSuchVersion { count: 2 },
            "no such version among 2",
        ),
        (
            RegisterFault::Full { count: 10_000 },
            "the name is full, with 10000 versions",
        ),
        (RegisterFault::Keeper, "the keeper failed"),
        (RegisterFault::NoMemory, "out of memory"),
    ];
    for (fault, text) in rows {
        let printed = format!(in alloc; "{fault}")?;
        assert_eq!(rt; printed.as_str(), text);
    }
    Ok(())
}
