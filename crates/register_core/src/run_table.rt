//! The kept outputs in memory.
ghost use Rattle.std.specs.Prelude.{◌≡◌, ℕ, true, is_some, IfOk, OnOk, OnErr, if◌then◌else◌};
ghost use Rattle.std.specs.FinMap.{empty, get, insert, is_sorted};
ghost use Rattle.register_core.specs.Register.{key_cmp, format_place};
ghost use Rattle.register_core.specs.Table.{IsPlace};

use crate::keeper::RunKey;
use crate::model_table::{compare_names, copied};
use frac128::ByteList;
use model_core::Format;
use std::alloc::{AllocError, Global};
use std::cmp::Ordering;
use std::marker::Model;

/// Keys in order, each with its output.
#[derive(Drop)]
pub(crate) struct RunTable {
    runs: Vec<(RunKey, ByteList)>,
}

impl Model for RunTable {
    ghost use Rattle.std.specs.Prelude.{◌≡◌, true, List, ℕ};
    ghost use Rattle.std.specs.FinMap.{FinMap, is_sorted, from_sorted};
    ghost use Rattle.register_core.specs.Register.{key_cmp};
    ghost use Rattle.register_core.specs.Codes.{coded_runs};

    ghost Value = { FinMap key_cmp (List ℕ) };

    ghost coded = { coded_runs };

    ghost view = { λ t. from_sorted t.runs.items };

    ghost invariant = { λ t. is_sorted key_cmp t.runs.items ≡ true };
}

/// The place of a format among the three.
fn format_place(format: Format) -> u32
    ensures { result ≡ format_place format }
{
    match format {
        Format::Text => 0,
        Format::Latex => 1,
        Format::Csv => 2,
    }
}

/// The same key.
fn copied_key(key: &RunKey) -> RunKey
    ensures { result ≡ key.now }
{
    RunKey {
        name: key.name.copy(),
        version: key.version,
        loops: key.loops,
        format: key.format,
    }
}

/// Compares keys by their names, then by versions, loops and formats.
fn compare_keys(a: &RunKey, b: &RunKey) -> Ordering
    ensures { result ≡ key_cmp a.now b.now }
{
    compare_names(&a.name, &b.name)
        .then(a.version.cmp(&b.version))
        .then(a.loops.cmp(&b.loops))
        .then(format_place(a.format).cmp(&format_place(b.format)))
}

/// The place of a key, or the place where it belongs.
fn key_place(runs: &[(RunKey, ByteList)], key: &RunKey) -> Result<usize, usize>
    requires { is_sorted key_cmp runs.now ≡ true }
    ensures { IsPlace key_cmp runs.now key.now result }
{
    runs.binary_search_by(|run| compare_keys(&run.0, key))
}

impl RunTable {
    /// The table without a run.
    pub(crate) fn new(alloc: Global) -> RunTable
        ensures { result ≡ empty }
    {
        RunTable {
            runs: Vec::new(alloc),
        }
    }

    /// The output that is kept under a key.
    pub(crate) fn kept_run(
        &self,
        alloc: Global,
        key: &RunKey,
    ) -> Result<Option<ByteList>, AllocError>
        ensures { IfOk result (λ found. found ≡ get self.now key.now) }
    {
        match key_place(&self.runs, key) {
            Ok(place) => Ok(Some(copied(alloc, self.runs[place].1.as_slice())?)),
            Err(_) => Ok(None),
        }
    }

    /// Keeps an output, where the key has none yet. After want of memory the table is as it was.
    pub(crate) fn keep_run(
        &mut self,
        alloc: Global,
        key: &RunKey,
        bytes: &[u8],
    ) -> Result<(), AllocError>
        ensures ok { OnOk result (self.new ≡ (if is_some (get self.old key.now) then self.old else insert self.old key.now bytes.now)) }
        ensures err { OnErr result (self.new ≡ self.old) }
    {
        match key_place(&self.runs, key) {
            Ok(_) => Ok(()),
            Err(place) => {
                let output = copied(alloc, bytes)?;
                self.runs.insert(place, (copied_key(key), output))?;
                Ok(())
            }
        }
    }
}
