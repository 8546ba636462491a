//! The models' versions in memory.
ghost use Rattle.std.specs.Prelude.{◌≡◌, ◌<◌, ◌≤◌, ◌++◌, ◌∷◌, [], ◌-◌, true, map, length, nat_lt, slice_get, unwrap_or, option_map, None, IfSome, IfOk, OnOk, OnErr, if◌then◌else◌};
ghost use Rattle.std.specs.FinMap.{empty, get, insert, keys, is_sorted};
ghost use Rattle.register_core.specs.Register.{name_cmp, most_versions};
ghost use Rattle.register_core.specs.Table.{IsPlace};

use frac128::{ByteList, ItemList};
use model_core::{Name, NameList};
use std::alloc::{AllocError, Global};
use std::cmp::Ordering;
use std::marker::Model;

/// The versions of a name, from the first.
type VersionList = ItemList<ByteList>;

/// Names in byte order, each with its versions.
#[derive(Drop)]
pub(crate) struct ModelTable {
    models: Vec<(Name, VersionList)>,
}

impl Model for ModelTable {
    ghost use Rattle.std.specs.Prelude.{◌≡◌, ◌≤◌, true, List, ℕ, length};
    ghost use Rattle.std.specs.FinMap.{FinMap, is_sorted, from_sorted};
    ghost use Rattle.register_core.specs.Register.{name_cmp, most_versions};
    ghost use Rattle.register_core.specs.Codes.{coded_models};
    ghost use Rattle.register_core.specs.Table.{AllShort};

    ghost Value = { FinMap name_cmp (List (List ℕ)) };

    ghost coded = { coded_models };

    ghost view = { λ t. from_sorted t.models.items };

    ghost invariant = { λ t. (is_sorted name_cmp t.models.items ≡ true) × AllShort t.models.items };
}

/// Compares names by their bytes.
pub(crate) fn compare_names(a: &Name, b: &Name) -> Ordering
    ensures { result ≡ name_cmp a.now b.now }
{
    a.as_bytes().cmp(b.as_bytes())
}

/// The place of a name, or the place where it belongs.
fn name_place(models: &[(Name, VersionList)], name: &Name) -> Result<usize, usize>
    requires { is_sorted name_cmp models.now ≡ true }
    ensures { IsPlace name_cmp models.now name.now result }
{
    models.binary_search_by(|model| compare_names(&model.0, name))
}

/// A copy of bytes.
pub(crate) fn copied(alloc: Global, bytes: &[u8]) -> Result<ByteList, AllocError>
    ensures { IfOk result (λ copy. copy ≡ bytes.now) }
{
    let mut copy = ByteList::new(alloc);
    copy.extend(bytes)?;
    Ok(copy)
}

/// The names of models.
fn names_of(alloc: Global, models: &[(Name, VersionList)]) -> Result<NameList, AllocError>
    ensures { IfOk result (λ names. names ≡ map (λ model. model.0) models.now) }
{
    let mut names = NameList::new(alloc);
    for model in models {
        names.push(model.0.copy())?;
    }
    Ok(names)
}

/// The versions of a name that has one.
fn first_version(alloc: Global, bytes: ByteList) -> Result<VersionList, AllocError>
    ensures { IfOk result (λ versions. versions ≡ bytes ∷ []) }
{
    let mut versions = VersionList::new(alloc);
    versions.push(bytes)?;
    Ok(versions)
}

impl ModelTable {
    /// The table without a name.
    pub(crate) fn new(alloc: Global) -> ModelTable
        ensures { result ≡ empty }
    {
        ModelTable {
            models: Vec::new(alloc),
        }
    }

    /// The names in order.
    pub(crate) fn names(&self, alloc: Global) -> Result<NameList, AllocError>
        ensures { IfOk result (λ names. names ≡ keys self.now) }
    {
        Ok(names_of(alloc, &self.models)?)
    }

    // The versions of a name.
    fn find(&self, name: &Name) -> Option<&VersionList>
        ensures value { option_map (λ v. v.now) result ≡ get self.now name.now }
        ensures short { IfSome result (λ v. length v.now ≤ most_versions) }
    {
        match name_place(&self.models, name) {
            Ok(place) => Some(&self.models[place].1),
            Err(_) => None,
        }
    }

    /// The number of versions of a name, 0 where it isn't there.
    pub(crate) fn versions(&self, name: &Name) -> u32
        ensures count { result ≡ length (unwrap_or (get self.now name.now) []) }
        ensures short { result ≤ most_versions }
    {
        match self.find(name) {
            Some(versions) => versions.len() as u32,
            None => 0,
        }
    }

    /// The bytes of a version, counted from 1, where there is such a version.
    pub(crate) fn model(
        &self,
        alloc: Global,
        name: &Name,
        version: u32,
    ) -> Result<Option<ByteList>, AllocError>
        ensures { IfOk result (λ found. found ≡ (if nat_lt 0 version then slice_get (unwrap_or (get self.now name.now) []) (version - 1) else None)) }
    {
        if version == 0 {
            return Ok(None);
        }
        let Some(versions) = self.find(name) else {
            return Ok(None);
        };
        let Some(bytes) = versions.as_slice().get(version as usize - 1) else {
            return Ok(None);
        };
        Ok(Some(copied(alloc, bytes.as_slice())?))
    }

    /// Puts a version behind the name's others. After want of memory the table is as it was.
    pub(crate) fn add_model(
        &mut self,
        alloc: Global,
        name: &Name,
        bytes: &[u8],
    ) -> Result<(), AllocError>
        requires { length (unwrap_or (get self.old name.now) []) < most_versions }
        ensures ok { OnOk result (self.new ≡ insert self.old name.now (unwrap_or (get self.old name.now) [] ++ bytes.now ∷ [])) }
        ensures err { OnErr result (self.new ≡ self.old) }
    {
        let bytes = copied(alloc, bytes)?;
        match name_place(&self.models, name) {
            Ok(place) => self.models[place].1.push(bytes),
            Err(place) => {
                let versions = first_version(alloc, bytes)?;
                self.models.insert(place, (name.copy(), versions))?;
                Ok(())
            }
        }
    }
}
