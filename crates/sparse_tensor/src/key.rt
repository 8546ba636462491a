//! Keys: the places of an entry, one for each leg.
ghost use Rattle.std.specs.Prelude.{◌≡◌, ◌<◌, ◌≤◌, ◌++◌, length, IfOk, get_or, set};
ghost use Rattle.std.specs.List.{insert, remove};
ghost use Rattle.exact_algebra.specs.TensorContraction.{places_cmp};

use smallvec::SmallVec;
use std::alloc::{AllocError, Global};
use std::cmp::Ordering;
use std::marker::Model;

/// The places of an entry, which contracts see as a list of numbers. Up to eight stand in the value itself.
#[derive(Debug, Drop)]
pub(crate) struct Key {
    places: SmallVec<u32, 8>,
}

impl Model for Key {
    ghost use Rattle.std.specs.Prelude.{List, ℕ};

    ghost Value = { List ℕ };

    ghost view = { λ k. k.places.items };
}

/// The order of keys: the first place at which they differ decides.
fn compare(a: &[u32], b: &[u32]) -> Ordering
    ensures { result ≡ places_cmp a.now b.now }
{
    a.cmp(b)
}

impl Key {
    /// The key of these places.
    pub(crate) fn from_slice(alloc: Global, places: &[u32]) -> Result<Key, AllocError>
        ensures { IfOk result (λ k. k ≡ places.now) }
    {
        let places = SmallVec::from_slice(alloc, places)?;
        Ok(Key { places })
    }

    /// An equal key.
    pub(crate) fn copy(&self, alloc: Global) -> Result<Key, AllocError>
        ensures { IfOk result (λ k. k ≡ self.now) }
    {
        Key::from_slice(alloc, self.places.as_slice())
    }

    /// The places as a slice.
    pub(crate) fn as_slice(&self) -> &[u32]
        ensures { result.now ≡ self.now }
    {
        self.places.as_slice()
    }

    /// The order of keys.
    pub(crate) fn cmp(&self, other: &Key) -> Ordering
        ensures { result ≡ places_cmp self.now other.now }
    {
        compare(self.places.as_slice(), other.places.as_slice())
    }

    /// The order of a key and of places.
    pub(crate) fn cmp_places(&self, places: &[u32]) -> Ordering
        ensures { result ≡ places_cmp self.now places.now }
    {
        compare(self.places.as_slice(), places)
    }

    /// The key with another place at a leg.
    pub(crate) fn with(&self, alloc: Global, leg: u32, place: u32) -> Result<Key, AllocError>
        requires { leg < length self.now }
        ensures { IfOk result (λ k. k ≡ set self.now leg place) }
    {
        let mut key = self.copy(alloc)?;
        key.put(leg, place);
        Ok(key)
    }

    /// The other places of a key behind the places other than the one at a leg.
    pub(crate) fn joined(
        &self,
        alloc: Global,
        leg: u32,
        other: &Key,
        other_leg: u32,
    ) -> Result<Key, AllocError>
        requires first { leg < length self.now }
        requires second { other_leg < length other.now }
        ensures { IfOk result (λ k. k ≡ remove self.now leg ++ remove other.now other_leg) }
    {
        let mut places = SmallVec::from_slice(alloc, self.places.as_slice())?;
        places.remove(leg as usize);
        let mut rest: SmallVec<u32, 8> = SmallVec::from_slice(alloc, other.places.as_slice())?;
        rest.remove(other_leg as usize);
        places.append(&mut rest)?;
        Ok(Key { places })
    }

    /// Puts another place at a leg.
    pub(crate) fn put(&mut self, leg: u32, place: u32)
        requires { leg < length self.old }
        ensures { self.new ≡ set self.old leg place }
    {
        self.places.as_mut_slice()[leg as usize] = place;
    }

    /// The list with one more item at a place.
    pub(crate) fn inserted(&self, alloc: Global, place: usize, item: u32) -> Result<Key, AllocError>
        requires { place ≤ length self.now }
        ensures { IfOk result (λ k. k ≡ insert self.now place item) }
    {
        let mut places = SmallVec::from_slice(alloc, self.places.as_slice())?;
        places.insert(place, item)?;
        Ok(Key { places })
    }

    /// The number of places.
    pub(crate) fn len(&self) -> usize
        ensures { result ≡ length self.now }
    {
        self.places.len()
    }

    /// The place at a leg, 0 where there is no such leg.
    pub(crate) fn at(&self, leg: u32) -> u32
        ensures { result ≡ get_or self.now leg 0 }
    {
        match self.places.as_slice().get(leg as usize) {
            Some(place) => *place,
            None => 0,
        }
    }
}
