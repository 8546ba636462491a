//! Tensors with few values that aren't 0.
ghost use Rattle.std.specs.Prelude.{◌≡◌, ◌≢◌, ◌≤◌, ◌<◌, ◌+◌, ◌-◌, length, map, Some, IfOk, IfErr, MatchOption, slice_get};
ghost use Rattle.std.specs.List.{All, AllPairs};
ghost use Rattle.beta_poly.specs.Polynomial.{zero_poly, ProductsFit};
ghost use Rattle.sparse_tensor.specs.Tensor.{HasRank, HasValues, rank_of, entries_of, value};
ghost use Rattle.sparse_tensor.specs.Operations.{entry, gathered_at, contracted_at, projected_at, symmetrised_at};
ghost use Rattle.sparse_tensor.specs.Refusals.{IsRefusalOf, IsSumRefusalOf};

use crate::contractions::{Legs, joined, ordered_by_leg};
use crate::entries::{Entry, entries_of, find, gather_entries};
use crate::fault::TensorFault;
use crate::links::LinkList;
use crate::projections::moved_entries;
use crate::symmetries::{exchanged_entries, folded_entries, orders_of};
use crate::values::ValueList;
use beta_poly::Poly;
use std::alloc::Global;
use std::marker::Model;

/// A tensor of rank 1 to 8, which contracts see as the rank and the finite map from keys to polynomials.
///
/// The entries stand in the order of their keys, and no value is 0.
#[derive(Debug, Drop)]
pub struct Sparse {
    rank: u32,
    entries: Vec<Entry>,
}

impl Model for Sparse {
    ghost use Rattle.sparse_tensor.specs.Tensor.{Tensor, IsTensor, tensor, tensor_code};

    ghost Value = { Tensor };

    ghost coded = { tensor_code };

    ghost view = { λ s. tensor s.rank s.entries.items };

    ghost invariant = { λ s. IsTensor s.rank s.entries.items };
}

impl Sparse {
    /// The tensor that has at each key the sum of the values with that key.
    ///
    /// The conditions are that the rank is from 1 to 8, and that each key has so many places. `Overflow`
    /// carries two fractions whose sum is refused, and comes only where there is a value.
    pub fn gather(alloc: Global, rank: u32, values: ValueList) -> Result<Sparse, TensorFault>
        requires low { 1 ≤ rank }
        requires high { rank ≤ 8 }
        requires keys { All (λ v. length v.key ≡ rank) values }
        ensures value { IfOk result (HasValues rank (gathered_at (map entry values))) }
        ensures refused { IfErr result (IsSumRefusalOf values) }
    {
        let all = entries_of(alloc, values.into_vec())?;
        let tensor = Sparse::of_entries(alloc, rank, all)?;
        Ok(tensor)
    }

    /// The tensor that has at each key the sum of the values of the entries with that key.
    fn of_entries(alloc: Global, rank: u32, all: Vec<Entry>) -> Result<Sparse, TensorFault>
        requires low { 1 ≤ rank }
        requires high { rank ≤ 8 }
        requires keys { HasRank rank all.items }
        ensures value { IfOk result (HasValues rank (gathered_at all.items)) }
        ensures refused { IfErr result (IsSumRefusalOf all.items) }
    {
        let entries = gather_entries(alloc, all)?;
        Ok(Sparse { rank, entries })
    }

    /// The contraction of a leg with a leg of another tensor along links: at the other legs of this tensor,
    /// then those of the other, the sum over the links of the link's value times the product of the values
    /// with the places that it joins.
    ///
    /// The conditions are that each leg is one of its tensor's, that from 1 to 8 legs are left, and that in
    /// each product of monomials the sums of exponents are at most 1,000. `Overflow` carries two fractions
    /// whose sum or product is refused, and comes only where both tensors have an entry.
    pub fn contract(
        &self,
        alloc: Global,
        leg: u32,
        other: &Sparse,
        other_leg: u32,
        links: &LinkList,
    ) -> Result<Sparse, TensorFault>
        requires leg { leg < rank_of self.now }
        requires other_leg { other_leg < rank_of other.now }
        requires low { 3 ≤ rank_of self.now + rank_of other.now }
        requires high { rank_of self.now + rank_of other.now ≤ 10 }
        requires fits { All (λ a. All (λ b. ProductsFit a.1 b.1) (entries_of other.now)) (entries_of self.now) }
        ensures value { IfOk result (HasValues (rank_of self.now + rank_of other.now - 2) (contracted_at (rank_of self.now - 1) leg other_leg links.now (value self.now) (value other.now))) }
        ensures refused { IfErr result (IsRefusalOf (entries_of self.now)) }
        ensures refused_by_other { IfErr result (IsRefusalOf (entries_of other.now)) }
    {
        let order = ordered_by_leg(alloc, other.entries.as_slice(), other_leg)?;
        let legs = Legs {
            first: leg,
            second: other_leg,
        };
        let all = joined(
            alloc,
            self.entries.as_slice(),
            legs,
            links,
            order.as_slice(),
        )?;
        let tensor = Sparse::of_entries(alloc, self.rank + other.rank - 2, all)?;
        Ok(tensor)
    }

    /// The projection on a leg: at a key with the place x there, the sum over the links to x of the link's
    /// value times the value at the key with the place there that the link comes from.
    ///
    /// The condition is that the leg is one of the tensor's. `Overflow` carries two fractions whose sum or
    /// product is refused, and comes only where the tensor has an entry.
    pub fn project(&self, alloc: Global, leg: u32, links: &LinkList) -> Result<Sparse, TensorFault>
        requires { leg < rank_of self.now }
        ensures value { IfOk result (HasValues (rank_of self.now) (projected_at leg links.now (value self.now))) }
        ensures refused { IfErr result (IsRefusalOf (entries_of self.now)) }
    {
        let all = moved_entries(alloc, self.entries.as_slice(), leg, links)?;
        let tensor = Sparse::of_entries(alloc, self.rank, all)?;
        Ok(tensor)
    }

    /// The symmetrisation over legs: at a key, the sum over all orders of the places at these legs, without
    /// a divisor. Entries whose keys differ by the order of these places alone are added first.
    ///
    /// The condition is that the legs are distinct legs of the tensor's. `Overflow` carries two fractions
    /// whose sum is refused, and comes only where the tensor has an entry.
    pub fn symmetrise(&self, alloc: Global, legs: &[u32]) -> Result<Sparse, TensorFault>
        requires inside { All (λ leg. leg < rank_of self.now) legs.now }
        requires distinct { AllPairs (λ i j. i ≢ j) legs.now }
        ensures value { IfOk result (HasValues (rank_of self.now) (symmetrised_at legs.now (value self.now))) }
        ensures refused { IfErr result (IsSumRefusalOf (entries_of self.now)) }
    {
        let entries = folded_entries(alloc, self.entries.as_slice(), legs)?;
        let folded = gather_entries(alloc, entries)?;
        let orders = orders_of(alloc, legs)?;
        let all = exchanged_entries(alloc, folded.as_slice(), legs, orders.as_slice())?;
        let tensor = Sparse::of_entries(alloc, self.rank, all)?;
        Ok(tensor)
    }

    /// The value at a key, None exactly where it is 0. It takes no memory.
    ///
    /// The condition is that the key has a place for each leg.
    pub fn at(&self, key: &[u32]) -> Option<&Poly>
        requires { length key.now ≡ rank_of self.now }
        ensures { MatchOption result (value self.now key.now ≡ zero_poly) (λ p. (p.now ≡ value self.now key.now) × (p.now ≢ zero_poly)) }
    {
        find(self.entries.as_slice(), key)
    }

    /// The number of places in each key.
    pub fn rank(&self) -> u32
        ensures value { result ≡ rank_of self.now }
        ensures low { 1 ≤ result }
        ensures high { result ≤ 8 }
    {
        self.rank
    }

    /// The number of entries.
    pub fn len(&self) -> usize
        ensures { result ≡ length (entries_of self.now) }
    {
        self.entries.len()
    }

    /// The key and the value at a place, counted from 0 in the order of the keys.
    pub fn item(&self, place: usize) -> (&[u32], &Poly)
        requires { place < length (entries_of self.now) }
        ensures { slice_get (entries_of self.now) place ≡ Some (result.0.now, result.1.now) }
    {
        let entry = &self.entries[place];
        (entry.0.as_slice(), &entry.1)
    }
}
