//! The terms of gauge betas at two loops that have gauge couplings alone.
ghost use Rattle.std.specs.Prelude.{◌≡◌, ℕ, ◌+◌, ◌^◌, ◌<◌, slice_get, Some, IfOk, IfErr};
ghost use Rattle.beta_poly.specs.Polynomial.{add_poly};
ghost use Rattle.model_core.specs.GaugeTwoLoop.{gauge_symbol, mixed_number};
ghost use Rattle.model_core.specs.Plain.{IsPlain};
ghost use Rattle.model_core.specs.Valid.{IsValid};
ghost use Rattle.gauge_two_loop.specs.Refused.{IsPlainRefusal};
ghost use Rattle.gauge_two_loop.specs.Pieces.{AllShares, gauge_piece, gauge_part};

use crate::casimirs::{mixed_of, own_of};
use beta_poly::{Mono, Poly, Symbol};
use frac128::Frac;
use model_core::{Group, Model};
use sparse_tensor::TensorFault;
use std::alloc::{AllocError, Global};

/// The gauge coupling of the group at a place.
pub fn gauge_symbol(place: usize) -> Symbol
    requires { place < 2 ^ 16 }
    ensures { result ≡ gauge_symbol place }
{
    Symbol {
        id: place as u16,
        real: true,
        conj: false,
    }
}

/// A number times g_k^3 g_l^2.
fn gauge_piece(alloc: Global, k: usize, l: usize, number: Frac) -> Result<Poly, AllocError>
    requires k { k < 2 ^ 16 }
    requires l { l < 2 ^ 16 }
    ensures { IfOk result (λ piece. piece ≡ gauge_piece k l number) }
{
    let cube = Mono::power(alloc, gauge_symbol(k), 3)?;
    let square = Mono::power(alloc, gauge_symbol(l), 2)?;
    let mono = cube.times(alloc, &square)?;
    Poly::term(alloc, &mono, number)
}

/// A sum, and the term of the groups at two places more.
fn add_mixed(
    alloc: Global,
    sum: &Poly,
    model: &Model,
    k: usize,
    first: &Group,
    l: usize,
    second: &Group,
) -> Result<Poly, TensorFault>
    requires valid { IsValid model.now }
    requires first { slice_get model.now.groups k ≡ Some first.now }
    requires second { slice_get model.now.groups l ≡ Some second.now }
    requires small { IsPlain model.now → AllShares (2 ^ 100) sum.now }
    ensures value { IfOk result (λ more. more ≡ add_poly sum.now (gauge_piece k l (mixed_number model.now (k, first.now) (l, second.now)))) }
    ensures refused { IfErr result (IsPlainRefusal model.now) }
    ensures bound { (bound : ℕ) → IsPlain model.now → AllShares bound sum.now → IfOk result (AllShares (bound + 2 ^ 91)) }
{
    let number = mixed_of(model, k, first, l, second)?;
    let piece = gauge_piece(alloc, k, l, number)?;
    Ok(sum.add(alloc, &piece)?)
}

/// The terms of a group's beta function that have gauge couplings alone.
pub fn gauge_part(
    alloc: Global,
    model: &Model,
    k: usize,
    group: &Group,
) -> Result<Poly, TensorFault>
    requires valid { IsValid model.now }
    requires group { slice_get model.now.groups k ≡ Some group.now }
    ensures value { IfOk result (λ part. part ≡ gauge_part model.now (k, group.now)) }
    ensures refused { IfErr result (IsPlainRefusal model.now) }
{
    let mut sum = gauge_piece(alloc, k, k, own_of(model, k, group))?;
    let groups = model.groups.as_slice();
    for l in 0..groups.len() {
        sum = add_mixed(alloc, &sum, model, k, group, l, &groups[l])?;
    }
    Ok(sum)
}
