//! Multiples of tensors with four legs.
ghost use Rattle.std.specs.Prelude.{◌≡◌, OnOk, IfErr};
ghost use Rattle.beta_poly.specs.Exponents.{AllWithin};
ghost use Rattle.beta_poly.specs.Polynomial.{mul_poly, scale_poly};
ghost use Rattle.sparse_tensor.specs.Refusals.{IsTensorRefusal};
ghost use Rattle.sparse_tensor.specs.Tensor.{HasValues, rank_of};
ghost use Rattle.model_core.specs.declared.model.Model.{Model};
ghost use Rattle.beta_formulas.specs.ScalarBeta.{FourLegs};
ghost use Rattle.quartic_one_loop.specs.FourLegs.{AddsFour, AreWithin, four_at};

use beta_poly::Poly;
use frac128::Frac;
use sparse_tensor::{Sparse, TensorFault, Value, ValueList};
use std::alloc::Global;
use term_expand::copied;

/// Adds a number times a tensor.
pub fn push_scaled(
    alloc: Global,
    values: &mut ValueList,
    number: Frac,
    tensor: &Sparse,
) -> Result<(), TensorFault>
    requires rank { rank_of tensor.now ≡ 4 }
    ensures value { (model : Model) (f : FourLegs) → HasValues 4 (four_at model f) tensor.now → OnOk result (AddsFour model (λ a b c d. scale_poly number (f a b c d)) values.old values.new) }
    ensures refused { IfErr result IsTensorRefusal }
{
    for place in 0..tensor.len() {
        let (key, entry) = tensor.item(place);
        values.push(Value {
            key: copied(alloc, key)?,
            value: entry.scale(alloc, number)?,
        })?;
    }
    Ok(())
}

/// Adds a polynomial times a tensor.
pub fn push_multiple(
    alloc: Global,
    values: &mut ValueList,
    factor: &Poly,
    tensor: &Sparse,
) -> Result<(), TensorFault>
    requires rank { rank_of tensor.now ≡ 4 }
    requires factor { AllWithin 4 factor.now }
    requires tensor { AreWithin 4 tensor.now }
    ensures value { (model : Model) (f : FourLegs) → HasValues 4 (four_at model f) tensor.now → OnOk result (AddsFour model (λ a b c d. mul_poly factor.now (f a b c d)) values.old values.new) }
    ensures refused { IfErr result IsTensorRefusal }
{
    for place in 0..tensor.len() {
        let (key, entry) = tensor.item(place);
        values.push(Value {
            key: copied(alloc, key)?,
            value: factor.mul(alloc, entry)?,
        })?;
    }
    Ok(())
}
