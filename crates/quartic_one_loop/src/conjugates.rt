//! The conjugate of a Yukawa tensor.
ghost use Rattle.std.specs.Prelude.{◌≡◌, ◌<◌, length, get_or, IfOk, IfErr};
ghost use Rattle.sparse_tensor.specs.Refusals.{IsTensorRefusal};
ghost use Rattle.model_core.specs.Scalar.{scalar_coordinates};
ghost use Rattle.model_core.specs.Valid.{IsValid};
ghost use Rattle.quartic_one_loop.specs.FourLegs.{IsYukawa};
ghost use Rattle.quartic_one_loop.specs.Boxes.{IsConjugate, IsConjugateValue};

use beta_poly::Poly;
use frac128::NumberList;
use model_core::{Model, partner};
use sparse_tensor::{Sparse, TensorFault, Value, ValueList};
use std::alloc::{AllocError, Global};

/// What an entry gives the conjugate tensor: the conjugate value, at the partner of the scalar.
pub fn conjugate_value(
    alloc: Global,
    model: &Model,
    key: &[u32],
    value: &Poly,
) -> Result<Value, AllocError>
    requires valid { IsValid model.now }
    requires key { length key.now ≡ 3 }
    requires inside { get_or key.now 2 0 < length (scalar_coordinates model.now) }
    ensures { IfOk result (IsConjugateValue model.now (key.now, value.now)) }
{
    let mut places = NumberList::new(alloc);
    places.push(key[0])?;
    places.push(key[1])?;
    places.push(partner(model, key[2]))?;
    Ok(Value {
        key: places,
        value: value.conj(alloc)?,
    })
}

/// The tensor that has Yd[a], the conjugate of Y[a*], at the place of each scalar coordinate a.
pub fn conjugate_tensor(
    alloc: Global,
    model: &Model,
    yukawa: &Sparse,
) -> Result<Sparse, TensorFault>
    requires valid { IsValid model.now }
    requires yukawa { IsYukawa model.now yukawa.now }
    ensures value { IfOk result (IsConjugate model.now) }
    ensures refused { IfErr result IsTensorRefusal }
{
    let mut values = ValueList::new(alloc);
    for place in 0..yukawa.len() {
        let (key, value) = yukawa.item(place);
        values.push(conjugate_value(alloc, model, key, value)?)?;
    }
    Sparse::gather(alloc, 3, values)
}
