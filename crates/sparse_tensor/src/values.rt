//! Values with their keys, as they are handed in.
use beta_poly::Poly;
use frac128::{ItemList, NumberList};

/// A value with its key, a place for each leg.
#[derive(Debug, Drop)]
pub struct Value {
    /// The places.
    pub key: NumberList,

    /// The value.
    pub value: Poly,
}

/// A list of values, in any order and with repeats.
pub type ValueList = ItemList<Value>;
