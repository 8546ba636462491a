//! What a block says of a tensor.
use beta_poly::Poly;
use frac128::{ItemList, NumberList};

/// Polynomials in order, which contracts see as a list.
pub type PolyList = ItemList<Poly>;

/// What a block says of a tensor.
#[derive(Drop)]
pub enum Solved {
    /// A polynomial for each direction, in their order, with which the directions add up to the tensor.
    Coordinates(PolyList),

    /// The first key such that no polynomials solve the equations up to it.
    NotSpanned {
        /// The places.
        key: NumberList,
    },
}
