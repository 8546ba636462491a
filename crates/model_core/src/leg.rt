//! Legs: the components of fields as they are named and printed.
use crate::inline::InlineBytes;
use crate::name::Name;

/// The values of a component's slots, each from 1 to the n of its group: at most 12.
pub type Slots = InlineBytes<12>;

/// A component of a field: its name, whether it is the conjugate's, its generation (0 where the field has one
/// generation) and its slot values; or the dummy scalar, which fills the free legs of terms with a dimension.
#[derive(Drop)]
pub enum Leg {
    Fermion {
        name: Name,
        conj: bool,
        generation: u32,
        slots: Slots,
    },
    Scalar {
        name: Name,
        conj: bool,
        generation: u32,
        slots: Slots,
    },
    Dummy,
}
