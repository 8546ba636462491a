//! Fields.
ghost use Rattle.std.specs.Prelude.{◌≡◌};
ghost use Rattle.std.specs.List.{list_all};
ghost use Rattle.model_core.specs.Valid.{is_real_rep, is_own_conjugate};

use crate::name::Name;
use frac128::{Frac, ItemList};
use su_reps::Rep;

/// One representation for each group, in file order of groups.
pub type RepList = ItemList<Rep>;

/// A field: a left-handed two-component Weyl fermion, or a scalar.
#[derive(Drop)]
pub struct Field {
    pub name: Name,
    /// How many copies of the field there are.
    pub generations: u32,
    /// The charge under the U(1), 0 where there is none.
    pub charge: Frac,
    /// The representation under each group: the singlet for the U(1).
    pub reps: RepList,
    /// Whether a scalar is real. A fermion is not.
    pub real: bool,
}

/// Fields in file order.
pub type FieldList = ItemList<Field>;

/// Whether each representation is the singlet or the adjoint.
fn are_real(reps: &[Rep]) -> bool
    ensures { result ≡ list_all is_real_rep reps.now }
{
    reps.iter()
        .all(|rep| matches!(rep, Rep::Singlet | Rep::Adjoint))
}

/// Whether a field is its own conjugate, as a real scalar has to be: without a charge, and a singlet or in the adjoint
/// representation of each group.
pub fn is_own_conjugate(field: &Field) -> bool
    ensures { result ≡ is_own_conjugate field.now }
{
    if !are_real(field.reps.as_slice()) {
        return false;
    }
    field.charge == Frac::zero()
}
