//! Gauge groups.
ghost use Rattle.std.specs.Prelude.{◌≡◌};
ghost use Rattle.model_core.specs.Groups.{is_abelian, slot_size};

use crate::name::{Latex, Name};
use frac128::ItemList;

/// A gauge group SU(n) with its gauge coupling. A group with n = 1 is the U(1).
#[derive(Drop)]
pub struct Group {
    pub name: Name,
    /// The dimension of the fundamental representation.
    pub n: u32,
    /// The name of the gauge coupling.
    pub coupling: Name,
    /// The gauge coupling in LaTeX.
    pub latex: Latex,
}

impl Group {
    /// Whether the group is the U(1).
    pub fn is_abelian(&self) -> bool
        ensures { result ≡ is_abelian self.now }
    {
        self.n == 1
    }
}

/// Groups in file order.
pub type GroupList = ItemList<Group>;

/// The n of the group at a place: 0 where there is none.
pub fn slot_size(groups: &[Group], slot: u32) -> u32
    ensures { result ≡ slot_size groups.now slot }
{
    match groups.get(slot as usize) {
        Some(group) => group.n,
        None => 0,
    }
}
