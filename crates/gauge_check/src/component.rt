//! Components of blocks, as they are named and printed.
ghost use Rattle.std.specs.Prelude.{◌≡◌, ◌≤◌, ◌<◌, ◌++◌, ◌∷◌, [], List, length, take};
ghost use Rattle.model_core.specs.Invariance.{component_legs};
ghost use Rattle.model_core.specs.Valid.{IsValid};
ghost use Rattle.term_expand.specs.Multiples.{HasCoordinates};
ghost use Rattle.gauge_check.specs.Legs.{HasPlace, leg_on_side, leg_of_place};

use model_core::{Leg, Model as GaugeModel, TermKind, fermion_leg, scalar_leg};
use std::marker::Model;

/// A component of a block: at most four legs, in a fixed array.
#[derive(Drop)]
pub struct Component {
    legs: [Leg; 4],
    len: usize,
}

impl Model for Component {
    ghost use Rattle.std.specs.Prelude.{List, take, ◌≤◌};
    ghost use Rattle.model_core.specs.declared.leg.Leg.{Leg as LegValue};

    ghost Value = { List LegValue };

    ghost view = { λ s. take s.len s.legs };

    ghost invariant = { λ s. s.len ≤ 4 };
}

impl Component {
    /// No legs.
    pub fn new() -> Component
        ensures { result ≡ [] }
    {
        Component {
            legs: [Leg::Dummy, Leg::Dummy, Leg::Dummy, Leg::Dummy],
            len: 0,
        }
    }

    /// Puts a leg at the end.
    pub fn push(&mut self, leg: Leg)
        requires { length self.old < 4 }
        ensures { self.new ≡ self.old ++ leg ∷ [] }
    {
        self.legs[self.len] = leg;
        self.len += 1;
    }

    /// The legs in order.
    pub fn as_slice(&self) -> &[Leg]
        ensures value { result.now ≡ self.now }
        ensures short { length self.now ≤ 4 }
    {
        &self.legs[..self.len]
    }
}

/// A fermion's leg on a side of a block: on side 1 that of the conjugate field.
fn on_side(leg: Leg, side: u32) -> Leg
    ensures { result ≡ leg_on_side side leg }
{
    match leg {
        Leg::Fermion {
            name,
            generation,
            slots,
            ..
        } => Leg::Fermion {
            name,
            conj: side != 0,
            generation,
            slots,
        },
        other => other,
    }
}

/// The leg at a place of a kind of terms, on a side of a block.
fn leg_at(model: &GaugeModel, kind: TermKind, side: u32, leg: usize, place: u32) -> Leg
    requires valid { IsValid model.now }
    requires inside { HasPlace model.now kind leg place }
    ensures { result ≡ leg_of_place model.now kind side leg place }
{
    match kind {
        TermKind::Fermion => {
            if leg < 2 {
                return on_side(fermion_leg(model, place), side);
            }
            scalar_leg(model, place)
        }
        TermKind::Scalar => scalar_leg(model, place),
    }
}

/// The component at a key, which has a place for each leg of a kind of terms, on a side of a block.
pub fn component_at(model: &GaugeModel, kind: TermKind, side: u32, key: &[u32]) -> Component
    requires valid { IsValid model.now }
    requires inside { HasCoordinates model.now kind key.now }
    ensures { result ≡ component_legs model.now kind (side ∷ key.now) }
{
    let mut component = Component::new();
    for leg in 0..key.len() {
        component.push(leg_at(model, kind, side, leg, key[leg]));
    }
    component
}
