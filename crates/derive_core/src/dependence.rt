//! The first fault of a model's terms: a failure, or a dependent direction.
ghost use Rattle.std.specs.Prelude.{◌≡◌, ◌<◌, length, Some, slice_get};
ghost use Rattle.model_core.specs.Directions.{Direction as Meant, directions as directions_of};
ghost use Rattle.model_core.specs.Valid.{IsValid};
ghost use Rattle.term_expand.specs.Expansion.{AreDirections};
ghost use Rattle.derive_core.specs.Blocks.{IsFirstDependent};
ghost use Rattle.derive_core.specs.FirstFaults.{faulty_term, TellsFailure, TellsFault};
ghost use Rattle.derive_core.specs.Surveys.{TellsDependence};
ghost use Rattle.derive_core.specs.Targets.{targets as targets_of};
ghost use Rattle.derive_core.specs.TermFaults.{IsDependentFault, IsFirstFault};

use crate::betas::TargetList;
use gauge_check::TermFault;
use model_core::Model;
use term_expand::DirectionList;

/// The place of a fault's term, which counts from 1.
fn faulty_term(fault: &TermFault) -> u32
    ensures { result ≡ faulty_term fault.now }
{
    match fault {
        TermFault::NotInvariant { term, .. }
        | TermFault::NotHermitian { term, .. }
        | TermFault::Dependent { term, .. } => *term,
    }
}

/// The fault of the dependent direction at a place.
pub fn dependent_fault(
    model: &Model,
    targets: &TargetList,
    directions: &DirectionList,
    place: u32,
) -> TermFault
    requires valid { IsValid model.now }
    requires targets { targets.now ≡ targets_of model.now }
    requires directions { AreDirections (directions_of model.now) directions.now }
    requires place { place < length directions.now }
    ensures { (meant : Meant) → slice_get (directions_of model.now) place ≡ Some meant → IsDependentFault model.now meant result }
{
    let direction = directions.item(place as usize);
    let target = targets.item(direction.symbol.id as usize);
    TermFault::Dependent {
        term: direction.term,
        coupling: target.name.copy(),
        symbol: direction.symbol,
        row: target.row,
        column: target.column,
    }
}

/// The first fault of terms where a direction is dependent, of which the first stands at a place.
fn first_with(
    model: &Model,
    targets: &TargetList,
    directions: &DirectionList,
    failure: Option<TermFault>,
    place: u32,
) -> TermFault
    requires valid { IsValid model.now }
    requires targets { targets.now ≡ targets_of model.now }
    requires directions { AreDirections (directions_of model.now) directions.now }
    requires failure { TellsFailure model.now failure }
    requires place { place < length directions.now }
    requires first { IsFirstDependent (directions_of model.now) place }
    ensures { IsFirstFault model.now result }
{
    match failure {
        None => dependent_fault(model, targets, directions, place),
        Some(fault) => {
            let direction = directions.item(place as usize);
            if direction.term < faulty_term(&fault) {
                return dependent_fault(model, targets, directions, place);
            }
            fault
        }
    }
}

/// The first fault of terms, from the answer of `check_terms` and the first dependent direction.
pub fn first_fault(
    model: &Model,
    targets: &TargetList,
    directions: &DirectionList,
    failure: Option<TermFault>,
    dependent: Option<u32>,
) -> Option<TermFault>
    requires valid { IsValid model.now }
    requires targets { targets.now ≡ targets_of model.now }
    requires directions { AreDirections (directions_of model.now) directions.now }
    requires failure { TellsFailure model.now failure }
    requires dependent { TellsDependence model.now dependent }
    ensures { TellsFault model.now result }
{
    match dependent {
        None => failure,
        Some(place) => Some(first_with(model, targets, directions, failure, place)),
    }
}
