//! The blocks of a model's directions, and the first direction that is a combination of earlier ones.
ghost use Rattle.std.specs.Prelude.{◌≡◌, ◌∷◌, ◌++◌, [], IfOk, IfErr, OnOk};
ghost use Rattle.std.specs.List.{list_any};
ghost use Rattle.sparse_tensor.specs.Refusals.{IsRefusalOf};
ghost use Rattle.model_core.specs.Directions.{directions as directions_of};
ghost use Rattle.model_core.specs.Valid.{IsValid};
ghost use Rattle.term_expand.specs.Expansion.{AreDirections};
ghost use Rattle.span_solver.specs.BlockDirections.{same_name};
ghost use Rattle.derive_core.specs.Surveys.{IsSurvey};
ghost use Rattle.derive_core.specs.SurveySteps.{earliest, HasName, Covers};

use crate::block_names::copied_name;
use frac128::ItemList;
use model_core::Model;
use span_solver::{Block, SpanFault, same_name};
use sparse_tensor::TensorFault;
use std::alloc::{AllocError, Global};
use term_expand::{BlockName, DirectionList};

/// A block of directions by its name.
#[derive(Drop)]
pub struct Solver {
    pub name: BlockName,
    pub block: Block,
}

/// The blocks in the order in which they are met.
pub type SolverList = ItemList<Solver>;

/// The blocks of directions, and the place of the first direction that is dependent.
#[derive(Drop)]
pub struct Survey {
    pub solvers: SolverList,
    pub dependent: Option<u32>,
}

/// Whether the block of a name is among some.
fn has_solver(solvers: &SolverList, name: &BlockName) -> bool
    ensures { result ≡ list_any (λ solver. same_name solver.name name.now) solvers.now }
{
    solvers.as_slice().iter().any(|solver| same_name(solver.name.as_slice(), name.as_slice()))
}

/// The first of two places, one of which may not be known.
fn earliest(known: Option<u32>, place: u32) -> u32
    ensures { result ≡ earliest known place }
{
    match known {
        None => place,
        Some(known) => known.min(place),
    }
}

/// Adds the block of a name.
fn push_solver(
    alloc: Global,
    survey: &mut Survey,
    name: &BlockName,
    block: Block,
) -> Result<(), AllocError>
    ensures solvers { OnOk result (survey.new.solvers ≡ survey.old.solvers ++ record { name = name.now; block = block } ∷ []) }
    ensures dependent { OnOk result (survey.new.dependent ≡ survey.old.dependent) }
{
    let name = copied_name(alloc, name.as_slice())?;
    survey.solvers.push(Solver { name, block })?;
    Ok(())
}

/// Adds the block of a name unless it has been met, or the first of its directions that is dependent.
fn survey_block(
    alloc: Global,
    model: &Model,
    survey: &mut Survey,
    directions: &DirectionList,
    name: &BlockName,
) -> Result<(), TensorFault>
    requires valid { IsValid model.now }
    requires directions { AreDirections (directions_of model.now) directions.now }
    requires named { HasName model.now name.now }
    ensures step { OnOk result (Covers model.now name.now survey.old survey.new) }
    ensures refused { IfErr result (IsRefusalOf directions.now) }
{
    if has_solver(&survey.solvers, name) {
        return Ok(());
    }
    match Block::new(alloc, directions, name) {
        Ok(block) => {
            push_solver(alloc, survey, name, block)?;
            Ok(())
        }
        Err(SpanFault::Dependent { place }) => {
            survey.dependent = Some(earliest(survey.dependent, place));
            Ok(())
        }
        Err(SpanFault::Overflow(pair)) => Err(TensorFault::Overflow(pair)),
        Err(SpanFault::NoMemory) => Err(TensorFault::NoMemory),
    }
}

/// The blocks of a model's directions, and the first direction that is dependent.
pub fn survey_of(
    alloc: Global,
    model: &Model,
    directions: &DirectionList,
) -> Result<Survey, TensorFault>
    requires valid { IsValid model.now }
    requires directions { AreDirections (directions_of model.now) directions.now }
    ensures value { IfOk result (IsSurvey model.now) }
    ensures refused { IfErr result (IsRefusalOf directions.now) }
{
    let mut survey = Survey {
        solvers: SolverList::new(alloc),
        dependent: None,
    };
    for place in 0..directions.len() {
        let direction = directions.item(place);
        survey_block(alloc, model, &mut survey, directions, &direction.block)?;
    }
    Ok(survey)
}
