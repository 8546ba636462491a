//! The model that a file stands for, where it is accepted.
ghost use Rattle.model_core.specs.Valid.{IsValid};
ghost use Rattle.term_expand.specs.Expansion.{IsExpansion};
ghost use Rattle.derive_core.specs.Acceptance.{AreSoundTerms, HasNoAnomaly, IsAccepted};
ghost use Rattle.derive_core.specs.Derivation.{Finds, Settles, Derives};
ghost use Rattle.derive_core.specs.Surveys.{IsSurvey};
ghost use Rattle.derive_core.specs.FirstFaults.{TellsFailure};
ghost use Rattle.derive_core.specs.TermFaults.{HaveNoFault};

use crate::dependence::first_fault;
use crate::fault::DeriveFault;
use crate::survey::{SolverList, Survey, survey_of};
use crate::targets::targets_of;
use anomaly_check::{AnomalyError, check_anomalies};
use gauge_check::{CheckError, TermFault, check_terms};
use model_core::Model;
use model_reader::read_model;
use sparse_tensor::TensorFault;
use std::alloc::Global;
use term_expand::{Tensors, expand};

/// A model that is accepted, the tensors of its terms, and the blocks of their directions.
#[derive(Drop)]
pub struct Accepted {
    pub model: Model,
    pub tensors: Tensors,
    pub solvers: SolverList,
}

/// The first failure of invariance or hermiticity.
fn failure_of(
    alloc: Global,
    model: &Model,
    tensors: &Tensors,
) -> Result<Option<TermFault>, DeriveFault>
    requires valid { IsValid model.now }
    requires tensors { IsExpansion model.now tensors.now }
    ensures { Finds (λ found m. TellsFailure m found) model.now result }
{
    match check_terms(alloc, model, tensors) {
        Ok(()) => Ok(None),
        Err(CheckError::Fault(fault)) => Ok(Some(fault)),
        Err(CheckError::Overflow(pair)) => Err(DeriveFault::Overflow(pair)),
        Err(CheckError::NoMemory) => Err(DeriveFault::NoMemory),
    }
}

/// The blocks of the directions, and the first direction that is dependent.
fn find_survey(alloc: Global, model: &Model, tensors: &Tensors) -> Result<Survey, DeriveFault>
    requires valid { IsValid model.now }
    requires tensors { IsExpansion model.now tensors.now }
    ensures { Finds (λ found m. IsSurvey m found) model.now result }
{
    match survey_of(alloc, model, &tensors.directions) {
        Ok(found) => Ok(found),
        Err(TensorFault::Overflow(pair)) => Err(DeriveFault::Overflow(pair)),
        Err(TensorFault::NoMemory) => Err(DeriveFault::NoMemory),
    }
}

/// Refuses the first fault of a model's terms, and finds the blocks of their directions.
fn check_couplings(
    alloc: Global,
    model: &Model,
    tensors: &Tensors,
) -> Result<SolverList, DeriveFault>
    requires valid { IsValid model.now }
    requires tensors { IsExpansion model.now tensors.now }
    ensures { Settles AreSoundTerms model.now result }
{
    let failure = failure_of(alloc, model, tensors)?;
    let survey = find_survey(alloc, model, tensors)?;
    let targets = targets_of(alloc, model)?;
    match first_fault(
        model,
        &targets,
        &tensors.directions,
        failure,
        survey.dependent,
    ) {
        None => Ok(survey.solvers),
        Some(fault) => Err(DeriveFault::Term(fault)),
    }
}

/// Refuses the first anomaly.
fn check_fermions(model: &Model) -> Result<(), DeriveFault>
    requires valid { IsValid model.now }
    requires terms { HaveNoFault model.now }
    ensures { Settles HasNoAnomaly model.now result }
{
    match check_anomalies(model) {
        Ok(()) => Ok(()),
        Err(AnomalyError::Bad(anomaly)) => Err(DeriveFault::Anomalous(anomaly)),
        Err(AnomalyError::Overflow(pair)) => Err(DeriveFault::Overflow(pair)),
    }
}

/// A model that is accepted, with what is kept of it.
fn accept_model(alloc: Global, model: Model) -> Result<Accepted, DeriveFault>
    requires { IsValid model }
    ensures { Settles IsAccepted model result }
{
    let tensors = expand(alloc, &model)?;
    let solvers = check_couplings(alloc, &model, &tensors)?;
    check_fermions(&model)?;
    Ok(Accepted {
        model,
        tensors,
        solvers,
    })
}

/// The model that the bytes of a file stand for, with what is kept of it: `Read` carries the file's first bad place, `Term`
/// the first fault of a term, and `Anomalous` the first anomaly, in this order.
pub fn accept(alloc: Global, bytes: &[u8]) -> Result<Accepted, DeriveFault>
    ensures { Derives IsAccepted bytes.now result }
{
    let model = read_model(alloc, bytes)?;
    accept_model(alloc, model)
}
