//! The check of all anomalies in their order.
ghost use Rattle.std.specs.Prelude.{◌≡◌, ℕ, ◌≤◌, ◌∷◌, [], not, slice_get, Some, map, filter};
ghost use Rattle.std.specs.List.{flat_map, list_any};
ghost use Rattle.frac128.specs.Rational.{zero_ℚ, eq_ℚ};
ghost use Rattle.model_core.specs.Anomaly.TraceKind.{Gravity, Abelian};
ghost use Rattle.model_core.specs.Anomaly.{gravity_trace, abelian_trace, is_odd, is_bad_value, is_bad, own_trace, mixed_with, special_traces, charge_traces, anomalies, places, abelian_places};
ghost use Rattle.model_core.specs.Groups.{is_abelian};
ghost use Rattle.model_core.specs.Valid.{IsValid};
ghost use Rattle.anomaly_check.specs.Answers.{trace_kind, Answers, AnswersOne};

use crate::anomaly::{Anomaly, AnomalyError, AnomalyKind};
use crate::charges::{abelian_trace, gravity_trace, mixed_trace};
use crate::counts::{cubic_trace, index_trace};
use frac128::Frac;
use model_core::{Group, Model};

/// Whether a trace isn't 0.
fn is_nonzero(trace: &Frac) -> bool
    ensures { result ≡ not (eq_ℚ trace.now zero_ℚ) }
{
    *trace != Frac::zero()
}

/// Whether a whole number is odd.
fn is_odd(trace: &Frac) -> bool
    ensures { result ≡ is_odd trace.now }
{
    trace.num().unsigned_abs() % 2 == 1
}

/// Whether a trace isn't 0, or is odd where it counts doublets.
fn is_bad_value(kind: AnomalyKind, trace: &Frac) -> bool
    ensures { result ≡ is_bad_value (trace_kind kind) trace.now }
{
    match kind {
        AnomalyKind::Global => is_odd(trace),
        AnomalyKind::Cubic | AnomalyKind::Mixed | AnomalyKind::Gravity | AnomalyKind::Abelian => {
            is_nonzero(trace)
        }
    }
}

/// Refuses a bad trace.
fn check_trace(kind: AnomalyKind, group: &Group, trace: Frac) -> Result<(), AnomalyError>
    ensures { AnswersOne (record { kind = trace_kind kind; group = group.now; value = trace }) result }
{
    if is_bad_value(kind, &trace) {
        return Err(AnomalyError::Bad(Anomaly {
            kind,
            group: group.name.copy(),
            trace,
        }));
    }
    Ok(())
}

/// Checks the trace of an SU(n) alone.
fn check_own(model: &Model, place: usize, group: &Group) -> Result<(), AnomalyError>
    requires valid { IsValid model.now }
    requires group { slice_get model.now.groups place ≡ Some group.now }
    requires special { 2 ≤ group.now.n }
    ensures { Answers model.now (filter is_bad (own_trace model.now (place, group.now) ∷ [])) result }
{
    let groups = model.groups.as_slice();
    let fermions = model.fermions.as_slice();
    if group.n == 2 {
        let trace = index_trace(groups, place, group, fermions);
        return check_trace(AnomalyKind::Global, group, trace);
    }
    let trace = cubic_trace(groups, place, group, fermions);
    check_trace(AnomalyKind::Cubic, group, trace)
}

/// Checks the trace of an SU(n) with the charge, where there is a U(1).
fn check_mixed(model: &Model, place: usize, group: &Group) -> Result<(), AnomalyError>
    requires valid { IsValid model.now }
    requires group { slice_get model.now.groups place ≡ Some group.now }
    requires special { 2 ≤ group.now.n }
    ensures { Answers model.now (filter is_bad (map (mixed_with model.now (place, group.now)) (abelian_places model.now))) result }
{
    let groups = model.groups.as_slice();
    if !has_abelian(groups) {
        return Ok(());
    }
    let trace = mixed_trace(groups, place, group, model.fermions.as_slice())?;
    check_trace(AnomalyKind::Mixed, group, trace)
}

/// Whether one of the groups is the U(1).
fn has_abelian(groups: &[Group]) -> bool
    ensures { result ≡ list_any is_abelian groups.now }
{
    groups.iter().any(|group| group.is_abelian())
}

/// Checks the traces of an SU(n); a U(1) has none among these.
fn check_special(model: &Model, place: usize, group: &Group) -> Result<(), AnomalyError>
    requires valid { IsValid model.now }
    requires group { slice_get model.now.groups place ≡ Some group.now }
    ensures { Answers model.now (filter is_bad (special_traces model.now (place, group.now))) result }
{
    if group.is_abelian() {
        return Ok(());
    }
    check_own(model, place, group)?;
    check_mixed(model, place, group)
}

/// Checks the traces of each SU(n) in the order of the file.
fn check_all_special(model: &Model) -> Result<(), AnomalyError>
    requires { IsValid model.now }
    ensures { Answers model.now (filter is_bad (flat_map (special_traces model.now) (places model.now))) result }
{
    for place in 0..model.groups.len() {
        check_special(model, place, model.groups.item(place))?;
    }
    Ok(())
}

/// Checks the trace of the charge.
fn check_gravity(model: &Model, group: &Group) -> Result<(), AnomalyError>
    requires { IsValid model.now }
    ensures { (place : ℕ) → Answers model.now (filter is_bad (record { kind = Gravity; group = group.now; value = gravity_trace model.now (place, group.now) } ∷ [])) result }
{
    let trace = gravity_trace(model.groups.as_slice(), model.fermions.as_slice())?;
    check_trace(AnomalyKind::Gravity, group, trace)
}

/// Checks the trace of the charge's cube.
fn check_cube(model: &Model, group: &Group) -> Result<(), AnomalyError>
    requires { IsValid model.now }
    ensures { (place : ℕ) → Answers model.now (filter is_bad (record { kind = Abelian; group = group.now; value = abelian_trace model.now (place, group.now) } ∷ [])) result }
{
    let trace = abelian_trace(model.groups.as_slice(), model.fermions.as_slice())?;
    check_trace(AnomalyKind::Abelian, group, trace)
}

/// Checks the trace of the charge, then that of its cube.
fn check_charges(model: &Model, group: &Group) -> Result<(), AnomalyError>
    requires { IsValid model.now }
    ensures { (place : ℕ) → Answers model.now (filter is_bad (charge_traces model.now (place, group.now))) result }
{
    check_gravity(model, group)?;
    check_cube(model, group)
}

/// Checks the traces of a U(1); an SU(n) has none among these.
fn check_abelian(model: &Model, group: &Group) -> Result<(), AnomalyError>
    requires { IsValid model.now }
    ensures { (place : ℕ) → Answers model.now (filter is_bad (flat_map (charge_traces model.now) (filter (λ at. is_abelian at.1) ((place, group.now) ∷ [])))) result }
{
    if group.is_abelian() {
        return check_charges(model, group);
    }
    Ok(())
}

/// Checks the traces of the U(1), where there is one.
fn check_all_abelian(model: &Model) -> Result<(), AnomalyError>
    requires { IsValid model.now }
    ensures { Answers model.now (filter is_bad (flat_map (charge_traces model.now) (abelian_places model.now))) result }
{
    for place in 0..model.groups.len() {
        check_abelian(model, model.groups.item(place))?;
    }
    Ok(())
}

/// Refuses the first anomaly of a model: for each SU(n) in the order of the file the cubic trace, or the number of doublets
/// where n is 2, and then the mixed trace with the charge; then the traces of the charge and of its cube.
///
/// `Overflow` comes only where some charge isn't a multiple of 1/6 or is above 10 in size. It takes no memory.
pub fn check_anomalies(model: &Model) -> Result<(), AnomalyError>
    requires { IsValid model.now }
    ensures { Answers model.now (anomalies model.now) result }
{
    check_all_special(model)?;
    check_all_abelian(model)
}
