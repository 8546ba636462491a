//! The anomalies of a model's fermions.
#![tactic(auto)]

mod anomaly;
mod charges;
mod check;
mod counts;

pub use anomaly::{Anomaly, AnomalyError, AnomalyKind};
pub use check::check_anomalies;
