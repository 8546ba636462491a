//! The register of model files and kept outputs in an SQLite database.
//!
//! The database has a table `model`, with a row for each version of a name, and a table `run`, with
//! a row for each kept output. Other tables may stand beside them. Each call of the keeper is one
//! statement, or one transaction. What the statements find and change is shown by tests alone: the
//! keeper tells no tables, so its clauses say only which failures are counted.
#![tactic(auto)]

mod keeper;
mod refusal;
mod rows;
mod statements;
mod tables;

pub use keeper::SqliteKeeper;
