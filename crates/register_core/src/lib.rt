//! The register of model files and kept outputs: what keeps it, and the calls over any keeper.
#![tactic(auto)]

mod broken_keeper;
mod keeper;
mod memory_keeper;
mod memory_tables;
mod model_table;
mod register;
mod register_fault;
mod run_table;
mod sure_keeper;

pub use broken_keeper::BrokenKeeper;
pub use keeper::{KeepFault, Keeper, RunKey};
pub use memory_keeper::MemoryKeeper;
pub use register::{
    MOST_VERSIONS, NameCount, NameCountList, RunState, keep_run, list, run_kept, show, store,
};
pub use register_fault::RegisterFault;
pub use sure_keeper::SureKeeper;
