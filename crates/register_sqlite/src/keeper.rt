//! The keeper over a connection, with its count of faults.
ghost use Rattle.std.specs.Prelude.{◌≡◌, true, false, IfOk, Err};
ghost use Rattle.register_core.specs.declared.keeper.KeepFault.TheVariants.{Failed};
ghost use Rattle.register_core.specs.Causes.{IsCaused};
ghost use Rattle.register_sqlite.specs.Faults.{told_of, fault_of};

use crate::refusal::Refusal;
use crate::tables;
use frac128::ByteList;
use model_core::{Name, NameList};
use register_core::{KeepFault, Keeper, RunKey};
use sqlite::{Alter, Connection};
use std::alloc::Global;

/// A keeper of the register in an SQLite database. It tells no tables, so no clause says what a
/// call answers. `Failed` raises the count of faults, and every other answer leaves it.
///
/// The code fails where the connection refuses a statement for another cause than memory, and where
/// a row isn't of the form that the register gives it.
#[derive(Drop)]
pub struct SqliteKeeper<D: Alter> {
    connection: Connection<D>,
    count: u64,
    ghost idle: { connection.in_transaction ≡ false },
}

/// The answer of a call, where a failure is counted.
fn tell<T>(count: &mut u64, answer: Result<T, Refusal>) -> Result<T, KeepFault>
    ensures told { result ≡ told_of answer }
    ensures cause { IsCaused count.old count.new result }
{
    match answer {
        Ok(value) => Ok(value),
        Err(Refusal::NoMemory) => Err(KeepFault::NoMemory),
        Err(Refusal::Failed) => {
            *count = count.saturating_add(1);
            Err(KeepFault::Failed)
        }
    }
}

/// A refusal as a keeper's fault, which isn't counted.
fn fault_of(refusal: Refusal) -> KeepFault
    ensures { result ≡ fault_of refusal }
{
    match refusal {
        Refusal::NoMemory => KeepFault::NoMemory,
        Refusal::Failed => KeepFault::Failed,
    }
}

impl<D: Alter + Drop> SqliteKeeper<D> {
    /// The keeper over a connection, with no fault counted. Where a transaction is open the answer is
    /// `Failed` with the connection as it was.
    ///
    /// The code makes each of the tables `model` and `run` whose name no table or view has. Where a
    /// statement is refused it hands the connection back. No clause says what is in the tables then.
    pub fn new(mut connection: Connection<D>) -> Result<SqliteKeeper<D>, (KeepFault, Connection<D>)>
        ensures fresh { IfOk result (λ keeper. keeper.count ≡ 0) }
        ensures open { connection.in_transaction ≡ true → result ≡ Err (Failed, connection) }
    {
        if !connection.is_autocommit() {
            return Err((KeepFault::Failed, connection));
        }
        match tables::make_tables(&mut connection) {
            Ok(()) => Ok(SqliteKeeper {
                connection,
                count: 0,
            }),
            Err(refusal) => Err((fault_of(refusal), connection)),
        }
    }

    /// The connection that it holds, with no transaction open.
    pub fn into_connection(self) -> Connection<D>
        ensures same { result ≡ self.connection }
        ensures idle { result.in_transaction ≡ false }
    {
        let SqliteKeeper {
            connection,
            count: _,
        } = self;
        connection
    }
}

impl<D: Alter> Keeper for SqliteKeeper<D> {
    ghost use Rattle.register_core.specs.Register.{opening};

    ghost is_told = { λ _. ⊥ };

    ghost tables = { λ _. opening };

    ghost faults = { λ k. k.count };

    fn faults(&self) -> u64 {
        self.count
    }

    fn names(&mut self, alloc: Global) -> Result<NameList, KeepFault> {
        let answer = tables::names(&mut self.connection, alloc);
        tell(&mut self.count, answer)
    }

    fn versions(&mut self, _alloc: Global, name: &Name) -> Result<u32, KeepFault> {
        let answer = tables::versions(&mut self.connection, name);
        tell(&mut self.count, answer)
    }

    fn model(
        &mut self,
        alloc: Global,
        name: &Name,
        version: u32,
    ) -> Result<Option<ByteList>, KeepFault> {
        let answer = tables::model(&mut self.connection, alloc, name, version);
        tell(&mut self.count, answer)
    }

    fn add_model(&mut self, _alloc: Global, name: &Name, bytes: &[u8]) -> Result<(), KeepFault> {
        let answer = tables::add_model(&mut self.connection, name, bytes);
        tell(&mut self.count, answer)
    }

    fn kept_run(&mut self, alloc: Global, key: &RunKey) -> Result<Option<ByteList>, KeepFault> {
        let answer = tables::kept_run(&mut self.connection, alloc, key);
        tell(&mut self.count, answer)
    }

    fn keep_run(&mut self, _alloc: Global, key: &RunKey, bytes: &[u8]) -> Result<(), KeepFault> {
        let answer = tables::keep_run(&mut self.connection, key, bytes);
        tell(&mut self.count, answer)
    }
}
