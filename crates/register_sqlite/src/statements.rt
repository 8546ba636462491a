//! The texts of the statements.

/// Makes the table of versions, where no table or view has its name.
pub(crate) const MAKE_MODEL: &str =
    "CREATE TABLE IF NOT EXISTS model (name TEXT NOT NULL, version INTEGER NOT NULL, bytes BLOB NOT NULL, PRIMARY KEY (name, version)) STRICT";

/// Makes the table of outputs, where no table or view has its name.
pub(crate) const MAKE_RUN: &str =
    "CREATE TABLE IF NOT EXISTS run (name TEXT NOT NULL, version INTEGER NOT NULL, loops INTEGER NOT NULL, format TEXT NOT NULL, bytes BLOB NOT NULL, PRIMARY KEY (name, version, loops, format), FOREIGN KEY (name, version) REFERENCES model (name, version)) STRICT";

/// The names in byte order. Each has a version 1.
pub(crate) const NAMES: &str = "SELECT name FROM model WHERE version = 1 ORDER BY name";

/// The versions of a name.
pub(crate) const VERSIONS: &str = "SELECT version FROM model WHERE name = ?1 ORDER BY version";

/// The bytes of a version.
pub(crate) const MODEL: &str = "SELECT bytes FROM model WHERE name = ?1 AND version = ?2";

/// The outputs of a version, by their numbers of loops.
pub(crate) const LOOPS: &str = "SELECT loops FROM run WHERE name = ?1 AND version = ?2";

/// Adds a version.
pub(crate) const ADD_MODEL: &str = "INSERT INTO model (name, version, bytes) VALUES (?1, ?2, ?3)";

/// The output that is kept under a key.
pub(crate) const KEPT_RUN: &str =
    "SELECT bytes FROM run WHERE name = ?1 AND version = ?2 AND loops = ?3 AND format = ?4";

/// Keeps an output, where its key has none.
pub(crate) const KEEP_RUN: &str =
    "INSERT INTO run (name, version, loops, format, bytes) VALUES (?1, ?2, ?3, ?4, ?5) ON CONFLICT DO NOTHING";
