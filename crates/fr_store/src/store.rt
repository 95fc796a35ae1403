//! A register whose rows are kept by SQL: its connection, and its cluster with the suppliers that are there.

ghost use Rattle.std.specs.Prelude.{◌≡◌};
ghost use Rattle.sqlite.specs.Held.{state};
ghost use Rattle.fr_store.specs.Ready.{LooksReady};

use fr_base::Config;
use sqlite::{Alter, Connection};

/// A register: the connection that has its tables, and the cluster of which they tell.
pub struct Store<S: Alter> {
    pub(crate) conn: Connection<S>,
    pub(crate) config: Config,
}

// It is written out, so that a caller does not prove again how each part is dropped.
impl<S: Alter + Drop> Drop for Store<S> {
    fn drop(self) {
        let Store { conn: _, config: _ } = self;
    }
}

impl<S: Alter> Store<S> {
    /// The connection, with its tables as they are.
    pub fn into_connection(self) -> Connection<S>
        ensures { result ≡ self.conn }
    {
        let Store { conn, config: _ } = self;
        conn
    }

    /// What a cluster file says of the register now: the cluster of which the register was made,
    /// and the suppliers that are there.
    pub fn config(&self) -> &Config
        ensures { result.now ≡ self.now.config }
    {
        &self.config
    }

    /// Whether the register can be asked. Where it says so the connection is open. Else a fault of the disk may have shut
    /// it, or memory was wanting: no clause says which.
    pub fn is_ready(&mut self) -> bool
        ensures looks { LooksReady (state S.Store self.old.conn) (state S.Store self.new.conn)
            result }
        ensures config { self.new.config ≡ self.old.config }
    {
        self.conn.prepare("SELECT schema FROM register").is_ok()
    }
}
