//! Edits of the register's rows, all carried out in one transaction, or none.

ghost use Rattle.std.specs.Prelude.{◌≡◌, false, IfOk, OnErr, OnOk, unwrap_or};
ghost use Rattle.sqlite.specs.Held.{state};
ghost use Rattle.fr_store.specs.Applying.{CarriesOutAll, CommitsEdits, Edits, LeavesAfter, Within};
ghost use Rattle.fr_store.specs.Joined.{after_edits};
ghost use Rattle.fr_store.specs.Sparing.{ChangeNoFrame, SparesFrames};

use crate::applying::edits::carry_out;
use crate::fault::StoreFault;
use crate::store::Store;
use fr_base::Config;
use fr_world::Edit;
use sqlite::{Alter, Connection, Transaction};
use std::alloc::Global;

/// Carries the edits out, one after another. Gives the config after them, or None where that stays as
/// it was.
fn carry_out_all<S: Alter>(
    tx: &mut Transaction<'_, S>,
    alloc: Global,
    config: &Config,
    edits: &[Edit],
) -> Result<Option<Config>, StoreFault>
    ensures carried { Edits S.Store (CarriesOutAll edits.now) tx.old tx.new result }
    ensures spared { ChangeNoFrame edits.now → Within S.Store SparesFrames tx.old tx.new result }
    ensures after { IfOk result (λ after.
        unwrap_or after config.now ≡ after_edits config.now edits.now) }
{
    let mut after: Option<Config> = None;
    for edit in edits {
        let before = after.as_ref().unwrap_or(config);
        if let Some(next) = carry_out(tx, alloc, before, edit)? {
            after = Some(next);
        }
    }
    Ok(after)
}

/// Carries all edits out in one transaction. Gives the config after them, or None where that stays as
/// it was. Where an edit fails, or memory for the config is refused, the transaction is given up.
fn in_one_transaction<S: Alter>(
    conn: &mut Connection<S>,
    alloc: Global,
    config: &Config,
    edits: &[Edit],
) -> Result<Option<Config>, StoreFault>
    requires { conn.old.in_transaction ≡ false }
    ensures edited { CommitsEdits edits.now (state S.Store conn.old) (state S.Store conn.new)
        result }
    ensures autocommit { conn.new.in_transaction ≡ false }
    ensures after { IfOk result (λ after.
        unwrap_or after config.now ≡ after_edits config.now edits.now) }
{
    // Gives the proof that all changes so far are committed.
    let _committed = conn.is_autocommit();
    let mut tx = conn.transaction();
    let after = carry_out_all(&mut tx, alloc, config, edits)?;
    tx.commit()?;
    Ok(after)
}

impl<S: Alter> Store<S> {
    /// Carries the edits out, one after the other: all of them, or none. Each has to fit the rows that those before it
    /// left: what it adds is not there, what it names or takes out is there, a variant that changes is open, and a parent
    /// is released. The config then lists the suppliers that joined, and the keys that were changed. The only refusal is
    /// `Unavailable`, also where the config does not admit a supplier or a key. Then the config is as it was, and so are
    /// the rows while the connection is open; but a crash may leave the rows after the edits. Where they were carried out,
    /// a crash leaves no others.
    pub fn apply(&mut self, alloc: Global, edits: &[Edit]) -> Result<(), StoreFault>
        ensures edited { CommitsEdits edits.now (state S.Store self.old.conn)
            (state S.Store self.new.conn) result }
        ensures left { LeavesAfter edits.now (state S.Store self.old.conn)
            (state S.Store self.new.conn) result }
        ensures outside { self.old.conn.in_transaction ≡ false
            → self.new.conn.in_transaction ≡ false }
        ensures config { OnOk result (self.new.config ≡ after_edits self.old.config edits.now) }
        ensures same { OnErr result (self.new.config ≡ self.old.config) }
    {
        if !self.conn.is_autocommit() {
            return Err(StoreFault::Unavailable);
        }
        // The config changes only where all edits were committed.
        let after = in_one_transaction(&mut self.conn, alloc, &self.config, edits)?;
        if let Some(config) = after {
            self.config = config;
        }
        Ok(())
    }
}
