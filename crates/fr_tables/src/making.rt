//! Makes the tables, by one statement each: first those of the schema before, then the one that
//! this schema adds.

ghost use Rattle.fr_tables.specs.Changes.{Runs};
ghost use Rattle.fr_tables.specs.Making.{MakesTable, MakesOld, MakesOldWhole, Renews, Grows, MakesWhole};

use sqlite::{Alter, Error, Transaction};

fn register<S: Alter>(tx: &mut Transaction<'_, S>) -> Result<usize, Error>
    ensures { Runs S.Store (MakesTable 0 0 1 0) tx.old tx.new result }
{
    tx.execute(
        "CREATE TABLE register (id INTEGER NOT NULL PRIMARY KEY CHECK (id = 1), schema INTEGER NOT NULL) STRICT",
        &[],
    )
}

fn cluster<S: Alter>(tx: &mut Transaction<'_, S>) -> Result<usize, Error>
    ensures { Runs S.Store (MakesTable 1 0 2 0) tx.old tx.new result }
{
    tx.execute(
        "CREATE TABLE cluster (id INTEGER NOT NULL PRIMARY KEY CHECK (id = 1), static_slots INTEGER NOT NULL, slot_macroticks INTEGER NOT NULL, dynamic_macroticks INTEGER NOT NULL, symbol_macroticks INTEGER NOT NULL, idle_macroticks INTEGER NOT NULL, macroticks_per_cycle INTEGER NOT NULL, payload_words INTEGER NOT NULL, channels TEXT NOT NULL, integrator TEXT NOT NULL) STRICT",
        &[],
    )
}

fn suppliers<S: Alter>(tx: &mut Transaction<'_, S>) -> Result<usize, Error>
    ensures { Runs S.Store (MakesTable 2 0 3 2) tx.old tx.new result }
{
    tx.execute(
        "CREATE TABLE suppliers (name TEXT NOT NULL PRIMARY KEY, key TEXT NOT NULL UNIQUE) STRICT",
        &[],
    )
}

fn nodes<S: Alter>(tx: &mut Transaction<'_, S>) -> Result<usize, Error>
    ensures { Runs S.Store (MakesTable 3 2 4 3) tx.old tx.new result }
{
    tx.execute(
        "CREATE TABLE nodes (supplier TEXT NOT NULL REFERENCES suppliers (name), name TEXT NOT NULL, PRIMARY KEY (supplier, name)) STRICT",
        &[],
    )
}

fn variants<S: Alter>(tx: &mut Transaction<'_, S>) -> Result<usize, Error>
    ensures { Runs S.Store (MakesTable 4 3 5 4) tx.old tx.new result }
{
    tx.execute(
        "CREATE TABLE variants (name TEXT NOT NULL PRIMARY KEY, parent TEXT, depth INTEGER NOT NULL CHECK (depth >= 1 AND depth <= 16), released INTEGER NOT NULL CHECK (released = 0 OR released = 1), overlay INTEGER NOT NULL CHECK (overlay = 0 OR overlay = 1)) STRICT",
        &[],
    )
}

fn grants<S: Alter>(tx: &mut Transaction<'_, S>) -> Result<usize, Error>
    ensures { Runs S.Store (MakesTable 5 4 6 5) tx.old tx.new result }
{
    tx.execute(
        "CREATE TABLE grants (variant TEXT NOT NULL, slot INTEGER NOT NULL, channel TEXT NOT NULL, supplier TEXT NOT NULL, node TEXT NOT NULL, PRIMARY KEY (variant, slot, channel), FOREIGN KEY (supplier, node) REFERENCES nodes (supplier, name)) STRICT",
        &[],
    )
}

fn frames<S: Alter>(tx: &mut Transaction<'_, S>) -> Result<usize, Error>
    ensures { Runs S.Store (MakesTable 6 5 7 6) tx.old tx.new result }
{
    tx.execute(
        "CREATE TABLE frames (variant TEXT NOT NULL, supplier TEXT NOT NULL, name TEXT NOT NULL, node TEXT NOT NULL, PRIMARY KEY (variant, supplier, name), FOREIGN KEY (supplier, node) REFERENCES nodes (supplier, name)) STRICT",
        &[],
    )
}

fn placements<S: Alter>(tx: &mut Transaction<'_, S>) -> Result<usize, Error>
    ensures { Runs S.Store (MakesTable 7 6 8 7) tx.old tx.new result }
{
    tx.execute(
        "CREATE TABLE placements (variant TEXT NOT NULL, supplier TEXT NOT NULL, frame TEXT NOT NULL, slot INTEGER NOT NULL, channels TEXT NOT NULL, base INTEGER NOT NULL, repetition INTEGER NOT NULL, PRIMARY KEY (variant, supplier, frame, slot, channels, base, repetition), FOREIGN KEY (variant, supplier, frame) REFERENCES frames (variant, supplier, name) ON DELETE CASCADE) STRICT",
        &[],
    )
}

fn signals<S: Alter>(tx: &mut Transaction<'_, S>) -> Result<usize, Error>
    ensures { Runs S.Store (MakesTable 8 7 9 8) tx.old tx.new result }
{
    tx.execute(
        "CREATE TABLE signals (variant TEXT NOT NULL, supplier TEXT NOT NULL, frame TEXT NOT NULL, name TEXT NOT NULL, start INTEGER NOT NULL, length INTEGER NOT NULL, big INTEGER NOT NULL CHECK (big = 0 OR big = 1), PRIMARY KEY (variant, supplier, frame, name), FOREIGN KEY (variant, supplier, frame) REFERENCES frames (variant, supplier, name) ON DELETE CASCADE) STRICT",
        &[],
    )
}

fn imports<S: Alter>(tx: &mut Transaction<'_, S>) -> Result<usize, Error>
    ensures { Runs S.Store (MakesTable 9 8 10 9) tx.old tx.new result }
{
    tx.execute(
        "CREATE TABLE imports (supplier TEXT NOT NULL, label TEXT NOT NULL, variant TEXT NOT NULL, body BLOB NOT NULL, rows INTEGER NOT NULL, PRIMARY KEY (supplier, label)) STRICT",
        &[],
    )
}

fn dropped<S: Alter>(tx: &mut Transaction<'_, S>) -> Result<usize, Error>
    ensures { Runs S.Store (MakesTable 10 9 11 10) tx.old tx.new result }
{
    tx.execute(
        "CREATE TABLE dropped (variant TEXT NOT NULL, supplier TEXT NOT NULL, frame TEXT NOT NULL, PRIMARY KEY (variant, supplier, frame)) STRICT",
        &[],
    )
}

/// Makes the index by which a variant's grants to a supplier are found.
fn grants_index<S: Alter>(tx: &mut Transaction<'_, S>) -> Result<usize, Error>
    ensures { Runs S.Store MakesOld tx.old tx.new result }
{
    tx.execute(
        "CREATE INDEX grants_by_supplier ON grants (variant, supplier)",
        &[],
    )
}

/// Makes the table that says what the cluster is, in a database with the tables of the schema before.
pub fn cluster2<S: Alter>(tx: &mut Transaction<'_, S>) -> Result<usize, Error>
    ensures { Runs S.Store Renews tx.old tx.new result }
{
    tx.execute(
        "CREATE TABLE cluster2 (id INTEGER NOT NULL PRIMARY KEY CHECK (id = 1), static_slots INTEGER NOT NULL, slot_macroticks INTEGER NOT NULL, dynamic_macroticks INTEGER NOT NULL, symbol_macroticks INTEGER NOT NULL, idle_macroticks INTEGER NOT NULL, macroticks_per_cycle INTEGER NOT NULL, payload_words INTEGER NOT NULL, channels TEXT NOT NULL, integrator TEXT NOT NULL, cycles INTEGER NOT NULL CHECK (cycles >= 8 AND cycles <= 64)) STRICT",
        &[],
    )
}

/// Makes the tables up to the nodes.
fn up_to_nodes<S: Alter>(tx: &mut Transaction<'_, S>) -> Result<(), Error>
    ensures { Runs S.Store (Grows 0 0 4 3) tx.old tx.new result }
{
    register(tx)?;
    cluster(tx)?;
    suppliers(tx)?;
    nodes(tx)?;
    Ok(())
}

/// Makes the tables behind the nodes, up to the placements.
fn up_to_placements<S: Alter>(tx: &mut Transaction<'_, S>) -> Result<(), Error>
    ensures { Runs S.Store (Grows 4 3 8 7) tx.old tx.new result }
{
    variants(tx)?;
    grants(tx)?;
    frames(tx)?;
    placements(tx)?;
    Ok(())
}

/// Makes the tables behind the placements, up to the dropped frames.
fn up_to_dropped<S: Alter>(tx: &mut Transaction<'_, S>) -> Result<(), Error>
    ensures { Runs S.Store (Grows 8 7 11 10) tx.old tx.new result }
{
    signals(tx)?;
    imports(tx)?;
    dropped(tx)?;
    Ok(())
}

/// Makes the tables and the index of the schema before, in a database that has none.
pub fn before<S: Alter>(tx: &mut Transaction<'_, S>) -> Result<(), Error>
    ensures { Runs S.Store MakesOldWhole tx.old tx.new result }
{
    up_to_nodes(tx)?;
    up_to_placements(tx)?;
    up_to_dropped(tx)?;
    grants_index(tx)?;
    Ok(())
}

/// Makes every table of this schema, and the index, in a database that has none.
pub fn every_table<S: Alter>(tx: &mut Transaction<'_, S>) -> Result<(), Error>
    ensures { Runs S.Store MakesWhole tx.old tx.new result }
{
    before(tx)?;
    cluster2(tx)?;
    Ok(())
}
