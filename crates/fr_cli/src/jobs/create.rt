//! Makes a register file.
ghost use Rattle.std.specs.Prelude.{◌≡◌, IfErr, IfOk, Ok, OnOk};
ghost use Rattle.fr_text.specs.ClusterFile.{config_of};
ghost use Rattle.fr_cli.specs.Faults.{IsClusterFault, IsNotCreated, IsNotMade, IsNotRead};
ghost use Rattle.fr_cli.specs.Handlings.{IsMadeAt, handlings};
ghost use Rattle.fr_cli.specs.RegisterFiles.{IsCreated, IsLeftNew};
ghost use Rattle.fr_cli.specs.Texts.{IsClusterAt, readings};

use crate::fault::Fault;
use crate::files::file_contents::read_file;
use crate::files::registers::Registers;
use crate::files::text_files::TextFiles;
use fr_base::Config;
use fr_desks::Left;
use fr_text::read_config;
use sqlite::Leftover;
use std::alloc::Global;

/// The most bytes that a cluster file may have.
pub const CONFIG_BYTES: usize = 1_048_576;

/// Makes the register of the cluster file at `config` in the file at `db`, and gives what is left of the latter.
/// The cluster file is one of `files`. Where it is not read, the register's file is not touched.
pub fn create<G: Registers, F: TextFiles>(
    alloc: Global,
    registers: &mut G,
    db: &str,
    config: &str,
    files: &mut F,
) -> (Result<(), Fault>, Left<G::File>)
    ensures fault { let read = readings F.TextFiles F.Reader.Read files.old files.new in
        IfErr result.0 (IsNotCreated (G.holds registers.old db.now) result.1 read config.now) }
    ensures made { let read = readings F.TextFiles F.Reader.Read files.old files.new in
        IsCreated (G.holds registers.old db.now) result.1 read config.now result.0 }
    ensures files { let read = readings F.TextFiles F.Reader.Read files.old files.new in
        IsMadeAt (handlings G.Registers registers.old registers.new) result.1 read db.now
        config.now }
{
    match read_cluster(alloc, files, config) {
        Ok(config) => make(registers, db, &config),
        Err(fault) => (Err(fault), None),
    }
}

// Makes the register of this cluster in the file at `db`.
fn make<G: Registers>(
    registers: &mut G,
    db: &str,
    config: &Config,
) -> (Result<(), Fault>, Left<G::File>)
    ensures fault { IfErr result.0 (IsNotMade (G.holds registers.old db.now) result.1 config.now) }
    ensures made { OnOk result.0 (IsLeftNew (G.holds registers.old db.now) result.1 config.now) }
    ensures files { (handlings G.Registers registers.old registers.new).made db.now config.now }
{
    match registers.create(db, config) {
        Ok(files) => (Ok(()), Some(Leftover::Files(files))),
        Err((fault, left)) => (Err(Fault::Register(fault)), left),
    }
}

// What the cluster file at a path says.
fn read_cluster<F: TextFiles>(alloc: Global, files: &mut F, path: &str) -> Result<Config, Fault>
    ensures read { let read = readings F.TextFiles F.Reader.Read files.old files.new in
        IfOk result (IsClusterAt read path.now) }
    ensures fault { let read = readings F.TextFiles F.Reader.Read files.old files.new in
        IfErr result (IsNotRead read path.now) }
{
    let text = read_file(alloc, files, path, CONFIG_BYTES)?;
    cluster_in(alloc, &text)
}

// What the bytes of a cluster file say.
fn cluster_in(alloc: Global, text: &[u8]) -> Result<Config, Fault>
    ensures read { IfOk result (λ config. config_of text.now ≡ Ok config) }
    ensures fault { IfErr result (IsClusterFault text.now) }
{
    Ok(read_config(alloc, text)?)
}
