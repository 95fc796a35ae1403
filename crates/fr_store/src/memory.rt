//! A register in memory: a database file of which only the bytes are kept.

ghost use Rattle.std.specs.Prelude.{◌≡◌, true, false, refl, length, is_ok, IfOk, IfErr, OnOk, []};
ghost use Rattle.sqlite_disk.specs.Disk.{Holds, Torn, Cut, CountsFault};
ghost use Rattle.sqlite_disk.specs.Refusal.{finds_no_room};
ghost use Rattle.sqlite.specs.Files.{file_state};
ghost use Rattle.fr_base.specs.Book.{opening};
ghost use Rattle.fr_store.specs.Reading.{Stands};
ghost use Rattle.fr_store.specs.Store.{IsNewOf};
ghost use Rattle.fr_store.specs.declared.fault.StoreFault.TheVariants as fault;

use crate::fault::StoreFault;
use crate::store::Store;
use fr_base::Config;
use sqlite::{FileStore, Files, Options};
use sqlite_disk::{Disk, Tally};
use std::alloc::{AllocError, Global};
use std::io;

/// A database's file in memory. A commit is there at once, so a sync has nothing to do.
#[derive(Drop)]
pub struct MemoryFile {
    bytes: Vec<u8>,
    faults: u64,
}

impl MemoryFile {
    /// An empty file.
    pub fn new(alloc: Global) -> MemoryFile
        ensures { result.bytes.items ≡ [] }
    {
        MemoryFile {
            bytes: Vec::new(alloc),
            faults: 0,
        }
    }
}

impl Disk for MemoryFile {
    ghost seen = { λ m. m.bytes.items };

    ghost may_leave = { λ m left. left ≡ m.bytes.items };

    ghost is_usable = { λ _. true };

    ghost faults = { λ m. m.faults };

    ghost is_clean = { λ _. true };

    ghost tally_of = { λ _. record { caught = 0; refused = 0 } };

    ghost key_of = { λ _. 0 };

    ghost is_fair = { λ _ _. true };

    ghost fair_if_clean = { λ _ _ _. refl };

    ghost seen_may_stay = { λ _. refl };

    fn mixes(&self) -> bool {
        false
    }

    // Memory gives back what was written, so it needs no secret.
    fn key(&self) -> u64 {
        0
    }

    fn tally(&self) -> Tally {
        Tally {
            caught: 0,
            refused: 0,
        }
    }

    fn may_be_used(&self) -> bool {
        true
    }

    fn len(&mut self) -> io::Result<usize> {
        Ok(self.bytes.len())
    }

    fn read_at(&mut self, at: usize, buf: &mut [u8]) -> io::Result<()> {
        if at > self.bytes.len() || buf.len() > self.bytes.len() - at {
            return Err(io::ErrorKind::UnexpectedEof.into());
        }
        buf.copy_from_slice(&self.bytes[at..at + buf.len()]);
        Ok(())
    }

    // The bytes have not changed since they were written, so their digest is right.
    fn read_checked(&mut self, _key: u64, _want: u64, at: usize, buf: &mut [u8]) -> io::Result<()> {
        self.read_at(at, buf)
    }

    fn write_at(&mut self, at: usize, bytes: &[u8]) -> io::Result<()> {
        count_fault(overwrite(&mut self.bytes, at, bytes), &mut self.faults)
    }

    fn set_len(&mut self, len: usize) -> io::Result<()> {
        count_fault(resize(&mut self.bytes, len), &mut self.faults)
    }

    fn sync(&mut self) -> io::Result<()> {
        Ok(())
    }
}

/// The salt of the log. Nobody else sees the log.
const SALT: u64 = 1;

/// How many bytes a page of a register in memory has. A change copies each page that it touches.
/// Smaller pages would have more levels.
const PAGE_BYTES: usize = 1_024;

/// The first bytes of a database that has no table and one page of so many bytes: its header, and
/// the head of an empty leaf. All behind them is zero.
const FRONT: &[u8; 108] = b"SQLite format 3\0\x04\0\x02\x02\0@  \0\0\0\x01\0\0\0\x01\
\0\0\0\0\0\0\0\0\0\0\0\0\0\0\0\x04\0\0\0\0\0\0\0\0\0\0\0\x01\0\0\0\0\0\0\0\0\0\0\0\0\
\0\0\0\0\0\0\0\0\0\0\0\0\0\0\0\0\0\0\0\0\0\0\0\x01\0\x2e\x63\x01\x0d\0\0\0\0\x04\0\0";

/// The file of a database that has no table.
fn empty_database(alloc: Global) -> Result<MemoryFile, AllocError>
    ensures { IfOk result (λ file. length file.bytes.items ≡ 1024) }
{
    let mut file = MemoryFile::new(alloc);
    overwrite(&mut file.bytes, 0, FRONT)?;
    resize(&mut file.bytes, PAGE_BYTES)?;
    Ok(file)
}

impl Store<FileStore<MemoryFile>> {
    /// A register of this cluster in memory.
    pub fn create_in_memory(
        alloc: Global,
        config: &Config,
    ) -> Result<Store<FileStore<MemoryFile>>, StoreFault>
        ensures made { IfOk result (λ s. IsNewOf config.now (file_state s.conn).now) }
        ensures stands { IfOk result
            (λ s. Stands (file_state s.conn) config.now.cluster (opening config.now)) }
        ensures committed { IfOk result
            (λ s. (file_state s.conn).committed ≡ (file_state s.conn).now) }
        ensures config { IfOk result (λ s. s.config ≡ config.now) }
        ensures outside { IfOk result (λ s. s.conn.in_transaction ≡ false) }
        ensures told { IfErr result (λ e. e ≡ fault.Unavailable) }
    {
        let db = empty_database(alloc)?;
        let files = Files {
            log: MemoryFile::new(alloc),
            db,
        };
        match Store::create(alloc, files, config, Options::new(SALT)) {
            Ok(store) => Ok(store),
            Err(_) => Err(StoreFault::Unavailable),
        }
    }
}

/// Counts a failure of the call among the faults. Gives the outcome of the call.
fn count_fault(outcome: Result<(), AllocError>, faults: &mut u64) -> io::Result<()>
    ensures variant { is_ok result ≡ is_ok outcome }
    ensures kind { finds_no_room result ≡ false }
    ensures faults { CountsFault result faults.old faults.new }
{
    if outcome.is_err() {
        *faults = faults.saturating_add(1);
        return Err(io::ErrorKind::OutOfMemory.into());
    }
    Ok(())
}

/// Gives the file this length. New bytes are zero.
fn resize(file: &mut Vec<u8>, len: usize) -> Result<(), AllocError>
    ensures len { OnOk result (length file.new.items ≡ len) }
    ensures others { Cut len file.old.items file.new.items }
{
    file.resize(len, 0)
}

/// Writes the bytes at this place, also past the end.
fn overwrite(file: &mut Vec<u8>, at: usize, bytes: &[u8]) -> Result<(), AllocError>
    ensures written { OnOk result (Holds file.new.items at bytes.now) }
    ensures others { Torn at (length bytes.now) file.old.items file.new.items }
{
    let end = at.checked_add(bytes.len()).ok_or(AllocError)?;
    if end > file.len() {
        resize(file, end)?;
    }
    file[at..end].copy_from_slice(bytes);
    Ok(())
}
