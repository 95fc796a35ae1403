//! What is read of a text file, within bounds.
ghost use Rattle.std.specs.Io.KnownBytes.{IsAtEnd};
ghost use Rattle.std.specs.Prelude.{◌≡◌, ◌⊎◌, ◌≤◌, vec_len, IfErr, IfOk, OnOk};
ghost use Rattle.fr_cli.specs.Inputs.{IsAllOf};
ghost use Rattle.fr_cli.specs.Texts.{ReadsFront, ReadsWhole};

use crate::fault::Fault;
use crate::files::text_files::TextFiles;
use crate::streams::input::{InputFault, ReadBounds, read_within};
use std::alloc::Global;
use std::io::Read;

/// The most reads in which a file is read, interrupted ones included.
pub const FILE_READS: u32 = 100_000;

/// Reads a file of at most so many bytes. A longer one is `CannotOpen`.
pub fn read_file<F: TextFiles>(
    alloc: Global,
    files: &mut F,
    path: &str,
    bytes: usize,
) -> Result<Vec<u8>, Fault>
    ensures { ReadsWhole F.TextFiles F.Reader.Read bytes path.now files.old files.new result }
{
    let mut reader = open(files, path)?;
    read_whole(alloc, &mut reader, bytes)
}

/// Reads a file, or its first bytes, if it has more than so many.
pub fn read_front<F: TextFiles>(
    alloc: Global,
    files: &mut F,
    path: &str,
    bytes: usize,
) -> Result<Vec<u8>, Fault>
    ensures { ReadsFront F.TextFiles F.Reader.Read bytes path.now files.old files.new result }
{
    let reader = open(files, path)?;
    read_whole(alloc, &mut reader.take(bytes as u64), bytes)
}

// Opens the file at the path.
fn open<F: TextFiles>(files: &mut F, path: &str) -> Result<F::Reader, Fault>
    ensures ok { IfOk result (λ reader. F.opens files.old path.now reader files.new) }
    ensures err { IfErr result (λ fault. (fault ≡ Fault.CannotOpen) × (files.new ≡ files.old)) }
{
    files.open(path).map_err(|_| Fault::CannotOpen)
}

// Reads a reader to its end, within bounds.
fn read_whole<R: Read>(alloc: Global, reader: &mut R, bytes: usize) -> Result<Vec<u8>, Fault>
    ensures whole { IfOk result (λ text. IsAllOf R.Read reader.old text.items) }
    ensures end { OnOk result (IsAtEnd (R.remaining reader.new)) }
    ensures bound { IfOk result (λ text. vec_len text ≤ bytes) }
    ensures fault { IfErr result (λ fault. (fault ≡ Fault.CannotOpen) ⊎ (fault ≡ Fault.NoMemory)) }
{
    let bounds = ReadBounds {
        bytes,
        reads: FILE_READS,
    };
    match read_within(alloc, reader, bounds) {
        Ok(text) => Ok(text),
        Err(InputFault::NoMemory) => Err(Fault::NoMemory),
        Err(_) => Err(Fault::CannotOpen),
    }
}
