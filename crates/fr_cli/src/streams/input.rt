//! A whole input, read within bounds.
ghost use Rattle.std.specs.Prelude.{◌≡◌, ◌↔◌, ◌⊎◌, ◌+◌, ◌<◌, ◌≤◌, ◌++◌, length, vec_len, IfOk, IfErr, OnOk, IsErrOf};
ghost use Rattle.std.specs.Io.KnownBytes.{IsAtEnd};
ghost use Rattle.fr_cli.specs.Inputs.{Exceeds, IsAllOf, ReadsLine, TakesFront};
ghost use Rattle.fr_cli.specs.ScriptFault.{script_fault_of};
ghost use Rattle.fr_cli.specs.declared.streams.input.InputFault.{InputFault};
ghost use Rattle.fr_cli.specs.declared.streams.input.InputFault.TheVariants.{NoMemory, TooLong};

use crate::script_fault::ScriptFault;
use fr_base::NoMemory;
use fr_text::{split_once, try_again};
use std::alloc::Global;
use std::io::Read;

/// The most bytes that a script may have.
pub const SCRIPT_BYTES: usize = 16_777_216;

/// The most reads in which a script is read, interrupted ones and the one that meets its end included.
pub const SCRIPT_READS: u32 = 20_000_000;

/// How many bytes one read asks for.
pub const PIECE_BYTES: usize = 8192;

/// How much of an input is read.
#[derive(Clone, Copy, PartialEq, Eq)]
pub struct ReadBounds {
    /// The most bytes that the input may have.
    pub bytes: usize,
    /// The most reads, interrupted ones and the one that meets the end included.
    pub reads: u32,
}

/// Why an input was not read to its end.
#[derive(Clone, Copy, Debug, PartialEq, Eq)]
pub enum InputFault {
    /// The input has more bytes than the bound.
    TooLong,
    /// The input's end was not reached in as many reads as the bound.
    TooManyReads,
    /// A read failed, other than by an interruption.
    ReadFailed,
    /// There was no memory for the input.
    NoMemory,
}

impl From<NoMemory> for InputFault {
    ghost use Rattle.fr_cli.specs.declared.streams.input.InputFault.TheVariants.{NoMemory};

    ghost from_gives = { λ _ fault. fault ≡ NoMemory };

    fn from(_refused: NoMemory) -> Self {
        Self::NoMemory
    }
}

impl From<InputFault> for ScriptFault {
    ghost use Rattle.fr_cli.specs.ScriptFault.{script_fault_of};

    ghost from_gives = { λ fault script_fault. script_fault ≡ script_fault_of fault };

    fn from(fault: InputFault) -> Self {
        match fault {
            InputFault::TooLong => Self::TooLong,
            InputFault::TooManyReads => Self::TooManyReads,
            InputFault::ReadFailed => Self::ReadFailed,
            InputFault::NoMemory => Self::NoMemory,
        }
    }
}

/// Reads a whole script: at most [`SCRIPT_BYTES`] bytes, in at most [`SCRIPT_READS`] reads. The
/// faults are those of [`read_within`].
pub fn read_all<R: Read>(alloc: Global, reader: &mut R) -> Result<Vec<u8>, ScriptFault>
    ensures whole { IfOk result (λ script. IsAllOf R.Read reader.old script.items) }
    ensures bound { IfOk result (λ script. vec_len script ≤ SCRIPT_BYTES) }
    ensures end { OnOk result (IsAtEnd (R.remaining reader.new)) }
    ensures too_long { IsErrOf result ScriptFault.TooLong → Exceeds R.Read reader.old SCRIPT_BYTES }
    ensures taken { TakesFront R.Read reader.old reader.new }
    ensures fault { IfErr result (λ fault. (input : InputFault) × (fault ≡ script_fault_of input)) }
{
    let bounds = ReadBounds {
        bytes: SCRIPT_BYTES,
        reads: SCRIPT_READS,
    };
    Ok(read_within(alloc, reader, bounds)?)
}

/// Reads an input to its end. A read that is interrupted is tried again. Faults: `TooLong` once
/// more bytes came than the bound, `TooManyReads` where the end was not met in as many reads as
/// the bound, `ReadFailed` where a read failed otherwise, and `NoMemory`.
pub fn read_within<R: Read>(
    alloc: Global,
    reader: &mut R,
    bounds: ReadBounds,
) -> Result<Vec<u8>, InputFault>
    ensures whole { IfOk result (λ input. IsAllOf R.Read reader.old input.items) }
    ensures bound { IfOk result (λ input. vec_len input ≤ bounds.bytes) }
    ensures end { OnOk result (IsAtEnd (R.remaining reader.new)) }
    ensures too_long { IsErrOf result TooLong → Exceeds R.Read reader.old bounds.bytes }
    ensures taken { TakesFront R.Read reader.old reader.new }
{
    let mut input = Vec::new(alloc);
    let mut piece = [0u8; PIECE_BYTES];
    for _ in 0..bounds.reads {
        match reader.read(&mut piece) {
            Ok(0) => return Ok(input),
            Ok(n) => append(&mut input, &piece[..n], bounds.bytes)?,
            Err(error) => try_again(&error, InputFault::ReadFailed)?,
        }
    }
    Err(InputFault::TooManyReads)
}

/// Reads an input until its first line has ended, or the input has. All that the last read gave is kept. The faults are
/// those of [`read_within`].
pub fn read_line<R: Read>(
    alloc: Global,
    reader: &mut R,
    bounds: ReadBounds,
) -> Result<Vec<u8>, InputFault>
    ensures line { IfOk result (λ front. ReadsLine R.Read reader.old reader.new front.items) }
    ensures bound { IfOk result (λ front. vec_len front ≤ bounds.bytes) }
    ensures too_long { IsErrOf result TooLong → Exceeds R.Read reader.old bounds.bytes }
    ensures taken { TakesFront R.Read reader.old reader.new }
{
    let mut front = Vec::new(alloc);
    let mut piece = [0u8; PIECE_BYTES];
    for _ in 0..bounds.reads {
        match reader.read(&mut piece) {
            Ok(0) => return Ok(front),
            Ok(n) => {
                append(&mut front, &piece[..n], bounds.bytes)?;
                if split_once(&front, b'\n').is_some() {
                    return Ok(front);
                }
            }
            Err(error) => try_again(&error, InputFault::ReadFailed)?,
        }
    }
    Err(InputFault::TooManyReads)
}

/// Adds a piece to the input's end, unless the input were then longer than the bound.
pub fn append(input: &mut Vec<u8>, piece: &[u8], bound: usize) -> Result<(), InputFault>
    requires { vec_len input.old ≤ bound }
    ensures ok { OnOk result (input.new.items ≡ input.old.items ++ piece.now) }
    ensures within { vec_len input.new ≤ bound }
    ensures too_long { IsErrOf result TooLong ↔ (bound < vec_len input.old + length piece.now) }
    ensures fault { IfErr result (λ fault. (fault ≡ TooLong) ⊎ (fault ≡ NoMemory)) }
{
    if bound - input.len() < piece.len() {
        return Err(InputFault::TooLong);
    }
    input.extend_from_slice(piece)?;
    Ok(())
}
