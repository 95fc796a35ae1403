//! The input of a connection, read within a bound: a read that is interrupted is tried again.
ghost use Rattle.std.specs.Prelude.{◌≡◌, ◌⊎◌, ◌<◌, ◌≤◌, IfErr, IsErrOf, OnOk};
ghost use Rattle.fr_http.specs.Calls.{ReadsFrom};
ghost use Rattle.fr_http.specs.Reading.{ReadsPiece};
ghost use Rattle.fr_http.specs.Reads.{IsRead, MayEnd, SpendsReads};
ghost use Rattle.fr_http.specs.declared.fault.LinkFault.TheVariants.{ReadFailed, TooManyReads};

use crate::fault::LinkFault;
use crate::source::Source;
use fr_text::try_again;

/// In how many reads a request is read at most, interrupted ones included.
pub const MAX_READS: u32 = 100_000;

/// A reader, and how many more times it is read. It alone has the reader.
#[derive(Drop)]
pub(crate) struct Input<'a, R> {
    reader: &'a mut R,
    reads: u32,
}

impl<'a, R: Source> Input<'a, R> {
    /// The input of a reader, which is read at most [`MAX_READS`] times.
    pub(crate) fn new(reader: &'a mut R) -> Input<'a, R>
        ensures same { result.reader.ghost_name ≡ reader.entry.ghost_name }
        ensures holds { result.reader.now ≡ reader.old }
        ensures reads { result.reads ≡ MAX_READS }
    {
        Input {
            reader,
            reads: MAX_READS,
        }
    }

    /// Reads into the piece, and answers how many bytes it read: none only at the input's end. A read
    /// that is interrupted is tried again.
    pub(crate) fn read(&mut self, piece: &mut [u8]) -> Result<usize, LinkFault>
        ensures piece { ReadsFrom R.Read (ReadsPiece piece.new) self.old self.new result }
        ensures fault { IfErr result (λ fault. (fault ≡ ReadFailed) ⊎ (fault ≡ TooManyReads)) }

        // An interrupted read is tried again as long as a read is left, and no other failed one is. Each counts.
        ensures made { IsRead R.reads self.old piece.new result self.new }
        ensures reads { SpendsReads R.reads (MayEnd R.reads) self.old self.new result }
        ensures spent { IsErrOf result TooManyReads → self.new.reads ≡ 0 }
        ensures fewer { self.new.reads ≤ self.old.reads }

        // A read that succeeds counts.
        ensures counted { OnOk result (self.new.reads < self.old.reads) }
    {
        while self.reads > 0 {
            self.reads -= 1;
            match self.reader.read_once(piece) {
                Ok(n) => return Ok(n),
                Err(error) => try_again(&error, LinkFault::ReadFailed)?,
            }
        }
        Err(LinkFault::TooManyReads)
    }
}
