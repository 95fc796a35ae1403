//! Reads the body of a request.
ghost use Rattle.fr_http.specs.Calls.{ReadsFrom};
ghost use Rattle.fr_http.specs.Reading.{HasBody};
ghost use Rattle.fr_http.specs.Reads.{MayEnd, SpendsReads};

use crate::fault::LinkFault;
use crate::input::Input;
use crate::source::Source;
use std::alloc::Global;

/// How many bytes one read asks for at most.
const PIECE_BYTES: usize = 8192;

/// Reads a body of this length, whose first bytes came with the head.
#[tactic(auto, using(crate::proofs::ReadsLaws::spending))]
pub(crate) fn read_body<R: Source>(
    alloc: Global,
    input: &mut Input<'_, R>,
    begun: &[u8],
    length: usize,
) -> Result<Vec<u8>, LinkFault>
    ensures body { ReadsFrom R.Read (HasBody length begun.now) input.old input.new result }
    ensures reads { SpendsReads R.reads (MayEnd R.reads) input.old input.new result }
{
    let mut body = Vec::new(alloc);
    body.extend_from_slice(&begun[..length.min(begun.len())])?;
    let mut piece = [0; PIECE_BYTES];
    while body.len() < length {
        let room = PIECE_BYTES.min(length - body.len());
        let n = input.read(&mut piece[..room])?;
        if n == 0 {
            return Err(LinkFault::Truncated);
        }
        body.extend_from_slice(&piece[..n])?;
    }
    Ok(body)
}
