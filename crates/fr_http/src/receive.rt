//! Reads until a request's head is there.
ghost use Rattle.fr_http.specs.Calls.{ReadsFrom};
ghost use Rattle.fr_http.specs.Reading.{HasReceived};
ghost use Rattle.fr_http.specs.Reads.{MayEndAsking, SpendsReads};

use crate::fault::{LinkFault, Rejection, Unasked};
use crate::head::{MAX_FIELDS, MAX_HEAD, Received};
use crate::input::Input;
use crate::source::Source;
use httparse::spans::{EMPTY_HEADER_SPAN, parse_request};
use httparse::{Error, Status};
use std::alloc::Global;

/// Reads until the input begins with a head, or can't within the bounds. What came is read as a head
/// again each time that more has come.
#[tactic(auto, using(crate::proofs::ReadsLaws::spending))]
pub(crate) fn receive<R: Source>(
    alloc: Global,
    input: &mut Input<'_, R>,
) -> Result<Received, Unasked>
    ensures received { ReadsFrom R.Read HasReceived input.old input.new result }
    ensures reads { SpendsReads R.reads (MayEndAsking R.reads) input.old input.new result }
{
    let mut bytes = Vec::new(alloc);
    let mut fields = [EMPTY_HEADER_SPAN; MAX_FIELDS];
    let mut piece = [0; MAX_HEAD];
    while bytes.len() < MAX_HEAD {
        let room = MAX_HEAD - bytes.len();
        let n = input.read(&mut piece[..room])?;
        if n == 0 {
            return Err(Unasked::Fault(LinkFault::Truncated));
        }
        bytes.extend_from_slice(&piece[..n])?;
        match parse_request(&bytes, &mut fields) {
            Ok(Status::Complete(spans)) => return Ok(Received::new(bytes, spans, fields)),
            Ok(Status::Partial) => {}
            Err(Error::TooManyHeaders) => return Err(Unasked::Engine(Rejection::HeadTooLarge)),
            Err(_) => return Err(Unasked::Engine(Rejection::BadRequest)),
        }
    }
    Err(Unasked::Engine(Rejection::HeadTooLarge))
}
