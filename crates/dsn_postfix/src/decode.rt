//! The request in some bytes.
//! Implements docs/postfix-internals.md, "What Postfix's programs send".
ghost use Rattle.std.specs.Prelude.{◌≡◌, Ok, Err, IfOk, IfErr};
ghost use Rattle.dsn_postfix.specs.PostfixRequest.{IsRequestIn};
ghost use Rattle.dsn_postfix.specs.RequestReading.{postfix_request_at};

use crate::attribute_reader::AttributeReader;
use crate::postfix_request::PostfixRequest;
use crate::request_fault::RequestFault;
use crate::request_reading::request_of;

/// The request that takes up these bytes, as programs of Postfix 3.6 to 3.10 send it. Doesn't
/// allocate.
/// Returns the fault of the first attribute, from the left, that differs from the layout, or else
/// the fault of the list's end.
pub fn decode_postfix_request<'a>(bytes: &'a [u8]) -> Result<PostfixRequest<'a>, RequestFault>
    ensures read { IfOk result (λ request. IsRequestIn bytes.now request) }
    ensures only { (request : PostfixRequest) → IsRequestIn bytes.now request
        → result ≡ Ok request }
    ensures refused { IfErr result (λ fault. postfix_request_at bytes.now ≡ Err fault) }
{
    read_request(bytes)
}

/// Reads the request.
#[tactic(auto, unfolding(crate::specs::RequestReading::postfix_request_at))]
fn read_request<'a>(bytes: &'a [u8]) -> Result<PostfixRequest<'a>, RequestFault>
    ensures read { IfOk result (λ request. postfix_request_at bytes.now ≡ Ok request) }
    ensures refused { IfErr result (λ fault. postfix_request_at bytes.now ≡ Err fault) }
{
    let mut reader = AttributeReader::new(bytes);
    let command = reader.number(b"nrequest")?;
    let request = request_of(command, &mut reader)?;
    reader.end()?;
    Ok(request)
}
