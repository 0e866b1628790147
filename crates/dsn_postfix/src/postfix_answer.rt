//! What bounce(8) sends: an announcement before a request, and a status after it.
//! Implements docs/postfix-internals.md, "What Postfix's programs send".
ghost use Rattle.std.specs.Prelude.{◌≡◌, ◌<◌, ℕ, Ok, Err, IfOk, IfErr};
ghost use Rattle.dsn_postfix.specs.Attribute.{number_limit};
ghost use Rattle.dsn_postfix.specs.PostfixAnswer.{announcement_bytes, status_at, status_bytes};

use crate::attribute_reader::AttributeReader;
use crate::attribute_writer::{push_end, push_number, push_text};
use crate::request_fault::RequestFault;
use dsn_text::NoMemory;
use std::alloc::Global;

/// The list that the service sends as soon as a client has connected. Returns an error only if
/// memory was refused.
#[tactic(auto, unfolding(crate::specs::PostfixAnswer::announcement_bytes))]
pub fn encode_announcement(alloc: Global) -> Result<Vec<u8>, NoMemory>
    ensures { IfOk result (λ bytes. bytes.items ≡ announcement_bytes) }
{
    let mut out = Vec::new(alloc);
    push_text(&mut out, b"protocol", b"delivery_status_protocol")?;
    push_end(&mut out)?;
    Ok(out)
}

/// The list that answers a request: status 0 if it was carried out, and 4,294,967,295 if it wasn't.
/// Returns an error only if memory was refused.
#[tactic(auto, unfolding(crate::specs::PostfixAnswer::status_bytes))]
pub fn encode_status(alloc: Global, status: u32) -> Result<Vec<u8>, NoMemory>
    ensures { IfOk result (λ bytes. bytes.items ≡ status_bytes status) }
{
    let mut out = Vec::new(alloc);
    push_number(&mut out, b"status", status as u64)?;
    push_end(&mut out)?;
    Ok(out)
}

/// The status that takes up these bytes. Doesn't allocate. Returns the first fault, from the left.
pub fn decode_status(bytes: &[u8]) -> Result<u32, RequestFault>
    ensures read { IfOk result (λ status. bytes.now ≡ status_bytes status) }
    ensures only { (status : ℕ) → status < number_limit → bytes.now ≡ status_bytes status
        → result ≡ Ok status }
    ensures refused { IfErr result (λ fault. status_at bytes.now ≡ Err fault) }
{
    read_status(bytes)
}

/// Reads the status.
#[tactic(auto, unfolding(crate::specs::PostfixAnswer::status_at))]
fn read_status(bytes: &[u8]) -> Result<u32, RequestFault>
    ensures read { IfOk result (λ status. status_at bytes.now ≡ Ok status) }
    ensures refused { IfErr result (λ fault. status_at bytes.now ≡ Err fault) }
{
    let mut reader = AttributeReader::new(bytes);
    let status = reader.number(b"status")?;
    reader.end()?;
    Ok(status)
}
