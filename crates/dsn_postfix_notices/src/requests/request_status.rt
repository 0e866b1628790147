//! The statuses that answer requests, and how one is passed on to Postfix's own service.
//! Implements docs/postfix-internals.md, "A connection".
ghost use Rattle.std.specs.Prelude.{◌≡◌, Ok};
ghost use Rattle.dsn_postfix_notices.specs.requests.Gains.{Gains};
ghost use Rattle.dsn_postfix_notices.specs.requests.RequestStatus.{PassesOn};

use crate::requests::mail_system::MailSystem;
use crate::requests::pass_reason::PassReason;
use dsn_text::Service;

/// The status of a request that was carried out.
pub(super) const CARRIED_OUT: u32 = 0;

/// The status of a request that wasn't carried out: -1, as bounce(8) answers.
pub const NOT_CARRIED_OUT: u32 = 4_294_967_295;

/// Passes a request on to Postfix's own service, and returns the status that it answers. Returns
/// [`NOT_CARRIED_OUT`] if it can't be passed on.
pub fn pass_on<M: MailSystem>(
    system: &mut M,
    service: Service,
    bytes: &[u8],
    why: PassReason,
) -> u32
    ensures { Gains M.deeds system.old system.new (PassesOn service bytes.now (Ok result)) }
{
    match system.pass_on(service, bytes, why) {
        Ok(status) => status,
        // Programs know no third status: they repeat what isn't answered 0.
        Err(_) => NOT_CARRIED_OUT,
    }
}
