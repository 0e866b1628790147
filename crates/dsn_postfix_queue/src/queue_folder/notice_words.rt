//! What a notice is called in Postfix's log.
//! Implements docs/postfix-internals.md, "Lines on standard error".
use dsn_postfix::PostfixRequest;

/// What Postfix's log calls a notice of failure, as bounce(8) does.
pub(super) const FAILURE_NOTICE: &str = "sender non-delivery notification";

/// What it calls a warning that a message is delayed.
const DELAY_NOTICE: &str = "sender delay notification";

/// What it calls a notice of deliveries.
const DELIVERY_NOTICE: &str = "sender delivery status notification";

/// Whether a request asks for a notice of failure to the sender of notices about notices. bounce(8)
/// drops such a notice, and writes a line about it.
pub(super) fn is_discarded(request: &PostfixRequest<'_>, double_bounce: &[u8]) -> bool {
    match request {
        PostfixRequest::Flush(notice)
        | PostfixRequest::Verp(notice, _)
        | PostfixRequest::One(notice, _, _) => {
            notice.sender.bytes().eq_ignore_ascii_case(double_bounce)
        }
        PostfixRequest::Append(_) | PostfixRequest::Warn(_) | PostfixRequest::Trace(_) => false,
    }
}

/// What Postfix's log calls the notices of a request.
pub(super) fn notice_kind(request: &PostfixRequest<'_>) -> &'static str {
    match request {
        PostfixRequest::Warn(_) => DELAY_NOTICE,
        PostfixRequest::Trace(_) => DELIVERY_NOTICE,
        PostfixRequest::Append(_)
        | PostfixRequest::Flush(_)
        | PostfixRequest::Verp(..)
        | PostfixRequest::One(..) => FAILURE_NOTICE,
    }
}
