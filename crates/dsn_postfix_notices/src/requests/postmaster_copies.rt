//! Of which notices the postmaster gets a copy. Postfix's own service makes both.
//! Implements docs/postfix-internals.md, "The notice of a Postfix log".
ghost use Rattle.std.specs.Prelude.{◌≡◌};
ghost use Rattle.dsn_postfix_notices.specs.requests.PostmasterCopies.{copies_delay, copies_failure, copies_report, is_copied};

use crate::requests::service_settings::ServiceSettings;
use dsn_postfix::PostfixRequest;

/// The classes of Postfix's `notify_classes` by which the postmaster gets copies of notices.
#[derive(Clone, Copy, Debug, Drop, PartialEq, Eq)]
pub struct PostmasterCopies {
    /// `bounce`: of each notice of failure.
    pub bounce: bool,
    /// `2bounce`: of a notice about a message from the null sender. For a failure `bounce` implies
    /// it.
    pub double_bounce: bool,
    /// `delay`: of each notice of delay.
    pub delay: bool,
}

/// Whether the postmaster gets a copy of a notice of failure to this sender.
fn copies_failure(settings: &ServiceSettings<'_>, sender: &[u8]) -> bool
    ensures { result ≡ copies_failure settings.now sender.now }
{
    let copies = settings.copies;
    !sender.eq_ignore_ascii_case(settings.double_bounce)
        && (copies.bounce || copies.double_bounce && sender.is_empty())
}

/// Whether the postmaster gets a copy of a notice of delay to this sender.
fn copies_delay(settings: &ServiceSettings<'_>, sender: &[u8]) -> bool
    ensures { result ≡ copies_delay settings.now sender.now }
{
    !sender.eq_ignore_ascii_case(settings.double_bounce) && settings.copies.delay
}

/// Whether the postmaster gets the report of deliveries of a message from this sender.
fn copies_report(settings: &ServiceSettings<'_>, sender: &[u8]) -> bool
    ensures { result ≡ copies_report settings.now sender.now }
{
    !sender.eq_ignore_ascii_case(settings.double_bounce)
        && settings.copies.double_bounce
        && sender.is_empty()
}

/// Whether the postmaster gets a copy of the notices that a request asks for.
pub(super) fn is_copied(settings: &ServiceSettings<'_>, request: &PostfixRequest<'_>) -> bool
    ensures { result ≡ is_copied settings.now request.now }
{
    match request {
        PostfixRequest::Append(_) => false,
        PostfixRequest::Flush(notice)
        | PostfixRequest::Verp(notice, _)
        | PostfixRequest::One(notice, _, _) => copies_failure(settings, notice.sender.bytes()),
        PostfixRequest::Warn(notice) => copies_delay(settings, notice.sender.bytes()),
        PostfixRequest::Trace(notice) => copies_report(settings, notice.sender.bytes()),
    }
}
