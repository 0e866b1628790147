//! Which recipients a request's notices report.
//! Implements docs/postfix-internals.md, "The notice of a Postfix log".
ghost use Rattle.std.specs.Prelude.{◌≡◌};
ghost use Rattle.dsn_postfix.specs.Wanted.{wants, wants_flag};

use crate::postfix_request::PostfixRequest;

/// The flag of failure.
const FAILURE: u32 = 4;
/// The flag of delay.
const DELAY: u32 = 8;

/// Whether a sender asked for notices of failure, or gave no NOTIFY.
fn wants_failure(flags: u32) -> bool
    ensures { result ≡ wants_flag 4 flags }
{
    flags == 0 || flags / FAILURE % 2 == 1
}

/// Whether a sender asked for notices of delay, or gave no NOTIFY.
fn wants_delay(flags: u32) -> bool
    ensures { result ≡ wants_flag 8 flags }
{
    flags == 0 || flags / DELAY % 2 == 1
}

impl<'a> PostfixRequest<'a> {
    /// Whether notices of the request report a recipient, by the flags of its NOTIFY: 1 never, 2
    /// success, 4 failure, 8 delay, and sums; 0 if unspecified. An append has no notice. Nor has a
    /// message from the null sender, which this doesn't test.
    pub fn wants(&self, notify_flags: u32) -> bool
        ensures { result ≡ wants self.now notify_flags }
    {
        match self {
            PostfixRequest::Append(_) => false,
            PostfixRequest::Flush(_) => wants_failure(notify_flags),
            PostfixRequest::Warn(_) => wants_delay(notify_flags),
            PostfixRequest::Verp(_, _) => wants_failure(notify_flags),
            PostfixRequest::One(_, _, _) => wants_failure(notify_flags),
            PostfixRequest::Trace(_) => true,
        }
    }
}
