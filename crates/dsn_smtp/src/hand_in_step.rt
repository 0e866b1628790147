//! The steps of a mail transaction.
ghost use Rattle.std.specs.Prelude.{◌≡◌};
ghost use Rattle.dsn_smtp.specs.HandIn.{is_wanted_reply};

use crate::reply_class::ReplyClass;

/// A step of a mail transaction (RFC 5321 section 3.3), named after what its reply answers.
#[derive(Clone, Copy, Debug, PartialEq, Eq)]
pub enum HandInStep {
    /// The connection, which the server greets.
    Greeting,
    /// EHLO.
    Hello,
    /// MAIL.
    Sender,
    /// RCPT.
    Recipient,
    /// DATA, before the message.
    Data,
    /// The message.
    Message,
}

impl HandInStep {
    /// Whether a reply of this class allows the next step: DATA needs 3yz, all others 2yz (RFC 5321
    /// section 4.3.2).
    pub(crate) fn wants(self, class: ReplyClass) -> bool
        ensures { result ≡ is_wanted_reply self class }
    {
        match self {
            HandInStep::Data => matches!(class, ReplyClass::Intermediate),
            HandInStep::Greeting
            | HandInStep::Hello
            | HandInStep::Sender
            | HandInStep::Recipient
            | HandInStep::Message => matches!(class, ReplyClass::Positive),
        }
    }
}
