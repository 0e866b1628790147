//! The requests of Postfix's programs to its bounce service.
ghost use Rattle.std.specs.Prelude.{◌≡◌};
ghost use Rattle.dsn_postfix.specs.RequestFlags.{asks_clean, flags_of, is_tls_optional, marks_recipients, needs_smtputf8};

use crate::attribute_text::AttributeText;
use crate::queue_name::QueueName;
use crate::verp_delimiters::VerpDelimiters;
use dsn_text::QueueId;

/// A request, whose texts are borrowed from the bytes that it was read from.
#[derive(Debug, Drop)]
pub enum PostfixRequest<'a> {
    /// Log the outcome of a recipient.
    Append(AppendRequest<'a>),
    /// Make a notice of a log, and remove the log.
    Flush(NoticeRequest<'a>),
    /// Make a notice that a message is delayed, and keep the log.
    Warn(NoticeRequest<'a>),
    /// Make a notice of a log for each recipient, with the recipient in the return path, and remove
    /// the log.
    Verp(NoticeRequest<'a>, VerpDelimiters<'a>),
    /// Make a notice of this recipient alone, without a log.
    One(NoticeRequest<'a>, ReportedRecipient<'a>, DeliveryReport<'a>),
    /// Make a notice of a log of deliveries, and remove the log.
    Trace(NoticeRequest<'a>),
}

impl<'a> PostfixRequest<'a> {
    /// The flags of the request.
    fn flags(&self) -> u32
        ensures { result ≡ flags_of self.now }
    {
        match self {
            PostfixRequest::Append(append) => append.flags,
            PostfixRequest::Flush(notice)
            | PostfixRequest::Warn(notice)
            | PostfixRequest::Verp(notice, _)
            | PostfixRequest::One(notice, _, _)
            | PostfixRequest::Trace(notice) => notice.flags,
        }
    }

    /// Whether the log must be removed if the answer isn't 0 (CLEAN).
    pub fn asks_clean(&self) -> bool
        ensures { result ≡ asks_clean self.now }
    {
        self.flags() % 2 == 1
    }
}

/// A request to log the outcome of a recipient.
#[derive(Debug, Drop)]
pub struct AppendRequest<'a> {
    /// The flags of the request. 1 (CLEAN) asks to remove the log if the answer isn't 0; the others
    /// belong to the delivery.
    pub flags: u32,
    /// The queue id of the message.
    pub queue_id: QueueId,
    /// The recipient.
    pub recipient: ReportedRecipient<'a>,
    /// The outcome.
    pub report: DeliveryReport<'a>,
}

/// The part of a request for notices that describes the message.
#[derive(Debug, Drop)]
pub struct NoticeRequest<'a> {
    /// The flags of the request. 1 (CLEAN) asks to remove the log if the answer isn't 0. 2
    /// (DELRCPT) asks to mark the log's recipients as done in the queue file once the notice is
    /// made.
    pub flags: u32,
    /// The name of the queue that the message's file is in.
    pub queue_name: QueueName<'a>,
    /// The queue id of the message.
    pub queue_id: QueueId,
    /// The encoding of the message's body: `7bit`, `8bit`, or empty if unknown.
    pub encoding: AttributeText<'a>,
    /// Whether the attribute of the send options is named `sendopts`, as since Postfix 3.10, and
    /// not `smtputf8`.
    pub names_sendopts: bool,
    /// What the message requires of its transport, as bits. 1: it was submitted with SMTPUTF8 (RFC
    /// 6531). 2, 4 and 8: there is UTF-8 in its header, its sender or a recipient. Since Postfix
    /// 3.10 also 16: its header has `TLS-Required: no`; and 32: REQUIRETLS (RFC 8689).
    pub send_options: u32,
    /// The envelope sender of the message; empty if it is null.
    pub sender: AttributeText<'a>,
    /// The envelope id of the message, decoded from the client's xtext; empty if it has no id.
    pub envelope_id: AttributeText<'a>,
    /// What the sender wants returned: 1 the whole message, 2 its header, 0 unspecified.
    pub returns: u32,
}

impl<'a> NoticeRequest<'a> {
    /// Whether the recipients that the notices report must be marked as done (DELRCPT).
    pub fn marks_recipients(&self) -> bool
        ensures { result ≡ marks_recipients self.now }
    {
        self.flags / 2 % 2 == 1
    }

    /// Whether the message was submitted with SMTPUTF8 (RFC 6531).
    pub fn needs_smtputf8(&self) -> bool
        ensures { result ≡ needs_smtputf8 self.now }
    {
        self.send_options % 2 == 1
    }

    /// Whether the message's header has `TLS-Required: no`: its delivery counts more than TLS (RFC
    /// 8689 section 3).
    pub fn is_tls_optional(&self) -> bool
        ensures { result ≡ is_tls_optional self.now }
    {
        self.send_options / 16 % 2 == 1
    }
}

/// A recipient, as a delivery agent reports it.
#[derive(Debug, Drop)]
pub struct ReportedRecipient<'a> {
    /// The recipient before it was rewritten or expanded; empty if unknown.
    pub original: AttributeText<'a>,
    /// The recipient to whom delivery was tried.
    pub address: AttributeText<'a>,
    /// The place of the recipient's record in the queue file, in bytes; 0 if unknown.
    pub offset: u64,
    /// The original recipient that the sender's mail system gave (RFC 3461 section 4.2); empty if
    /// it gave no such recipient.
    pub dsn_original: AttributeText<'a>,
    /// When the sender wants to be notified, as bits: 1 never, 2 of success, 4 of failure, 8 of
    /// delay; 0 if unspecified.
    pub notify: u32,
}

/// The outcome that a delivery agent reports for a recipient (RFC 3464 section 2.3).
#[derive(Debug, Drop)]
pub struct DeliveryReport<'a> {
    /// The status code.
    pub status: AttributeText<'a>,
    /// The type of the diagnostic, such as `smtp`; empty without a diagnostic.
    pub diagnostic_type: AttributeText<'a>,
    /// The diagnostic; empty if there was no diagnostic.
    pub diagnostic: AttributeText<'a>,
    /// The type of the remote mail system's name, such as `dns`; empty without a name.
    pub mta_type: AttributeText<'a>,
    /// The remote mail system's name; empty if it has no name.
    pub mta: AttributeText<'a>,
    /// The action.
    pub action: AttributeText<'a>,
    /// The reason, for people.
    pub reason: AttributeText<'a>,
}
