//! The words of a notice that depend on its letter.
//! Implements noticed-notice(5).
ghost use Rattle.std.specs.Prelude.{◌≡◌};
ghost use Rattle.std.specs.List.{list_all};
ghost use Rattle.std.specs.Option.{option_copied};
ghost use Rattle.dsn_outcome.specs.declared.wording.Wording.TheVariants.{ByOutcome};
ghost use Rattle.dsn_text.specs.declared.service.Service.TheVariants.{Trace};
ghost use Rattle.dsn_report.specs.Notice.{has_arrived, has_text, origin_told, reply_beside, returned_description, returned_type, speaker, with_bounce_names, words_by, words_of};
ghost use Rattle.dsn_report.specs.inner.NoticeLines.{words_in};

use dsn_outcome::{Action, Letter, Outcome, Service, Wording};

/// The words of a notice.
#[derive(Clone, Copy)]
pub(crate) struct Words {
    /// Its subject.
    pub(crate) subject: &'static [u8],
    /// Its first sentence to the reader.
    pub(crate) opening: &'static [u8],
    /// What follows from it for the reader.
    pub(crate) consequence: &'static [u8],
    /// The description of a returned header.
    pub(crate) header: &'static [u8],
    /// The description of a returned message.
    pub(crate) message: &'static [u8],
}

impl Words {
    /// The words of a letter's notice.
    pub(crate) fn of(letter: &Letter) -> Words
        ensures { words_in result ≡ words_of letter.now }
    {
        match (letter.terms().wording(), letter.key().service) {
            (_, Service::Bounce) => BOUNCE,
            (Wording::ByService, Service::Defer) => with_bounce_names(DEFER),
            (Wording::ByService, Service::Trace) => with_bounce_names(TRACE),
            (Wording::ByOutcome, Service::Defer) => DEFER,
            (Wording::ByOutcome, Service::Trace) => trace_words(letter),
        }
    }

    /// The description of what is returned, a whole message or a header.
    pub(crate) fn description(self, whole: bool) -> &'static [u8]
        ensures { result.now ≡ returned_description (words_in self) whole }
    {
        if whole { self.message } else { self.header }
    }
}

/// The words of a trace, which depend on whether the message arrived at all recipients.
fn trace_words(letter: &Letter) -> Words
    ensures { words_in result
        ≡ words_by ByOutcome Trace
        (list_all (λ outcome. has_arrived outcome.action) letter.now.outcomes) }
{
    if all_arrived(letter) { SUCCESS } else { TRACE }
}

/// The words with the bounce's descriptions of the returned part.
fn with_bounce_names(words: Words) -> Words
    ensures { words_in result ≡ with_bounce_names (words_in words) }
{
    Words {
        subject: words.subject,
        opening: words.opening,
        consequence: words.consequence,
        header: BOUNCE.header,
        message: BOUNCE.message,
    }
}

/// About mail that could not be delivered.
const BOUNCE: Words = Words {
    subject: b"Undelivered Mail Returned to Sender",
    opening: b"Your message could not be delivered to the recipients below.",
    consequence: b"No further attempt will be made.",
    header: b"Undelivered Message Headers",
    message: b"Undelivered Message",
};

/// About mail that is still being tried.
const DEFER: Words = Words {
    subject: b"Delayed Mail (still being retried)",
    opening: b"Your message has not yet been delivered to the recipients below.",
    consequence: b"You do not need to send it again.",
    header: b"Delayed Message Headers",
    message: b"Delayed Message",
};

/// About a delivery that the sender requested a report of.
const TRACE: Words = Words {
    subject: b"Mail Delivery Status Report",
    opening: b"This is the delivery report for your message.",
    consequence: b"You or your mail program requested this report.",
    header: b"Message Headers",
    message: b"Message",
};

/// About such a delivery, if the message arrived at all recipients.
const SUCCESS: Words = Words {
    subject: b"Successful Mail Delivery Report",
    opening: b"Your message was delivered to the recipients below.",
    consequence: b"You or your mail program requested this report.",
    header: b"Message Headers",
    message: b"Message",
};

/// Whether the message arrived at all recipients.
pub(crate) fn all_arrived(letter: &Letter) -> bool
    ensures { result ≡ list_all (λ outcome. has_arrived outcome.action) letter.now.outcomes }
{
    for outcome in letter.outcomes() {
        if !has_arrived(outcome.action()) {
            return false;
        }
    }
    true
}

/// Whether the message reached the recipient, or left the mail systems that report on it.
fn has_arrived(action: Action) -> bool
    ensures { result ≡ has_arrived action }
{
    match action {
        Action::Failed | Action::Delayed => false,
        Action::Delivered | Action::Relayed | Action::Expanded => true,
    }
}

/// The original recipient of an outcome, if the wording is by outcome and it isn't the final
/// recipient.
pub(crate) fn origin_told(wording: Wording, outcome: &Outcome) -> Option<&[u8]>
    ensures { option_copied result ≡ origin_told wording outcome.now }
{
    match (wording, outcome.original()) {
        (Wording::ByOutcome, Some(original)) => {
            if original == outcome.recipient() {
                None
            } else {
                Some(original)
            }
        }
        _ => None,
    }
}

/// The reply of the remote system, if the reason doesn't have it already.
pub(crate) fn reply_beside<'a>(reason: Option<&[u8]>, reply: Option<&'a [u8]>) -> Option<&'a [u8]>
    ensures { option_copied result
        ≡ reply_beside (option_copied reason.entry) (option_copied reply.entry) }
{
    match (reason, reply) {
        (Some(reason), Some(reply)) => {
            if has_text(reply, reason) {
                None
            } else {
                Some(reply)
            }
        }
        _ => reply,
    }
}

/// Whether a text has another one in it.
fn has_text(part: &[u8], text: &[u8]) -> bool
    ensures { result ≡ has_text part.now text.now }
{
    let mut rest = text;
    while let [_, others @ ..] = rest {
        if rest.starts_with(part) {
            return true;
        }
        rest = others;
    }
    rest.starts_with(part)
}

/// The name of the remote system in front of its reply.
pub(crate) fn speaker(mta: Option<&[u8]>) -> &[u8]
    ensures { result.now ≡ speaker (option_copied mta.entry) }
{
    match mta {
        Some(mta) => mta,
        None => b"The recipient's mail system",
    }
}

/// The media type of the returned part, for a whole message or for a header.
pub(crate) fn returned_type(whole: bool) -> &'static [u8]
    ensures { result.now ≡ returned_type whole }
{
    if whole {
        b"message/rfc822"
    } else {
        b"text/rfc822-headers"
    }
}
