//! What happened to a recipient, in plain words.
//! Implements RFC 3463 section 3 and noticed-notice(5).
ghost use Rattle.std.specs.Prelude.{◌≡◌, map};
ghost use Rattle.dsn_report.specs.PlainWords.{is_for, meaning_of, status_words, words_for};

use dsn_outcome::{Action, Outcome};

/// A sentence for each key. A key is a status code without its class, or a subject with its dot. The
/// first key that is for a code counts.
const STATUS_TABLE: [(&[u8], &[u8]); 34] = [
    (
        b"1.1",
        b"The address does not exist. Check how it is spelled.",
    ),
    (
        b"1.2",
        b"The part after the @ does not exist. Check how it is spelled.",
    ),
    (
        b"1.3",
        b"The address is not written correctly. Check how it is spelled.",
    ),
    (b"1.4", b"The address matches more than one recipient."),
    (
        b"1.6",
        b"The recipient has moved, and the new address is not known.",
    ),
    (
        b"1.7",
        b"Your own address was not accepted as the sender of the message.",
    ),
    (
        b"1.8",
        b"Your own address was not accepted as the sender of the message.",
    ),
    (
        b"1.10",
        b"The part after the @ accepts no mail. Check how it is spelled.",
    ),
    (b"1.", b"There is a problem with the address."),
    (
        b"2.1",
        b"The mailbox is disabled, or does not accept messages now.",
    ),
    (b"2.2", b"The mailbox is full."),
    (b"2.3", b"The message is larger than the mailbox accepts."),
    (
        b"2.4",
        b"There is a problem with the mailing list of this address.",
    ),
    (b"2.", b"There is a problem with the recipient's mailbox."),
    (b"3.1", b"The recipient's mail system has no space left."),
    (
        b"3.2",
        b"The recipient's mail system does not accept messages now.",
    ),
    (
        b"3.4",
        b"The message is too large for the recipient's mail system.",
    ),
    (
        b"3.5",
        b"The recipient's mail system is not configured correctly.",
    ),
    (b"3.", b"There is a problem in the recipient's mail system."),
    (b"4.1", b"The recipient's mail server could not be reached."),
    (
        b"4.2",
        b"The connection to the recipient's mail server was lost.",
    ),
    (
        b"4.3",
        b"The recipient's mail server could not be looked up.",
    ),
    (
        b"4.4",
        b"No mail server was found for the address. Check how it is spelled.",
    ),
    (b"4.5", b"The recipient's mail server is too busy."),
    (
        b"4.6",
        b"The message went in a circle between mail servers.",
    ),
    (b"4.7", b"The message could not be delivered in time."),
    (
        b"4.",
        b"There is a problem on the way to the recipient's mail server.",
    ),
    (b"5.3", b"The message has too many recipients."),
    (b"5.", b"The mail servers did not understand each other."),
    (
        b"6.1",
        b"The recipient's mail system does not accept this kind of content.",
    ),
    (
        b"6.",
        b"The recipient's mail system cannot handle the content of the message.",
    ),
    (
        b"7.2",
        b"You are not permitted to write to this mailing list.",
    ),
    (
        b"7.26",
        b"The recipient's mail system could not verify that you sent the message.",
    ),
    (
        b"7.",
        b"The recipient's mail system refused the message under one of its rules.",
    ),
];

/// What happened to the recipient of an outcome.
pub(crate) fn meaning_of(outcome: &Outcome) -> &'static [u8]
    ensures { result.now ≡ meaning_of outcome.now.action outcome.now.status }
{
    match outcome.action() {
        Action::Failed | Action::Delayed => status_words(outcome.status().bytes()),
        Action::Delivered => b"The message was delivered.",
        Action::Relayed => {
            b"The message was passed to a mail system that does not report deliveries."
        }
        Action::Expanded => b"The message was delivered, and passed on to other recipients.",
    }
}

/// The sentence of a status code.
fn status_words(status: &[u8]) -> &'static [u8]
    ensures { result.now ≡ status_words status.now }
{
    match status {
        [_, _, code @ ..] => words_for(&STATUS_TABLE, code),
        _ => words_for(&STATUS_TABLE, b""),
    }
}

/// The sentence after the first key of the table that is for this code, which has no class.
fn words_for(table: &[(&[u8], &'static [u8])], code: &[u8]) -> &'static [u8]
    ensures { result.now
        ≡ words_for (map (λ entry. (entry.0.now, entry.1.now)) table.entry.now) code.now }
{
    let mut rest = table;
    while let [entry, others @ ..] = rest {
        if is_for(entry.0, code) {
            return entry.1;
        }
        rest = others;
    }
    b"The mail system could not deliver the message."
}

/// Whether a key is for a code without its class.
fn is_for(key: &[u8], code: &[u8]) -> bool
    ensures { result ≡ is_for key.now code.now }
{
    code == key || key.len() == 2 && code.starts_with(key)
}
