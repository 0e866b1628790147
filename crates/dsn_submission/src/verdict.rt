//! What a submission's outcome says of its letter.
ghost use Rattle.std.specs.Prelude.{◌≡◌};
ghost use Rattle.dsn_submission.specs.Verdict.{is_of_letter, is_of_mailbox, is_of_server, is_server_step, reason_of, verdict_of};

use dsn_smtp::{HandInFault, HandInStep, ReplyCode};

/// The reason for a letter whose bytes the server doesn't take.
const NOT_OFFERED: &[u8] = b"the server has no 8BITMIME, and the notice has 8bit bytes\r\n";

/// What becomes of a letter that was submitted.
#[derive(Clone, Copy, Debug, PartialEq, Eq)]
pub enum Verdict {
    /// The server accepted it.
    Accepted,
    /// The server refused it for good, or lacks what its bytes need.
    RefusedForGood,
    /// It may be accepted later, and waits by itself.
    PutOff,
    /// The server takes no letters now, so all letters wait.
    ServerAway,
}

/// What an outcome says of the letter. A fault up to MAIL is the server's state, whatever its code
/// (RFC 5321 sections 3.1 and 3.3). After MAIL, 5yz refuses the letter for good, but at RCPT only by
/// 550 to 553, which are of a mailbox (section 4.2.3). A server without the extension that the letter
/// needs refuses it too. Any other fault keeps that letter alone: one at which a server always hangs
/// up doesn't keep the others.
pub fn verdict_of(fault: &Option<HandInFault>) -> Verdict
    ensures { result ≡ verdict_of fault.now }
{
    match fault {
        None => Verdict::Accepted,
        Some(fault) if is_of_server(fault) => Verdict::ServerAway,
        Some(fault) if is_of_letter(fault) => Verdict::RefusedForGood,
        Some(_) => Verdict::PutOff,
    }
}

/// Why a letter wasn't accepted, in lines that CRLF ends: the last reply, or words if nothing was
/// sent for the letter.
pub fn reason_of<'a>(fault: &Option<HandInFault>, reply: &'a [u8]) -> &'a [u8]
    ensures { result.now ≡ reason_of fault.now reply.now }
{
    match fault {
        Some(HandInFault::NotOffered) => NOT_OFFERED,
        None
        | Some(HandInFault::Refused(..))
        | Some(HandInFault::Unheard(..))
        | Some(HandInFault::Unsaid(_)) => reply,
    }
}

/// Whether a fault is the server's, and says nothing of the letter.
fn is_of_server(fault: &HandInFault) -> bool
    ensures { result ≡ is_of_server fault.now }
{
    match fault {
        HandInFault::Refused(step, _) | HandInFault::Unheard(step, _) | HandInFault::Unsaid(step) =>
            is_server_step(*step),
        HandInFault::NotOffered => false,
    }
}

/// Whether a fault refuses the letter for good.
fn is_of_letter(fault: &HandInFault) -> bool
    ensures { result ≡ is_of_letter fault.now }
{
    match fault {
        // A server that refuses a client as such says so here, once it knows whom the mail is for. Its
        // rules may change while the letter waits.
        HandInFault::Refused(HandInStep::Recipient, code) => is_of_mailbox(*code),
        _ => fault.is_refused_for_good(),
    }
}

/// Whether a code says that a mailbox takes no mail.
fn is_of_mailbox(code: ReplyCode) -> bool
    ensures { result ≡ is_of_mailbox code }
{
    let [first, second, third] = code.digits();
    first == b'5' && second == b'5' && matches!(third, b'0'..=b'3')
}

/// Whether a step precedes all that concerns the letter.
fn is_server_step(step: HandInStep) -> bool
    ensures { result ≡ is_server_step step }
{
    matches!(
        step,
        HandInStep::Greeting | HandInStep::Hello | HandInStep::Sender
    )
}
