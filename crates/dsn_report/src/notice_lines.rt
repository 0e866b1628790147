//! The text of a notice, line by line.
//! Implements RFC 6522 sections 3 and 4, RFC 3464 section 2, and noticed-notice(5).
//! The order of header fields, the subjects and the words for people are this project's own. All
//! that RFC 6522, RFC 3464 and RFC 3834 require is present.
ghost use Rattle.std.specs.Prelude.{◌≡◌, ℕ, List, [], ◌∷◌, ◌++◌, None, codes, false, IsFalse, IsTrue};
ghost use Rattle.std.specs.List.{flat_map};
ghost use Rattle.std.specs.Option.{option_copied, option_map};
ghost use Rattle.dsn_text.specs.Action.{action_word};
ghost use Rattle.dsn_text.specs.Extension.{lines_ended_by_lf, is_extension_text};
ghost use Rattle.dsn_text.specs.Stamp.{date_text};
ghost use Rattle.dsn_report.specs.Boundary.{boundary_front, returned_lines, returns_eight_bit, returns_message};
ghost use Rattle.dsn_report.specs.DeliveryStatus.{delivery_status, line_if_any, per_message_fields, per_recipient_fields, recipient_group, typed, usual_address_type, usual_diagnostic_type};
ghost use Rattle.dsn_report.specs.inner.LineWriter.{Wrote, begins_plainly};
ghost use Rattle.dsn_report.specs.Lines.{begins_with_dot};
ghost use Rattle.dsn_outcome.specs.declared.wording.Wording.TheVariants.{ByOutcome};
ghost use Rattle.dsn_report.specs.Notice.{encoding_lines, explanation, guidance, is_eight_bit, notice_header, notice_lines, notification, notification_type, outcome_lines, own_text, part_header, preface_of, recipient_told, reply_lines, returned_description, returned_part, returned_type};
ghost use Rattle.dsn_report.specs.inner.NoticeLines.{words_in};
ghost use Rattle.dsn_report.specs.inner.NoticeLines.{lines_shown};
ghost use Rattle.dsn_report.specs.inner.Preface.{IsPreface};

use crate::boundary_number::boundary_beside;
use crate::extension_lines::ExtensionLines;
use crate::letter_boundary::{NUMBER_LEN, boundary_text, serial_text};
use crate::line_writer::LineWriter;
use crate::notice_wording::{Words, origin_told, reply_beside, returned_type, speaker};
use crate::plain_words::meaning_of;
use crate::preface::{Preface, is_eight_bit};
use crate::returned_lines::{LINE_ROOM, show_dotted_line};
use crate::returned_text::ReturnedText;
use crate::site::Site;
use dsn_device::Drain;
use dsn_outcome::{EnvelopeId, Letter, Outcome, Stamp, Wording};

/// Writes a notice's header. Requires that `front` is the letter's name and a dot.
fn write_header<'a, W: Drain>(
    lines: &mut LineWriter<W>,
    site: &'a Site,
    letter: &'a Letter,
    preface: Preface<'a>,
    front: &'a [u8],
    boundary: &'a [u8],
    eight_bit: bool,
)
    requires eight_bit { eight_bit ≡ is_eight_bit site.now letter.now }
    requires preface { IsPreface preface site.now letter.now }
    requires front { front.now ≡ boundary_front letter.now }
    ensures { Wrote W.Drain lines.old lines.new (notice_header site.now letter.now boundary.now) }
{
    let serial = serial_text(letter);
    lines.block(&[
        b"From: ",
        preface.sender.0,
        preface.sender.1,
        preface.sender.2,
        b"\r\nTo: <",
        letter.return_path().bytes(),
        b">\r\nSubject: ",
        preface.subject,
        b"\r\nDate: ",
        &letter.moment().date(),
        b"\r\nMessage-ID: <",
        front,
        serial.bytes(),
        b"@",
        site.host(),
        b">\r\n\
          Auto-Submitted: auto-replied\r\n\
          MIME-Version: 1.0\r\n\
          Content-Type: multipart/report; report-type=delivery-status;\r\n\
          \x20boundary=\"",
        boundary,
        b"\"\r\n",
    ]);
    write_encoding(lines, eight_bit);
}

/// Writes the line of a header that says that the body is 8bit, if it is (RFC 2045 section 6.1).
fn write_encoding<W: Drain>(lines: &mut LineWriter<W>, eight_bit: bool)
    ensures { Wrote W.Drain lines.old lines.new (encoding_lines eight_bit) }
{
    if eight_bit {
        lines.block(&[b"Content-Transfer-Encoding: 8bit\r\n"]);
    }
}

/// Writes the empty line before the first part, and that part, which is for people.
fn write_notification<'a, W: Drain>(
    lines: &mut LineWriter<W>,
    site: &'a Site,
    letter: &'a Letter,
    preface: Preface<'a>,
    boundary: &'a [u8],
)
    requires { IsPreface preface site.now letter.now }
    ensures { Wrote W.Drain lines.old lines.new
        ([] ∷ part_header boundary.now (codes "Notification")
        (notification_type site.now letter.now) (preface_of site.now letter.now).eight_bit
        ++ notification site.now letter.now) }
{
    lines.block(&[
        b"\r\n--",
        boundary,
        b"\r\n\
          Content-Description: Notification\r\n\
          Content-Type: text/plain; charset=",
        preface.charset,
        b"\r\n",
    ]);
    write_encoding(lines, preface.eight_bit);
    lines.block(&[b"\r\n"]);
    write_preface(lines, site, letter, preface);
    lines.block(&[b"\r\n"]);
    write_outcomes(lines, letter, preface.explained);
}

/// Writes the text before the recipients: the template's, or this project's own.
fn write_preface<'a, W: Drain>(
    lines: &mut LineWriter<W>,
    site: &'a Site,
    letter: &'a Letter,
    preface: Preface<'a>,
)
    requires { IsPreface preface site.now letter.now }
    ensures { Wrote W.Drain lines.old lines.new (preface_of site.now letter.now).text }
{
    match preface.text {
        Some(text) => write_returned_lines(
            lines,
            ReturnedText {
                bytes: text,
                whole: true,
                eight_bit: preface.eight_bit,
            },
        ),
        None => write_own_text(
            lines,
            site,
            letter.terms().wording(),
            preface.words.opening,
            preface.words.consequence,
        ),
    }
}

/// Writes this project's own text before the recipients. Requires that the sentences don't begin
/// with a dot.
fn write_own_text<'a, W: Drain>(
    lines: &mut LineWriter<W>,
    site: &'a Site,
    wording: Wording,
    opening: &'a [u8],
    consequence: &'a [u8],
)
    requires opening { IsFalse (begins_with_dot opening.now) }
    requires consequence { IsFalse (begins_with_dot consequence.now) }
    ensures { Wrote W.Drain lines.old lines.new
        (own_text site.now.host opening.now consequence.now wording) }
{
    lines.block(&[
        b"This is the mail system at host ",
        site.host(),
        b".\r\n\r\n",
        opening,
        b"\r\n",
    ]);
    write_guidance(lines, site, wording, consequence);
}

/// Writes what follows for the reader, and whom to ask, if the wording is by outcome. Requires that
/// the consequence doesn't begin with a dot.
fn write_guidance<'a, W: Drain>(
    lines: &mut LineWriter<W>,
    site: &'a Site,
    wording: Wording,
    consequence: &'a [u8],
)
    requires { IsFalse (begins_with_dot consequence.now) }
    ensures { Wrote W.Drain lines.old lines.new (guidance wording site.now.host consequence.now) }
{
    match wording {
        Wording::ByService => {}
        Wording::ByOutcome => lines.block(&[
            consequence,
            b"\r\nFor help, write to <postmaster@",
            site.host(),
            b"> and include this notice.\r\n",
        ]),
    }
}

/// Writes the lines for people of each outcome, oldest first, explained by this wording.
fn write_outcomes<W: Drain>(lines: &mut LineWriter<W>, letter: &Letter, explained: Wording)
    ensures { Wrote W.Drain lines.old lines.new
        (flat_map (outcome_lines letter.now.draft.wording explained) letter.now.outcomes) }
{
    let wording = letter.terms().wording();
    for outcome in letter.outcomes() {
        write_outcome(lines, wording, explained, outcome);
    }
}

/// Writes the lines for people of an outcome, by the letter's wording. What happened to the
/// recipient is explained by a wording of its own.
fn write_outcome<W: Drain>(
    lines: &mut LineWriter<W>,
    wording: Wording,
    explained: Wording,
    outcome: &Outcome,
)
    ensures { Wrote W.Drain lines.old lines.new (outcome_lines wording explained outcome.now) }
{
    write_action(lines, outcome, origin_told(wording, outcome));
    match explained {
        Wording::ByService => write_if_any(lines, b"    ", outcome.reason()),
        Wording::ByOutcome => write_explanation(lines, outcome),
    }
}

/// Writes what happened to a recipient: its meaning, the mail system's own reason, the remote
/// system's reply and the end of the attempts.
fn write_explanation<W: Drain>(lines: &mut LineWriter<W>, outcome: &Outcome)
    ensures { Wrote W.Drain lines.old lines.new (explanation ByOutcome outcome.now) }
{
    lines.block(&[b"    ", meaning_of(outcome), b"\r\n"]);
    let reason = outcome.reason();
    write_if_any(lines, b"    ", reason);
    write_reply(
        lines,
        outcome.mta(),
        reply_beside(reason, outcome.diagnostic()),
    );
    write_date_if_any(
        lines,
        b"    It will be tried again until ",
        outcome.retry_until(),
    );
}

/// Writes a reply after the remote system's name, if there is one.
fn write_reply<W: Drain>(lines: &mut LineWriter<W>, mta: Option<&[u8]>, reply: Option<&[u8]>)
    ensures { Wrote W.Drain lines.old lines.new
        (reply_lines (option_copied mta.entry) (option_copied reply.entry)) }
{
    if let Some(reply) = reply {
        lines.block(&[b"    ", speaker(mta), b" said:\r\n      ", reply, b"\r\n"]);
    }
}

/// Writes a recipient and its action. If `origin` is an address, the line says that the recipient
/// was expanded from it.
fn write_action<W: Drain>(lines: &mut LineWriter<W>, outcome: &Outcome, origin: Option<&[u8]>)
    ensures { Wrote W.Drain lines.old lines.new
        ((recipient_told outcome.now.recipient (option_copied origin.entry) ++ codes ": "
        ++ action_word outcome.now.action ++ codes " (" ++ outcome.now.status ++ codes ")")
        ∷ []) }
{
    let recipient = outcome.recipient();
    let action = action_word(outcome);
    let status = outcome.status().bytes();
    match origin {
        Some(origin) => lines.block(&[
            b"<",
            recipient,
            b"> (expanded from <",
            origin,
            b">): ",
            action,
            b" (",
            status,
            b")\r\n",
        ]),
        None => lines.block(&[b"<", recipient, b">: ", action, b" (", status, b")\r\n"]),
    }
}

/// The word of an outcome's action.
fn action_word(outcome: &Outcome) -> &[u8]
    ensures { result.now ≡ action_word outcome.now.action }
{
    outcome.action().word()
}

/// Writes the line of a value, if there is one. Requires that the name is not empty and doesn't
/// begin with a dot.
fn write_if_any<W: Drain>(lines: &mut LineWriter<W>, name: &[u8], value: Option<&[u8]>)
    requires { IsTrue (begins_plainly name.now) }
    ensures { Wrote W.Drain lines.old lines.new (line_if_any name.now (option_copied value.entry)) }
{
    if let Some(value) = value {
        lines.block(&[name, value, b"\r\n"]);
    }
}

/// Writes the empty line before the second part, and that part, which is for programs.
fn write_delivery_status<W: Drain>(
    lines: &mut LineWriter<W>,
    site: &Site,
    letter: &Letter,
    boundary: &[u8],
)
    ensures { Wrote W.Drain lines.old lines.new
        ([] ∷ part_header boundary.now (codes "Delivery report") (codes "message/delivery-status")
        false ++ delivery_status site.now.host letter.now) }
{
    lines.block(&[
        b"\r\n--",
        boundary,
        b"\r\n\
          Content-Description: Delivery report\r\n\
          Content-Type: message/delivery-status\r\n\
          \r\n",
    ]);
    write_message_fields(lines, site, letter);
    write_groups(lines, letter);
}

/// Writes the group of each recipient, the oldest outcome's first.
fn write_groups<W: Drain>(lines: &mut LineWriter<W>, letter: &Letter)
    ensures { Wrote W.Drain lines.old lines.new (flat_map recipient_group letter.now.outcomes) }
{
    for outcome in letter.outcomes() {
        lines.block(&[b"\r\n"]);
        write_recipient_fields(lines, outcome);
    }
}

/// Writes the fields of the message as a whole.
fn write_message_fields<W: Drain>(lines: &mut LineWriter<W>, site: &Site, letter: &Letter)
    ensures { Wrote W.Drain lines.old lines.new (per_message_fields site.now.host letter.now) }
{
    write_if_any(
        lines,
        b"Original-Envelope-Id: ",
        letter.envelope_id().map(EnvelopeId::bytes),
    );
    lines.block(&[
        b"Reporting-MTA: dns; ",
        site.host(),
        b"\r\nArrival-Date: ",
        &letter.arrival().date(),
        b"\r\n",
    ]);
    write_extensions(lines, letter.terms().extensions());
}

/// Writes the fields of a recipient.
fn write_recipient_fields<W: Drain>(lines: &mut LineWriter<W>, outcome: &Outcome)
    ensures { Wrote W.Drain lines.old lines.new (per_recipient_fields outcome.now) }
{
    write_original_recipient(lines, outcome);
    write_final_recipient(lines, outcome);
    lines.block(&[
        b"Action: ",
        action_word(outcome),
        b"\r\nStatus: ",
        outcome.status().bytes(),
        b"\r\n",
    ]);
    write_if_any(lines, b"Remote-MTA: dns; ", outcome.mta());
    write_diagnostic(lines, outcome);
    write_date_if_any(lines, b"Last-Attempt-Date: ", outcome.last_attempt());
    write_date_if_any(lines, b"Will-Retry-Until: ", outcome.retry_until());
    write_extensions(lines, outcome.extensions());
}

/// Writes extension fields unchanged (RFC 3464 section 2.4).
fn write_extensions<W: Drain>(lines: &mut LineWriter<W>, extensions: &[u8])
    requires { IsTrue (is_extension_text extensions.now) }
    ensures { Wrote W.Drain lines.old lines.new (lines_ended_by_lf extensions.now) }
{
    if extensions.is_empty() {
        return;
    }
    for line in (ExtensionLines { rest: extensions }) {
        lines.block(&[line, b"\r\n"]);
    }
}

/// Writes the original recipient, if it is known (RFC 3464 section 2.3.1).
fn write_original_recipient<W: Drain>(lines: &mut LineWriter<W>, outcome: &Outcome)
    ensures { Wrote W.Drain lines.old lines.new
        (line_if_any
        (typed (codes "Original-Recipient: ") usual_address_type outcome.now.original_type)
        outcome.now.original) }
{
    write_typed_if_any(
        lines,
        b"Original-Recipient: rfc822; ",
        b"Original-Recipient: ",
        outcome.original_type(),
        outcome.original(),
    );
}

/// Writes the final recipient (RFC 3464 section 2.3.2).
fn write_final_recipient<W: Drain>(lines: &mut LineWriter<W>, outcome: &Outcome)
    ensures { Wrote W.Drain lines.old lines.new
        ((typed (codes "Final-Recipient: ") usual_address_type outcome.now.recipient_type
        ++ outcome.now.recipient) ∷ []) }
{
    write_typed_if_any(
        lines,
        b"Final-Recipient: rfc822; ",
        b"Final-Recipient: ",
        outcome.recipient_type(),
        Some(outcome.recipient()),
    );
}

/// Writes the response of the remote system, if there is one (RFC 3464 section 2.3.6).
fn write_diagnostic<W: Drain>(lines: &mut LineWriter<W>, outcome: &Outcome)
    ensures { Wrote W.Drain lines.old lines.new
        (line_if_any
        (typed (codes "Diagnostic-Code: ") usual_diagnostic_type outcome.now.diagnostic_type)
        outcome.now.diagnostic) }
{
    write_typed_if_any(
        lines,
        b"Diagnostic-Code: smtp; ",
        b"Diagnostic-Code: ",
        outcome.diagnostic_type(),
        outcome.diagnostic(),
    );
}

/// Writes the line of a typed value, if there is one. If `kind` is a type, the line begins with
/// `name` and that type. Otherwise it begins with `usual`, which ends with the usual type.
fn write_typed_if_any<W: Drain>(
    lines: &mut LineWriter<W>,
    usual: &[u8],
    name: &[u8],
    kind: Option<&[u8]>,
    value: Option<&[u8]>,
)
    requires usual { IsTrue (begins_plainly usual.now) }
    requires name { IsTrue (begins_plainly name.now) }
    ensures { (usual_type : List ℕ) → usual.now ≡ typed name.now usual_type None
        → Wrote W.Drain lines.old lines.new
        (line_if_any (typed name.now usual_type (option_copied kind.entry))
        (option_copied value.entry)) }
{
    let Some(value) = value else {
        return;
    };
    match kind {
        Some(kind) => lines.block(&[name, kind, b"; ", value, b"\r\n"]),
        None => lines.block(&[usual, value, b"\r\n"]),
    }
}

/// Writes the line of a date, if there is one. Requires that the name is not empty and doesn't
/// begin with a dot.
fn write_date_if_any<W: Drain>(lines: &mut LineWriter<W>, name: &[u8], moment: Option<Stamp>)
    requires { IsTrue (begins_plainly name.now) }
    ensures { Wrote W.Drain lines.old lines.new
        (line_if_any name.now (option_map date_text moment)) }
{
    if let Some(moment) = moment {
        lines.block(&[name, &moment.date(), b"\r\n"]);
    }
}

/// Writes the empty line before the third part, and that part if there are returned lines.
fn write_returned_part<W: Drain>(
    lines: &mut LineWriter<W>,
    words: Words,
    returned: ReturnedText<'_>,
    boundary: &[u8],
)
    ensures { Wrote W.Drain lines.old lines.new
        ([] ∷ returned_part boundary.now
        (returned_description (words_in words) returned.entry.whole)
        (returned_type returned.entry.whole) returned.entry.eight_bit
        (lines_shown returned.entry.whole returned.entry.bytes.now)) }
{
    if returned.is_empty() {
        lines.block(&[b"\r\n"]);
        return;
    }
    let description = words.description(returned.whole);
    let content_type = returned_type(returned.whole);
    write_part_header(
        lines,
        boundary,
        description,
        content_type,
        returned.eight_bit,
    );
    write_returned_lines(lines, returned);
    lines.block(&[b"\r\n"]);
}

/// Writes the empty line before a part, and the part's delimiter and header.
fn write_part_header<'a, W: Drain>(
    lines: &mut LineWriter<W>,
    boundary: &'a [u8],
    description: &'a [u8],
    content_type: &'a [u8],
    eight_bit: bool,
)
    ensures { Wrote W.Drain lines.old lines.new
        ([] ∷ part_header boundary.now description.now content_type.now eight_bit) }
{
    lines.block(&[
        b"\r\n--",
        boundary,
        b"\r\nContent-Description: ",
        description,
        b"\r\nContent-Type: ",
        content_type,
        b"\r\n",
    ]);
    write_encoding(lines, eight_bit);
    lines.block(&[b"\r\n"]);
}

/// Writes the lines of a text: of the returned one, or of a template's.
fn write_returned_lines<W: Drain>(lines: &mut LineWriter<W>, returned: ReturnedText<'_>)
    ensures { Wrote W.Drain lines.old lines.new
        (lines_shown returned.entry.whole returned.entry.bytes.now) }
{
    let mut shown = [0; LINE_ROOM];
    for line in returned.lines() {
        lines.dotted_line(show_dotted_line(line, returned.whole, &mut shown));
    }
}

/// Writes a notice. It takes no memory. Requires that `preface` is how the notice begins, and
/// `returned` what it returns.
pub(crate) fn write_notice<W: Drain>(
    lines: &mut LineWriter<W>,
    site: &Site,
    letter: &Letter,
    preface: Preface<'_>,
    returned: ReturnedText<'_>,
)
    requires preface { IsPreface preface site.now letter.now }
    requires whole { returned.whole ≡ returns_message letter.now.draft }
    requires eight_bit { returned.eight_bit ≡ returns_eight_bit letter.now.draft }
    requires returned { lines_shown returned.whole returned.bytes.now ≡ returned_lines letter.now.draft }
    ensures { Wrote W.Drain lines.old lines.new (notice_lines site.now letter.now) }
{
    let name = boundary_text(letter, boundary_beside(letter, returned));
    let boundary = name.bytes();
    let front = &boundary[..boundary.len() - NUMBER_LEN];
    let eight_bit = is_eight_bit(preface, returned);
    write_header(lines, site, letter, preface, front, boundary, eight_bit);
    write_notification(lines, site, letter, preface, boundary);
    write_delivery_status(lines, site, letter, boundary);
    write_returned_part(lines, preface.words, returned, boundary);
    lines.block(&[b"--", boundary, b"--\r\n"]);
}
