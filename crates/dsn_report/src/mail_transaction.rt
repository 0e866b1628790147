//! The client's side of an SMTP session.
//! Implements RFC 5321 section 3.3, RFC 6152 section 3 and noticed-notice(5).
ghost use Rattle.std.specs.Prelude.{◌≡◌, true, [], ◌∷◌, ◌++◌, codes, if◌then◌else◌};
ghost use Rattle.dsn_device.specs.QuietWriter.{Writes};
ghost use Rattle.dsn_report.specs.inner.LineWriter.{Took, Wrote};
ghost use Rattle.dsn_report.specs.Notice.{is_eight_bit, return_path_of};
ghost use Rattle.dsn_report.specs.Outbox.{greeting, goodbye, mail_parameter, mail_transaction};

use crate::line_writer::LineWriter;
use crate::notice_lines::write_notice;
use crate::preface::{Preface, is_eight_bit};
use crate::returned_text::ReturnedText;
use crate::site::Site;
use dsn_device::Drain;
use dsn_outcome::Letter;

/// Sends a letter's mail transaction, after the greeting unless that is sent already.
pub(crate) fn send_letter<W: Drain>(
    lines: &mut LineWriter<W>,
    site: &Site,
    letter: &Letter,
    greeted: bool,
)
    requires dots { lines.old.dots ≡ true }
    requires none_pending { lines.old.pending ≡ [] }
    ensures sent { Writes W.Drain lines.old.writer lines.new.writer
        ((if greeted then [] else greeting site.now) ++ mail_transaction site.now letter.now) }
    ensures dots { lines.new.dots ≡ true }
    ensures none_pending { lines.new.pending ≡ [] }
{
    greet_once(lines, site, greeted);
    write_transaction(lines, site, letter);
    lines.settle();
}

/// Sends QUIT, after the greeting unless that is sent already.
pub(crate) fn send_goodbye<W: Drain>(lines: &mut LineWriter<W>, site: &Site, greeted: bool)
    requires { lines.old.pending ≡ [] }
    ensures { Writes W.Drain lines.old.writer lines.new.writer
        ((if greeted then [] else greeting site.now) ++ goodbye) }
{
    greet_once(lines, site, greeted);
    write_goodbye(lines);
    lines.settle();
}

/// Writes the greeting unless it is written already.
#[tactic(auto, unfolding(crate::specs::Outbox::greeting, crate::specs::Lines::text_of_lines))]
fn greet_once<W: Drain>(lines: &mut LineWriter<W>, site: &Site, greeted: bool)
    ensures { Took W.Drain lines.old lines.new (if greeted then [] else greeting site.now) }
{
    if !greeted {
        lines.piece(b"EHLO ");
        lines.piece(site.host());
        lines.piece(b"\r\n");
    }
}

/// Writes the mail transaction of a letter.
fn write_transaction<W: Drain>(lines: &mut LineWriter<W>, site: &Site, letter: &Letter)
    requires { lines.old.dots ≡ true }
    ensures { Took W.Drain lines.old lines.new (mail_transaction site.now letter.now) }
{
    let returned = ReturnedText::of(letter);
    let preface = Preface::of(site, letter);
    let parameter = mail_parameter(is_eight_bit(preface, returned));
    write_envelope(lines, letter, parameter);
    write_notice(lines, site, letter, preface, returned);
    lines.piece(b".\r\n");
}

/// Writes the commands before the mail data, with this parameter of MAIL.
fn write_envelope<'a, W: Drain>(lines: &mut LineWriter<W>, letter: &'a Letter, parameter: &'a [u8])
    ensures { Wrote W.Drain lines.old lines.new
        ((codes "MAIL FROM:<>" ++ parameter.now)
        ∷ (codes "RCPT TO:<" ++ return_path_of letter.now ++ codes ">")
        ∷ codes "DATA" ∷ []) }
{
    lines.block(&[
        b"MAIL FROM:<>",
        parameter,
        b"\r\nRCPT TO:<",
        letter.return_path().bytes(),
        b">\r\nDATA\r\n",
    ]);
}

/// The parameter of MAIL, if the mail data are 8bit (RFC 6152 section 3).
fn mail_parameter(eight_bit: bool) -> &'static [u8]
    ensures { result.now ≡ mail_parameter eight_bit }
{
    if eight_bit { b" BODY=8BITMIME" } else { b"" }
}

/// Writes QUIT.
#[tactic(auto, unfolding(crate::specs::Outbox::goodbye, crate::specs::Lines::text_of_lines))]
fn write_goodbye<W: Drain>(lines: &mut LineWriter<W>)
    ensures { Took W.Drain lines.old lines.new goodbye }
{
    lines.piece(b"QUIT\r\n");
}
