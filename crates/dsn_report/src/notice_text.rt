//! A notice in memory.
//! Implements noticed-notice(5).
ghost use Rattle.std.specs.Prelude.{◌≡◌, ◌++◌, [], codes, IfOk, if◌then◌else◌};
ghost use Rattle.dsn_report.specs.inner.LineWriter.{lines_sent};
ghost use Rattle.dsn_report.specs.Lines.{text_of_lines};
ghost use Rattle.dsn_report.specs.Notice.{notice_lines, notice_of};
ghost use Rattle.dsn_report.specs.Outbox.{mail_data};

use crate::line_writer::LineWriter;
use crate::notice_lines::write_notice;
use crate::pending_bytes::PendingBytes;
use crate::preface::Preface;
use crate::returned_text::ReturnedText;
use crate::site::Site;
use dsn_device::{Plain, QuietWriter};
use dsn_outcome::{Letter, NoMemory};
use std::alloc::Global;

/// Returns the text of a letter's notice as a mail program shows it, without the dots that SMTP
/// adds. Returns `NoMemory` only if memory for it was refused.
#[tactic(auto, using(crate::proofs::NoticeTextLemmas::plain_text))]
pub fn notice(alloc: Global, site: &Site, letter: &Letter) -> Result<Vec<u8>, NoMemory>
    ensures { IfOk result (λ text. text.items ≡ notice_of site.now letter.now) }
{
    notice_text(alloc, site, letter, false)
}

/// Returns the mail data of a letter's notice, which follows the command DATA (RFC 5321 section
/// 4.1.1.4). It has the dots that SMTP adds and the final dot (section 4.5.2). Returns `NoMemory`
/// only if memory for it was refused.
#[tactic(auto, using(crate::proofs::NoticeTextLemmas::data_text))]
pub fn mail_data(alloc: Global, site: &Site, letter: &Letter) -> Result<Vec<u8>, NoMemory>
    ensures { IfOk result (λ text. text.items ≡ mail_data site.now letter.now) }
{
    notice_text(alloc, site, letter, true)
}

/// The text of a letter's notice: plain, or with added dots and the final dot.
fn notice_text(alloc: Global, site: &Site, letter: &Letter, dots: bool) -> Result<Vec<u8>, NoMemory>
    ensures { IfOk result (λ text. text.items
        ≡ text_of_lines (lines_sent dots (notice_lines site.now letter.now))
        ++ (if dots then codes ".\r\n" else [])) }
{
    let mut lines = LineWriter {
        writer: QuietWriter::new(Plain::new(Vec::new(alloc))),
        dots,
        pending: PendingBytes::new(),
    };
    let preface = Preface::of(site, letter);
    write_notice(&mut lines, site, letter, preface, ReturnedText::of(letter));
    lines.piece(end_of_text(dots));
    lines.settle();
    let LineWriter {
        writer,
        dots: _,
        pending: _,
    } = lines;
    let (drain, failed) = writer.into_parts();
    let text = drain.into_inner();
    if failed {
        return Err(NoMemory);
    }
    Ok(text)
}

/// The end of the text of a notice: empty, or the final dot of mail data.
fn end_of_text(dots: bool) -> &'static [u8]
    ensures { result.now ≡ (if dots then codes ".\r\n" else []) }
{
    if dots { b".\r\n" } else { b"" }
}
