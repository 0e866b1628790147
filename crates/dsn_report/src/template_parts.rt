//! The values in the file of a template.
ghost use Rattle.std.specs.Prelude.{◌≡◌, ℕ, List, IfNone, IfSome, None, Some};
ghost use Rattle.std.specs.List.{list_all, list_any};
ghost use Rattle.std.specs.Str.Lines.{lines};
ghost use Rattle.dsn_report.specs.LegalLines.{has_high_byte, is_eight_bit_line};
ghost use Rattle.dsn_report.specs.Template.{IsFileOf, Template, begins_as_delimiter, first_template_fault, has_eight_bit_text, is_charset, is_charset_byte, is_field_value, is_like_delimiter};
ghost use Rattle.dsn_report.specs.inner.NoticeLines.{lines_left};
ghost use Rattle.dsn_report.specs.inner.Template.{IsField, first_line_fault, template_in};
ghost use Rattle.dsn_text.specs.Text.{is_printable};

use crate::returned_lines::ReturnedLines;
use crate::returned_text::{has_high_byte, is_eight_bit_line};
use crate::template_fault::TemplateFault;
use bstr::ByteSlice;
use dsn_outcome::Service;

/// The length limit of a charset's name, in bytes (RFC 2978 section 2.3).
const LONGEST_CHARSET: usize = 40;

/// The length limit of the value of From or Subject, in bytes.
const LONGEST_VALUE: usize = 989;

/// The length limit of a text, in bytes.
const LONGEST_TEMPLATE: usize = 32_768;

/// The values in the file of a template.
#[derive(Clone, Copy)]
pub(crate) struct TemplateParts<'a> {
    /// The charset of the text.
    pub(crate) charset: &'a [u8],
    /// The value of From.
    pub(crate) sender: &'a [u8],
    /// The value of Subject.
    pub(crate) subject: &'a [u8],
    /// The text.
    pub(crate) text: &'a [u8],
}

impl<'a> TemplateParts<'a> {
    /// Returns the values in a file, or `None` if it isn't laid out as a template. They aren't
    /// checked.
    pub(crate) fn of(file: &'a [u8]) -> Option<TemplateParts<'a>>
        ensures some { IfSome result (λ parts. IsFileOf file.now (template_in parts)) }
        ensures none { IfNone result ((template : Template) → ¬ IsFileOf file.now template) }
    {
        let (charset, rest) = field_of(b"Charset: ", file)?;
        let (sender, rest) = field_of(b"From: ", rest)?;
        let (subject, rest) = field_of(b"Subject: ", rest)?;
        let text = rest.strip_prefix(b"\n")?;
        Some(TemplateParts {
            charset,
            sender,
            subject,
            text,
        })
    }

    /// The first fault of the values, if they have one.
    pub(crate) fn first_fault(self) -> Option<TemplateFault>
        ensures { result ≡ first_template_fault (template_in self.entry) }
    {
        if !is_charset(self.charset) {
            return Some(TemplateFault::Charset);
        }
        if !is_field_value(self.sender) {
            return Some(TemplateFault::From);
        }
        if !is_field_value(self.subject) {
            return Some(TemplateFault::Subject);
        }
        if self.text.is_empty() {
            return Some(TemplateFault::NoText);
        }
        if self.text.len() > LONGEST_TEMPLATE {
            return Some(TemplateFault::LongText);
        }
        self.first_line_fault()
    }

    /// The first fault of the lines of the text, or the fault of their charset, if there is one.
    fn first_line_fault(self) -> Option<TemplateFault>
        ensures { result ≡ first_line_fault (template_in self.entry) }
    {
        if !are_eight_bit_lines(self.text) {
            return Some(TemplateFault::Line);
        }
        if has_like_delimiter(self.text) {
            return Some(TemplateFault::Delimiter);
        }
        if self.charset.eq_ignore_ascii_case(b"us-ascii") && self.has_eight_bit_text() {
            return Some(TemplateFault::NotAscii);
        }
        None
    }

    /// Whether some line of the text has a byte above 127.
    pub(crate) fn has_eight_bit_text(self) -> bool
        ensures { result ≡ has_eight_bit_text (template_in self.entry) }
    {
        for line in lines_of(self.text) {
            if has_high_byte(line) {
                return true;
            }
        }
        false
    }
}

/// Returns the value of the field in the first line of a text, and the text after that line.
/// Returns `None` if the line isn't the field's, or has no line feed.
fn field_of<'a>(name: &[u8], text: &'a [u8]) -> Option<(&'a [u8], &'a [u8])>
    ensures some { IfSome result (λ field. IsField name.now text.now field.0.now field.1.now) }
    ensures none { IfNone result ((value rest : List ℕ) → ¬ IsField name.now text.now value rest) }
{
    let line = text.strip_prefix(name)?;
    let feed = line.find_byte(b'\n')?;
    Some((&line[..feed], &line[feed + 1..]))
}

/// Whether a text is the name of a charset.
fn is_charset(text: &[u8]) -> bool
    ensures { result ≡ is_charset text.now }
{
    1 <= text.len() && text.len() <= LONGEST_CHARSET && has_charset_bytes(text)
}

/// Whether the name of a charset may have each of these bytes.
fn has_charset_bytes(text: &[u8]) -> bool
    ensures { result ≡ list_all is_charset_byte text.now }
{
    text.iter().all(|&byte| is_charset_byte(byte))
}

/// Whether the name of a charset may have this byte (RFC 2978 section 2.3).
fn is_charset_byte(byte: u8) -> bool
    ensures { result ≡ is_charset_byte byte }
{
    matches!(
        byte,
        b'0'..=b'9'
            | b'A'..=b'Z'
            | b'a'..=b'z'
            | b'!'
            | b'#'..=b'\''
            | b'+'
            | b'-'
            | b'^'..=b'`'
            | b'{'
            | b'}'..=b'~'
    )
}

/// Whether a text can be the value of From or Subject.
fn is_field_value(text: &[u8]) -> bool
    ensures { result ≡ is_field_value text.now }
{
    1 <= text.len() && text.len() <= LONGEST_VALUE && has_printable_bytes(text)
}

/// Whether each of these bytes is printable ASCII.
fn has_printable_bytes(text: &[u8]) -> bool
    ensures { result ≡ list_all is_printable text.now }
{
    text.iter().all(|byte| matches!(byte, b' '..=b'~'))
}

/// An iterator over the lines of a text.
fn lines_of(text: &[u8]) -> ReturnedLines<'_>
    ensures { lines_left result ≡ lines text.now }
{
    ReturnedLines {
        rest: text,
        whole: true,
    }
}

/// Whether each line of a text can be in an 8bit mail unchanged.
fn are_eight_bit_lines(text: &[u8]) -> bool
    ensures { result ≡ list_all is_eight_bit_line (lines text.now) }
{
    for line in lines_of(text) {
        if !is_eight_bit_line(line) {
            return false;
        }
    }
    true
}

/// Whether some line of a text could be a delimiter.
fn has_like_delimiter(text: &[u8]) -> bool
    ensures { result ≡ list_any is_like_delimiter (lines text.now) }
{
    for line in lines_of(text) {
        if is_like_delimiter(line) {
            return true;
        }
    }
    false
}

/// Whether a line could be a delimiter of some letter's parts.
fn is_like_delimiter(line: &[u8]) -> bool
    ensures { result ≡ is_like_delimiter line.now }
{
    begins_as_delimiter(line, Service::Bounce)
        || begins_as_delimiter(line, Service::Defer)
        || begins_as_delimiter(line, Service::Trace)
}

/// Whether a line begins as the delimiters of this service's letters do.
fn begins_as_delimiter(line: &[u8], service: Service) -> bool
    ensures { result ≡ begins_as_delimiter service line.now }
{
    line.starts_with(&[b'-', b'-', service.letter(), b'.'])
}
