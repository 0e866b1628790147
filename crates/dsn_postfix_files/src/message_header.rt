//! The header of a message.
//! Implements RFC 5322 section 2.2 and docs/postfix-internals.md, "Postfix's queue files".
ghost use Rattle.std.specs.Prelude.{◌≡◌, take};
ghost use Rattle.std.specs.Option.{option_map};
ghost use Rattle.dsn_postfix_files.specs.LogLine.{all_lines};
ghost use Rattle.dsn_postfix_files.specs.MessageHeader.{after_all, begins_with, is_blank_byte, is_colon, is_header_line, first_message_id, is_name_byte, longest_field_name, message_header, message_id_of_line, message_id_of_text, names_field, without_trailing_blanks};

use crate::log_line::whole_line;

/// The number of bytes at the front of a line that must contain a field's name and its colon.
pub const LONGEST_FIELD_NAME: usize = 2_048;

/// Whether a byte is a space or a tab.
fn is_blank_byte(byte: u8) -> bool
    ensures { result ≡ is_blank_byte byte }
{
    byte == b' ' || byte == b'\t'
}

/// Whether a byte may be in the name of a field (RFC 5322 section 2.2).
fn is_name_byte(byte: u8) -> bool
    ensures { result ≡ is_name_byte byte }
{
    byte > 32 && byte < 127 && byte != b':'
}

/// A text without the name at its front.
fn after_name(text: &[u8]) -> &[u8]
    ensures { result.now ≡ after_all is_name_byte text.now }
{
    let mut rest = text;
    while let [byte, after @ ..] = rest {
        if !is_name_byte(*byte) {
            return rest;
        }
        rest = after;
    }
    rest
}

/// A text without its leading spaces and tabs.
fn after_blanks(text: &[u8]) -> &[u8]
    ensures { result.now ≡ after_all is_blank_byte text.now }
{
    let mut rest = text;
    while let [byte, after @ ..] = rest {
        if !is_blank_byte(*byte) {
            return rest;
        }
        rest = after;
    }
    rest
}

/// Whether a line begins with the name of a field and a colon.
fn names_field(line: &[u8]) -> bool
    ensures { result ≡ names_field line.now }
{
    match line {
        [byte, ..] => is_name_byte(*byte) && begins_with_colon(after_blanks(after_name(line))),
        [] => false,
    }
}

/// Whether a text begins with a colon.
fn begins_with_colon(text: &[u8]) -> bool
    ensures { result ≡ begins_with is_colon text.now }
{
    match text {
        [byte, ..] => *byte == b':',
        [] => false,
    }
}

/// The front of a line, which contains the name of a field if the line begins a field.
fn front_of_line(line: &[u8]) -> &[u8]
    ensures { result.now ≡ take longest_field_name line.now }
{
    if line.len() <= LONGEST_FIELD_NAME {
        line
    } else {
        &line[..LONGEST_FIELD_NAME]
    }
}

/// Whether a line belongs to a header: it begins a field or continues one.
fn is_header_line(line: &[u8]) -> bool
    ensures { result ≡ is_header_line line.now }
{
    match line {
        // The empty line isn't the only end: in a message without one, the body directly follows
        // the fields. A line is judged by its front, so the front of a text shows its header.
        // bounce(8) judges each record instead, and loses the text after a field of more than 2,048
        // bytes.
        [byte, ..] => is_blank_byte(*byte) || names_field(front_of_line(line)),
        [] => false,
    }
}

/// The header of a message's text: the lines before the first one that neither begins a field nor
/// continues one, such as the empty line before a body.
pub fn header_of_message(text: &[u8]) -> &[u8]
    ensures { result.now ≡ message_header text.now }
{
    let mut rest = text;
    while let Some((line, after)) = whole_line(rest) {
        if !is_header_line(line) {
            return &text[..text.len() - rest.len()];
        }
        rest = after;
    }
    if is_header_line(rest) {
        return text;
    }
    &text[..text.len() - rest.len()]
}

/// The name of the field with a message's own id, and its colon.
const MESSAGE_ID: &[u8] = b"Message-ID:";

/// A text without its trailing spaces and tabs.
fn without_trailing_blanks(text: &[u8]) -> &[u8]
    ensures { result.now ≡ without_trailing_blanks text.now }
{
    let mut len = text.len();
    while len > 0 && is_blank_byte(text[len - 1]) {
        len -= 1;
    }
    &text[..len]
}

/// The Message-ID in a line, if it begins that field.
fn message_id_of_line(line: &[u8]) -> Option<&[u8]>
    ensures { option_map (λ text. text.now) result ≡ message_id_of_line line.now }
{
    let (name, value) = line.split_at_checked(MESSAGE_ID.len())?;
    if !name.eq_ignore_ascii_case(MESSAGE_ID) {
        return None;
    }
    Some(without_trailing_blanks(after_blanks(value)))
}

/// The first Message-ID in some lines.
fn first_message_id(text: &[u8]) -> Option<&[u8]>
    ensures { option_map (λ id. id.now) result ≡ first_message_id (all_lines text.now) }
{
    let mut rest = text;
    while let Some((line, after)) = whole_line(rest) {
        if let Some(id) = message_id_of_line(line) {
            return Some(id);
        }
        rest = after;
    }
    message_id_of_line(rest)
}

/// The Message-ID in the header of a message's text: what the first line with that field has of it,
/// as bounce(8) reads it. It is not checked.
pub fn message_id_of_text(text: &[u8]) -> Option<&[u8]>
    ensures { option_map (λ id. id.now) result ≡ message_id_of_text text.now }
{
    first_message_id(header_of_message(text))
}
