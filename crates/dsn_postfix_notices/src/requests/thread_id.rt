//! The Message-ID of the message that a notice is about.
//! Implements docs/postfix-internals.md, "The notice of a Postfix log".
ghost use Rattle.std.specs.List.{list_all};
ghost use Rattle.std.specs.Option.{option_copied, option_map};
ghost use Rattle.std.specs.Prelude.{◌≡◌, true, IfOk, List};
ghost use Rattle.dsn_text.specs.Text.{is_printable};
ghost use Rattle.dsn_postfix_files.specs.QueueListing.{QueueEnding, RecordsFrom};
ghost use Rattle.dsn_postfix_files.specs.QueueRecord.{PlacedBytes};
ghost use Rattle.dsn_postfix_files.specs.QueueWalk.{first_place};
ghost use Rattle.dsn_postfix_notices.specs.requests.ThreadId.{ends_an_id, fits_a_line, ends_with_bracket, is_closing, is_plain, is_thread_id, text_searched, thread_id};

use crate::requests::request_letters::{FRONT_OF_TEXT, facts_said};
use dsn_postfix_files::{message_id_of_text, text_of_message};
use std::alloc::{AllocError, Global};

/// The longest id to which a notice refers, in bytes, so that its fields fit in one line.
const LONGEST_ID: usize = 900;

/// Whether all bytes are printable ASCII.
fn are_printable(text: &[u8]) -> bool
    ensures { result ≡ list_all is_printable text.now }
{
    text.iter().all(|&byte| byte >= 32 && byte <= 126)
}

/// Whether the last byte closes the brackets.
fn is_closing(last: Option<&u8>) -> bool
    ensures { result ≡ is_closing (option_copied last.entry) }
{
    match last {
        Some(byte) => *byte == b'>',
        None => false,
    }
}

/// Whether an id without its first byte isn't empty, and not too long.
fn fits_a_line(rest: &[u8]) -> bool
    ensures { result ≡ fits_a_line rest.now }
{
    rest.len() > 1 && rest.len() < LONGEST_ID
}

/// Whether a text ends with the closing bracket.
fn ends_with_bracket(rest: &[u8]) -> bool
    ensures { result ≡ ends_with_bracket rest.now }
{
    is_closing(rest.last())
}

/// Whether an id without its first byte is of a length and of bytes that a line may have.
fn is_plain(rest: &[u8]) -> bool
    ensures { result ≡ is_plain rest.now }
{
    fits_a_line(rest) && are_printable(rest)
}

/// Whether an id can end so behind its first byte.
fn ends_an_id(rest: &[u8]) -> bool
    ensures { result ≡ ends_an_id rest.now }
{
    ends_with_bracket(rest) && is_plain(rest)
}

/// Whether a text is an id to which a notice may refer.
fn is_thread_id(id: &[u8]) -> bool
    ensures { result ≡ is_thread_id id.now }
{
    match id {
        [first, rest @ ..] => *first == b'<' && ends_an_id(rest),
        [] => false,
    }
}

/// The part of a message's text in which its Message-ID is looked for.
pub(super) fn text_searched(alloc: Global, file: &[u8]) -> Result<Vec<u8>, AllocError>
    ensures { (records : List PlacedBytes) (ending : QueueEnding)
        → RecordsFrom file.now (first_place file.now) records ending
        → IfOk result (λ text. text.items ≡ text_searched records) }
{
    text_of_message(alloc, file, FRONT_OF_TEXT)
}

/// The id of a message to which its notice refers: what cleanup(8) noted, or what the front of its
/// text has.
pub(super) fn thread_id<'a>(file: &'a [u8], text: &'a [u8]) -> Option<&'a [u8]>
    ensures { (records : List PlacedBytes) (ending : QueueEnding)
        → RecordsFrom file.now (first_place file.now) records ending
        → text.now ≡ text_searched records
        → option_map (λ id. id.now) result ≡ thread_id true records }
{
    let id = match facts_said(file).message_id {
        Some(id) => id,
        None => message_id_of_text(text)?,
    };
    if is_thread_id(id) { Some(id) } else { None }
}
