//! Tests of values, over what `dsn_outcome` makes public, with the values of `dsn_text` that it
//! exports.
use crate::assert_same::same;
use dsn_outcome::{
    Chain, Draft, DraftParts, Key, LAST_MOMENT, Letter, Letters, Outcome, Parts, QueueId, Service,
    Stamp, Types,
};
use std::alloc::Global;
use std::process::Abort;
use std::test::Fail;

/// A moment has this date.
fn expect_date(rt: &impl Abort, seconds: u64, want: &[u8; 31]) {
    let date = match Stamp::new(seconds) {
        Some(stamp) => Some(stamp.date()),
        None => None,
    };
    same(rt, (seconds, date), (seconds, Some(*want)));
}

#[test]
fn dates(rt: HostRuntime) {
    for (seconds, want) in [
        (0, b"Thu, 01 Jan 1970 00:00:00 +0000"),
        (951_827_696, b"Tue, 29 Feb 2000 12:34:56 +0000"),
        (1_700_000_000, b"Tue, 14 Nov 2023 22:13:20 +0000"),
        (LAST_MOMENT, b"Fri, 31 Dec 9999 23:59:59 +0000"),
    ] {
        expect_date(&rt, seconds, want);
    }
}

/// The extension fields of a letter's message.
const EXTENSIONS: &[u8] = b"X-A: : b \n";

/// A letter to Ann about one failed recipient of the message A, which returns this header.
pub(crate) fn letter(alloc: Global, header: &[u8]) -> Result<Letter, Fail> {
    let moment = Stamp::new(1).ok_or("the moment")?;
    let id = QueueId::new(b"A").ok_or("the queue id")?;
    let mut fields = DraftParts::usual(b"ann@example.com", b"", header);
    fields.extensions = EXTENSIONS;
    let draft = Draft::read(alloc, moment, moment, fields)?;
    let parts = Parts {
        recipient: b"bob@example.org",
        original: b"",
        action: 1,
        status: b"5.1.1",
        mta: b"",
        diagnostic: b"",
        reason: b"",
        last_attempt: None,
        retry_until: None,
        types: Types::usual(),
        extensions: b"",
    };
    let node = Outcome::new(alloc, Service::Bounce, parts)?;
    let mut chain = Chain::new();
    chain.push(node);
    let key = Key {
        service: Service::Bounce,
        id,
    };
    Ok(Letter::seal(key, draft, chain, 0))
}

#[test]
fn draft_takes_extension_fields(rt: HostRuntime) -> Result<(), Fail> {
    let letter = letter(rt.alloc(), b"")?;
    same(&rt, letter.terms().extensions(), EXTENSIONS);
    Ok(())
}

/// Pushes letters.
fn push_letters(alloc: Global, letters: &mut Letters, count: u32) -> Result<(), Fail> {
    for _ in 0..count {
        letters.push(letter(alloc, b"")?);
    }
    Ok(())
}

/// Letters are freed one after another. Freeing them within one another would use up the stack.
#[test]
fn many_letters_are_freed(rt: HostRuntime) -> Result<(), Fail> {
    let mut letters = Letters::new();
    push_letters(rt.alloc(), &mut letters, 100_000)?;
    same(&rt, letters.pop().is_some(), true);
    push_letters(rt.alloc(), &mut letters, 1)?;
    same(&rt, letters.len(), 100_000);
    drop(letters);
    Ok(())
}
