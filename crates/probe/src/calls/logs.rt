//! Outcomes, drafts, and a book of logs.
use crate::calls::asked::{append, envelope_id, header, return_path};
use crate::calls::{asked, begin};
use dsn_book::{Book, Limits};
use dsn_outcome::{Body, Draft, Letter, OutcomeFault, Request, Returned, Stamp, Wishes, Wording};
use std::alloc::Global;

/// An outcome with all its texts.
pub(crate) fn outcome(rt: &impl Print, alloc: Global) -> Option<u32> {
    begin(rt)?;
    match asked::outcome(alloc) {
        Ok(_) => Some(0),
        Err(OutcomeFault::NoMemory) => Some(9),
        Err(_) => None,
    }
}

/// A draft with all that it may have except extension fields.
pub(crate) fn draft(rt: &impl Print, alloc: Global) -> Option<u32> {
    let moment = Stamp::new(1_700_000_000)?;
    let return_path = return_path(alloc)?;
    let envelope_id = envelope_id(alloc)?;
    let header = header(alloc)?;
    begin(rt)?;
    let wishes = Wishes {
        expected: Some(1),
        returned: Returned::Header,
        wording: Wording::ByService,
    };
    let draft = Draft::new(
        alloc,
        moment,
        moment,
        Some(return_path),
        Some(envelope_id),
        header,
        wishes,
    );
    Some(if draft.is_ok() { 0 } else { 9 })
}

/// A book for eight logs.
pub(crate) fn book(rt: &impl Print, alloc: Global) -> Option<u32> {
    let limits = Limits::new(8, 8, 8)?;
    begin(rt)?;
    Some(if Book::new(alloc, limits).is_ok() {
        0
    } else {
        9
    })
}

/// Applies a request with this body, and gives the letter that it seals, if it does.
pub(crate) fn ask(book: &mut Book, body: Body) -> Option<Letter> {
    if book.sealed() == u64::MAX {
        return None;
    }
    let request = Request {
        agent: 0,
        number: 0,
        body,
    };
    book.apply(request).letter
}

/// The lines of three open logs.
pub(crate) fn open_lines(rt: &impl Print, alloc: Global) -> Option<u32> {
    let mut book = Book::new(alloc, Limits::new(8, 8, 8)?).ok()?;
    for message in [b"K1", b"K2", b"K3"] {
        let body = append(alloc, message)?;
        ask(&mut book, body);
    }
    begin(rt)?;
    Some(if book.open_lines(alloc).is_ok() { 0 } else { 9 })
}
