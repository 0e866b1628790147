//! Letters that a book seals, for tests.
use crate::bodies::{Kind, body};
use dsn_book::{Book, Limits};
use dsn_outcome::{Body, Letter, Request};
use std::alloc::Global;

/// Asks a book, and gives the letter that it seals, if it seals one.
fn ask(book: &mut Book, body: Body) -> Option<Letter> {
    if book.sealed() > 100 {
        return None;
    }
    let request = Request {
        agent: 0,
        number: 0,
        body,
    };
    book.apply(request).letter
}

/// Appends to the bounce log of a message, and flushes it.
fn letter_of(alloc: Global, book: &mut Book, message: &[u8]) -> Option<Letter> {
    let append = body(alloc, Kind::Append, message)?;
    let flush = body(alloc, Kind::Flush, message)?;
    ask(book, append);
    ask(book, flush)
}

/// A book without a key.
fn new_book(alloc: Global) -> Option<Book> {
    Book::new(alloc, Limits::new(8, 8, 8)?).ok()
}

/// The first letter of a book, about `K1`.
pub(crate) fn one_letter(alloc: Global) -> Option<Letter> {
    letter_of(alloc, &mut new_book(alloc)?, b"K1")
}
