//! Sites and notices.
use crate::calls::asked::{append, flush};
use crate::calls::begin;
use crate::calls::logs::ask;
use dsn_book::{Book, Limits};
use dsn_outcome::Letter;
use dsn_report::{Site, SiteFault, mail_data, notice};
use std::alloc::Global;

/// The site of a host.
pub(crate) fn site(rt: &impl Print, alloc: Global) -> Option<u32> {
    begin(rt)?;
    match Site::new(alloc, b"mx.example.net") {
        Ok(_) => Some(0),
        Err(SiteFault::NoMemory) => Some(9),
        Err(SiteFault::BadHost) => None,
    }
}

/// A letter of one outcome.
fn letter(alloc: Global) -> Option<Letter> {
    let mut book = Book::new(alloc, Limits::new(8, 8, 8)?).ok()?;
    let logged = append(alloc, b"A1B2C3")?;
    ask(&mut book, logged);
    let flushed = flush(alloc, b"A1B2C3")?;
    ask(&mut book, flushed)
}

/// The text of a letter's notice.
pub(crate) fn notice_of_letter(rt: &impl Print, alloc: Global) -> Option<u32> {
    let site = Site::new(alloc, b"mx.example.net").ok()?;
    let letter = letter(alloc)?;
    begin(rt)?;
    Some(if notice(alloc, &site, &letter).is_ok() {
        0
    } else {
        9
    })
}

/// A letter's mail data.
pub(crate) fn mail_data_of_letter(rt: &impl Print, alloc: Global) -> Option<u32> {
    let site = Site::new(alloc, b"mx.example.net").ok()?;
    let letter = letter(alloc)?;
    begin(rt)?;
    Some(if mail_data(alloc, &site, &letter).is_ok() {
        0
    } else {
        9
    })
}
