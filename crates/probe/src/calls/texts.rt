//! The constructors of texts. A text that is kept is shown.
use crate::calls::begin;
use dsn_outcome::{Address, Clean, EnvelopeId, MtaName, RawHeader, TextFault};
use std::alloc::Global;
use std::io;
use std::io::Write;

/// Shows a text that was kept.
fn shown(rt: &impl Print, text: &[u8]) -> Option<u32> {
    io::writer(rt).write_all(text).ok()?;
    Some(0)
}

/// 9 where there was no memory for a text, and none for a bad one.
fn code(fault: TextFault) -> Option<u32> {
    match fault {
        TextFault::NoMemory => Some(9),
        TextFault::Bad => None,
    }
}

/// An address.
pub(crate) fn address(rt: &impl Print, alloc: Global) -> Option<u32> {
    begin(rt)?;
    match Address::new(alloc, b"bob@example.org") {
        Ok(kept) => shown(rt, kept.bytes()),
        Err(fault) => code(fault),
    }
}

/// The name of a remote mail system.
pub(crate) fn mta_name(rt: &impl Print, alloc: Global) -> Option<u32> {
    begin(rt)?;
    match MtaName::new(alloc, b"mail.example.org") {
        Ok(kept) => shown(rt, kept.bytes()),
        Err(fault) => code(fault),
    }
}

/// An envelope id.
pub(crate) fn envelope_id(rt: &impl Print, alloc: Global) -> Option<u32> {
    begin(rt)?;
    match EnvelopeId::new(alloc, b"QQ314159") {
        Ok(kept) => shown(rt, kept.bytes()),
        Err(fault) => code(fault),
    }
}

/// A diagnostic. (Of a text that is known when the program is built the compiler would keep the copy
/// on the stack.)
pub(crate) fn clean(rt: &impl Print, alloc: Global, text: &[u8]) -> Option<u32> {
    begin(rt)?;
    match Clean::new(alloc, text) {
        Ok(kept) => shown(rt, kept.bytes()),
        Err(fault) => code(fault),
    }
}

/// A header.
pub(crate) fn raw_header(rt: &impl Print, alloc: Global) -> Option<u32> {
    begin(rt)?;
    match RawHeader::new(alloc, b"Subject: hi") {
        Ok(kept) => shown(rt, kept.bytes()),
        Err(fault) => code(fault),
    }
}
