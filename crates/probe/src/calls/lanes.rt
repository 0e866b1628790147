//! Lanes, the letter lane, and a crew before it begins.
use crate::calls::begin;
use dsn_book::Limits;
use dsn_crew::{open_crew, open_lane, open_post};
use dsn_outcome::Request;
use std::alloc::Global;
use std::sync::Wait;

/// A lane of three agents.
pub(crate) fn lane(rt: &(impl Print + Wait), alloc: Global) -> Option<u32> {
    begin(rt)?;
    Some(if open_lane::<Request>(rt, alloc, 0, 3, 8).is_ok() {
        0
    } else {
        9
    })
}

/// The lane on which letters go to the outbox.
pub(crate) fn post(rt: &(impl Print + Wait), alloc: Global) -> Option<u32> {
    begin(rt)?;
    Some(if open_post(rt, alloc, 16).is_ok() {
        0
    } else {
        9
    })
}

/// A crew of three agents.
pub(crate) fn crew(rt: &(impl Print + Wait), alloc: Global) -> Option<u32> {
    let limits = Limits::new(8, 8, 8)?;
    begin(rt)?;
    match open_crew(rt, alloc, limits, 3) {
        Ok(_) => Some(0),
        Err(fault) => Some(fault.code()),
    }
}
