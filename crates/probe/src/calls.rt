//! Public calls that take memory, each on values that are made before it.
//!
//! Standard output gets the line `begin` once the values are made, and after the call a text that
//! was kept and `made`, or `refused` and the number of the refusal. `collect` is a collector and an
//! outbox at work, which take no memory after `begin`.
mod asked;
mod collect;
mod frames;
mod lanes;
mod logs;
mod notices;
mod texts;

use std::alloc::Global;
use std::sync::Wait;
use std::time::Clock;

/// Makes the call of this name, and shows its result. Returns `None` if no such call is known, if a
/// value before it could not be made, or if a line can't be written.
pub(crate) fn show_call(
    rt: &(impl Print + Wait + Clock),
    alloc: Global,
    name: &str,
    text: Option<&str>,
) -> Option<()> {
    let came = match text {
        Some(text) => texts::clean(rt, alloc, text.as_bytes()),
        None => come_to(rt, alloc, name),
    };
    match came? {
        0 => println!(rt; " made").ok(),
        refusal => println!(rt; "refused {refusal}").ok(),
    }
}

/// The result of a call: 0, or the number of its refusal. Returns `None` if no such call is known,
/// or if a value before it could not be made.
fn come_to(rt: &(impl Print + Wait + Clock), alloc: Global, name: &str) -> Option<u32> {
    match name {
        "address" => texts::address(rt, alloc),
        "mta-name" => texts::mta_name(rt, alloc),
        "envelope-id" => texts::envelope_id(rt, alloc),
        "raw-header" => texts::raw_header(rt, alloc),
        "outcome" => logs::outcome(rt, alloc),
        "draft" => logs::draft(rt, alloc),
        "book" => logs::book(rt, alloc),
        "open-lines" => logs::open_lines(rt, alloc),
        "read-frame" => frames::read(rt, alloc, frames::FRAME),
        "read-next" => frames::read_next(rt, alloc),
        "read-empty" => frames::read(rt, alloc, frames::EMPTY),
        "read-too-long" => frames::read(rt, alloc, frames::TOO_LONG),
        "decode-append" => frames::decode(rt, alloc, frames::APPEND),
        "decode-flush" => frames::decode(rt, alloc, frames::FLUSH),
        "encode-append" => frames::encode(rt, alloc, frames::APPEND),
        "encode-flush" => frames::encode(rt, alloc, frames::FLUSH),
        "site" => notices::site(rt, alloc),
        "notice" => notices::notice_of_letter(rt, alloc),
        "mail-data" => notices::mail_data_of_letter(rt, alloc),
        "open-lane" => lanes::lane(rt, alloc),
        "open-post" => lanes::post(rt, alloc),
        "open-crew" => lanes::crew(rt, alloc),
        "collect" => collect::collect(rt, alloc),
        _ => None,
    }
}

/// Says that the values are made, and that the call comes now.
fn begin(rt: &impl Print) -> Option<()> {
    println!(rt; "begin").ok()
}
