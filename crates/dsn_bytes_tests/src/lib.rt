//! Tests of devices, of outcomes, of frames, requests and answers in bytes, of notices and
//! outboxes, and of the requests and files of Postfix's programs.
//!
//! They use only what those crates make public. So they are proved without the proofs of those
//! crates, and at the same time as their wrong edits.
#![tactic(auto)]

#[cfg(test)]
mod assert_same;
#[cfg(test)]
mod device;
#[cfg(test)]
mod frame;
#[cfg(test)]
mod one_notice;
#[cfg(test)]
mod outcome;
#[cfg(test)]
mod postfix_letter;
#[cfg(test)]
mod postfix_list;
#[cfg(test)]
mod postfix_log;
#[cfg(test)]
mod postfix_plan;
#[cfg(test)]
mod postfix_queue;
#[cfg(test)]
mod postfix_request;
#[cfg(test)]
mod postfix_service;
#[cfg(test)]
mod report;
#[cfg(test)]
mod texts;
