//! Answers to frames: how they are encoded and decoded.
//! Implements noticed-protocol(5).
ghost use Rattle.std.specs.Prelude.{◌≡◌, ◌≢◌, ◌⊎◌, ℕ, ◌≤◌, [], ◌∷◌, ◌++◌, length, true, IfOk, IfErr, IfSome, OnOk, Ok, Some, None};
ghost use Rattle.std.specs.Int.{w32, to_be_bytes};
ghost use Rattle.dsn_frame.specs.bodies.Spoken.{FitsAnswer, answer_body, answer_bytes, first_answer_fault, is_without_rest, is_without_value, reply_kind, reply_value, sealed_kind, serial_bytes, spoken_kind, spoken_serial, spoken_value};

use crate::bodies::VERSION;
use crate::bodies::answer_fault::AnswerFault;
use crate::bodies::spoken::Spoken;
use crate::frame::number_in;
use dsn_outcome::{Replied, Reply, ShortText};

/// The length of an answer's body without a serial, in bytes.
const BODY: usize = 10;

/// The length of an answer's body with a serial, in bytes.
const SERIAL_BODY: usize = 18;

/// The kind byte of a reply about a notice.
const SEALED: u8 = 7;

/// The kind byte of a refusal.
const REFUSED: u8 = 10;

/// The highest kind byte.
const LAST: u8 = 13;

/// The frame of the answer to the frame at this place. It has a length of 10 and a body of 10
/// bytes; with a serial, a length of 18 and a body of 18 bytes.
#[tactic(auto, unfolding(crate::specs::bodies::Spoken::answer_bytes, crate::specs::bodies::Spoken::answer_body))]
pub fn encode_answer(number: u32, answer: &Spoken) -> ShortText
    ensures { result ≡ answer_bytes number answer.now }
{
    let mut frame = ShortText::new();
    match serial_of(*answer) {
        None => frame.push(&first_bytes(BODY as u8, number, *answer)),
        Some(serial) => {
            frame.push(&first_bytes(SERIAL_BODY as u8, number, *answer));
            frame.push(&serial.to_be_bytes());
        }
    }
    frame
}

/// A length in four bytes, and the ten bytes that each answer's body begins with.
fn first_bytes(length: u8, number: u32, answer: Spoken) -> [u8; 14]
    ensures { result ≡ 0 ∷ 0 ∷ 0 ∷ length ∷ 1 ∷ spoken_kind answer
        ∷ (to_be_bytes w32 number ++ to_be_bytes w32 (spoken_value answer)) }
{
    let (kind, value) = fields_of(answer);
    let [n0, n1, n2, n3] = number.to_be_bytes();
    let [v0, v1, v2, v3] = value.to_be_bytes();
    [
        0, 0, 0, length, VERSION, kind, n0, n1, n2, n3, v0, v1, v2, v3,
    ]
}

/// The place of the frame that is answered, and the answer. Returns the first fault in the order of
/// `AnswerFault`'s variants. Allocates no memory.
#[tactic(auto, unfolding(crate::specs::bodies::Spoken::first_answer_fault, crate::specs::bodies::Spoken::answer_body))]
pub fn decode_answer(bytes: &[u8]) -> Result<(u32, Spoken), AnswerFault>
    ensures encoded { IfOk result (λ read. bytes.now ≡ answer_body read.0 read.1) }
    ensures fits { IfOk result (λ read. FitsAnswer read.0 read.1) }
    ensures exact { (number : ℕ) (said : Spoken) → FitsAnswer number said
        → bytes.now ≡ answer_body number said → result ≡ Ok (number, said) }
    ensures accepted { OnOk result (first_answer_fault bytes.now ≡ None) }
    ensures refused { IfErr result (λ fault. first_answer_fault bytes.now ≡ Some fault) }
{
    if bytes.first().is_some_and(|version| *version != VERSION) {
        return Err(AnswerFault::Version);
    }
    if bytes.get(1).is_some_and(|kind| *kind < 1 || LAST < *kind) {
        return Err(AnswerFault::Kind);
    }
    let [_, kind, n0, n1, n2, n3, v0, v1, v2, v3, rest @ ..] = bytes else {
        return Err(AnswerFault::Short);
    };
    if !is_without_rest(bytes) {
        return Err(AnswerFault::Extra);
    }
    let number = number_in([*n0, *n1, *n2, *n3]);
    let value = number_in([*v0, *v1, *v2, *v3]);
    let answer = answer_from(*kind, value, serial_in(rest)).ok_or(AnswerFault::Value)?;
    Ok((number, answer))
}

/// Whether no byte follows an answer's body: it has at most 10 bytes, or 18 if it is about a
/// notice.
fn is_without_rest(bytes: &[u8]) -> bool
    ensures { result ≡ is_without_rest bytes.now }
{
    bytes.len() <= BODY
        || bytes.len() == SERIAL_BODY && bytes.get(1).is_some_and(|kind| *kind == SEALED)
}

/// The kind byte and the value of an answer.
fn fields_of(answer: Spoken) -> (u8, u32)
    ensures kind { result.0 ≡ spoken_kind answer }
    ensures value { result.1 ≡ spoken_value answer }
{
    match answer {
        Spoken::Reply(replied) => reply_fields(replied.reply),
        Spoken::Refused(code) => (REFUSED, code),
    }
}

/// The serial of an answer, if it has one.
///
/// The serial is the only part of a notice's Message-ID that an agent with its own log doesn't
/// know.
fn serial_of(answer: Spoken) -> Option<u64>
    ensures { result ≡ spoken_serial answer }
{
    match answer {
        Spoken::Reply(replied) => replied.serial,
        Spoken::Refused(_) => None,
    }
}

/// The kind byte and the value of a reply.
fn reply_fields(reply: Reply) -> (u8, u32)
    ensures kind { result.0 ≡ reply_kind reply }
    ensures value { result.1 ≡ reply_value reply }
{
    match reply {
        Reply::Logged(place) => (1, place),
        Reply::Closed => (2, 0),
        Reply::TableFull => (3, 0),
        Reply::LogFull => (4, 0),
        Reply::Nothing => (5, 0),
        Reply::NoReturn(count) => (6, count),
        Reply::Sealed(count) => (SEALED, count),
        Reply::Discarded(count) => (8, count),
        Reply::Gone => (9, 0),
        Reply::Forgotten => (11, 0),
        Reply::NotClosed => (12, 0),
        Reply::Differs(count) => (13, count),
    }
}

/// The answer with this kind byte, value and serial. Returns `None` if the kind's reply has no
/// value and this one isn't 0.
fn answer_from(kind: u8, value: u32, serial: Option<u64>) -> Option<Spoken>
    requires low { 1 ≤ kind }
    requires high { kind ≤ LAST }
    requires sealed { IfSome serial (λ _. kind ≡ sealed_kind) }
    ensures kind { IfSome result (λ said. spoken_kind said ≡ kind) }
    ensures value { IfSome result (λ said. spoken_value said ≡ value) }
    ensures serial { IfSome result (λ said. spoken_serial said ≡ serial) }
    ensures without { result ≡ None → is_without_value kind ≡ true }
    ensures some { result ≡ None → value ≢ 0 }
{
    let reply = match kind {
        1 => Reply::Logged(value),
        6 => Reply::NoReturn(value),
        SEALED => Reply::Sealed(value),
        8 => Reply::Discarded(value),
        13 => Reply::Differs(value),
        REFUSED => return Some(Spoken::Refused(value)),
        _ if value != 0 => return None,
        2 => Reply::Closed,
        3 => Reply::TableFull,
        4 => Reply::LogFull,
        5 => Reply::Nothing,
        9 => Reply::Gone,
        11 => Reply::Forgotten,
        _ => Reply::NotClosed,
    };
    Some(Spoken::Reply(Replied { reply, serial }))
}

/// The serial in eight bytes, highest byte first, or `None` if there are no bytes.
fn serial_in(bytes: &[u8]) -> Option<u64>
    requires { (bytes.now ≡ []) ⊎ (length bytes.now ≡ 8) }
    ensures { bytes.now ≡ serial_bytes result }
{
    match bytes {
        [a, b, c, d, e, f, g, h] => Some(u64::from_be_bytes([*a, *b, *c, *d, *e, *f, *g, *h])),
        _ => None,
    }
}
