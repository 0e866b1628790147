//! The name and the serial of a letter, and the boundaries that begin with its name.
//! Implements noticed-notice(5).
ghost use Rattle.std.specs.Prelude.{◌≡◌, ◌+◌, ◌<◌, ◌≤◌, IsTrue, decimal, length};
ghost use Rattle.std.specs.List.{list_all};
ghost use Rattle.dsn_report.specs.Boundary.{letter_name, boundary_front, boundary_numbers, boundary_text};
ghost use Rattle.dsn_report.specs.inner.Boundary.{is_delimiter_byte, longest_letter_name};

use dsn_outcome::{Letter, ShortText};

/// The length of a boundary's number in bytes. The boundary ends with it.
pub(crate) const NUMBER_LEN: usize = 4;

/// The letter's name: the letter of its service, its queue id and its moment.
fn letter_name(letter: &Letter) -> ShortText
    ensures name { result ≡ letter_name letter.now }
    ensures short { length result ≤ longest_letter_name }
    ensures plain { IsTrue (list_all is_delimiter_byte result) }
{
    let key = letter.key();
    let mut name = ShortText::new();
    name.push(&[key.service.letter()]);
    name.push(b".");
    name.push(key.id.bytes());
    name.push(b".");
    name.push_number(letter.moment().seconds());
    name
}

/// The letter's serial in decimal.
pub(crate) fn serial_text(letter: &Letter) -> ShortText
    ensures { result ≡ decimal letter.now.serial }
{
    let mut serial = ShortText::new();
    serial.push_number(letter.serial());
    serial
}

/// The text that each of the letter's boundaries begins with, before its number.
pub(crate) fn boundary_front(letter: &Letter) -> ShortText
    ensures front { result ≡ boundary_front letter.now }
    ensures short { length result ≤ longest_letter_name + 1 }
    ensures plain { IsTrue (list_all is_delimiter_byte result) }
{
    let mut front = letter_name(letter);
    front.push(b".");
    front
}

/// The letter's boundary with this number. Requires that the number has at most four digits.
#[tactic(auto, unfolding(crate::specs::Boundary::boundary_text))]
pub(crate) fn boundary_text(letter: &Letter, number: u16) -> ShortText
    requires { number < boundary_numbers }
    ensures { result ≡ boundary_text letter.now number }
{
    let mut boundary = boundary_front(letter);
    boundary.push(&[
        digit(number / 1000),
        digit(number / 100 % 10),
        digit(number / 10 % 10),
        digit(number % 10),
    ]);
    boundary
}

/// The digit for a number. Requires that the number is below ten.
fn digit(n: u16) -> u8
    requires { n < 10 }
    ensures { result ≡ 48 + n }
{
    b'0' + n as u8
}
