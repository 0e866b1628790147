//! The text that names the folders in which a hashed queue keeps a message's file.
//! Implements docs/postfix-internals.md, "Files".
ghost use Rattle.std.specs.Prelude.{◌≡◌, ◌==◌, ◌<◌, get_or, length, true, IfSome};
ghost use Rattle.std.specs.List.{position_or_len};
ghost use Rattle.dsn_postfix_queue.specs.queue_folder.HashedId.{before_inode, folder_level, hexadecimal_digit, is_long, long_digit, long_number, microsecond_digits, number_or_zero, six_digits};

use dsn_smtp::after_last_byte;

/// The digits of the numbers in a long queue id. No vowel is a digit.
const DIGITS: &[u8] = b"0123456789BCDFGHJKLMNPQRSTVWXYZbcdfghjklmnpqrstvwxyz";

/// The least number that has six hexadecimal digits.
const SIX_DIGITS: u32 = 1_048_576;

/// The name of the folder at a level, from 0.
pub(super) fn folder_level(id: &[u8], level: usize) -> u8
    ensures { result ≡ folder_level id.now level }
{
    if !is_long(id) {
        return byte_at(id, level);
    }
    let number = number_of(microsecond_digits(id)).unwrap_or(0);
    let digits = six_digits(number);
    if number < SIX_DIGITS {
        byte_at(&digits[1..], level)
    } else {
        byte_at(&digits, level)
    }
}

/// A byte of a text, or `_` after its end.
fn byte_at(text: &[u8], place: usize) -> u8
    ensures { result ≡ get_or text.now place 95 }
{
    if place < text.len() {
        text[place]
    } else {
        b'_'
    }
}

/// How many bytes there are up to the last `z`, including it.
fn bytes_before_inode(id: &[u8]) -> usize
    ensures { result ≡ length (before_inode id.now) }
{
    id.len() - after_last_byte(id, b'z').len()
}

/// Whether a queue id is long.
fn is_long(id: &[u8]) -> bool
    ensures { result ≡ is_long id.now }
{
    bytes_before_inode(id) > 10
}

/// The digits of a long queue id's microseconds.
fn microsecond_digits(id: &[u8]) -> &[u8]
    requires { is_long id.now ≡ true }
    ensures { result.now ≡ microsecond_digits id.now }
{
    let end = bytes_before_inode(id) - 1;
    &id[end - 4..end]
}

/// The index of the first byte that is `sought`, or the length of a text without such a byte.
fn first_place(text: &[u8], sought: u8) -> usize
    ensures { result ≡ position_or_len (λ byte. byte == sought) text.now }
{
    text.iter()
        .position(|&byte| byte == sought)
        .unwrap_or(text.len())
}

/// The value of a digit of a long queue id. Returns `None` for another byte.
fn digit_of(byte: u8) -> Option<u32>
    ensures digit { result ≡ long_digit byte }
    ensures bound { IfSome result (λ digit. digit < 52) }
{
    let place = first_place(DIGITS, byte);
    if place < 52 { Some(place as u32) } else { None }
}

/// The number that four digits write in base 52. Returns `None` for another text.
fn number_of(digits: &[u8]) -> Option<u32>
    ensures { result ≡ long_number digits.now }
{
    let [first, second, third, fourth] = digits else {
        return None;
    };
    let (first, second) = (digit_of(*first)?, digit_of(*second)?);
    let (third, fourth) = (digit_of(*third)?, digit_of(*fourth)?);
    Some(((first * 52 + second) * 52 + third) * 52 + fourth)
}

/// A hexadecimal digit.
fn hexadecimal_digit(digit: u32) -> u8
    requires { digit < 16 }
    ensures { result ≡ hexadecimal_digit digit }
{
    if digit < 10 {
        b'0' + digit as u8
    } else {
        b'A' + (digit - 10) as u8
    }
}

/// The last six hexadecimal digits of a number.
fn six_digits(number: u32) -> [u8; 6]
    ensures { result ≡ six_digits number }
{
    [
        hexadecimal_digit(number / 1_048_576 % 16),
        hexadecimal_digit(number / 65_536 % 16),
        hexadecimal_digit(number / 4_096 % 16),
        hexadecimal_digit(number / 256 % 16),
        hexadecimal_digit(number / 16 % 16),
        hexadecimal_digit(number % 16),
    ]
}
