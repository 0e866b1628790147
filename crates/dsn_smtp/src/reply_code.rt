//! The code of a reply.
//! Implements RFC 5321 section 4.2.
ghost use Rattle.std.specs.Prelude.{◌≡◌, ◌↔◌, ◌∷◌, [], IsTrue, IsSome, IfSome};
ghost use Rattle.dsn_smtp.specs.ReplyCode.{IsReplyCode, class_of, is_reply_code};

use crate::reply_class::ReplyClass;
use std::marker::Model;

/// The code of a reply: three ASCII digits, the first 2 to 5, the second 0 to 5, the third 0 to 9
/// (RFC 5321 section 4.2).
#[derive(Clone, Copy, Debug, PartialEq, Eq)]
pub struct ReplyCode {
    digits: [u8; 3],
}

impl Model for ReplyCode {
    ghost use Rattle.std.specs.Prelude.{ℕ, List};
    ghost use Rattle.dsn_smtp.specs.ReplyCode.{IsReplyCode};

    ghost Value = { List ℕ };

    ghost view = { λ c. c.digits };

    ghost invariant = { λ c. IsReplyCode c.digits };

    ghost inverse = { λ digits. record { digits = digits } };
}

impl ReplyCode {
    /// The code of these three bytes. Returns `None` if they are not a valid code.
    pub fn new(digits: [u8; 3]) -> Option<ReplyCode>
        ensures some { IsSome result ↔ IsReplyCode digits }
        ensures kept { IfSome result (λ code. code ≡ digits) }
    {
        if !is_code(digits) {
            return None;
        }
        Some(ReplyCode { digits })
    }

    /// The three digits, in ASCII.
    pub fn digits(self) -> [u8; 3]
        ensures same { result ≡ self }
        ensures legal { IsReplyCode self }
    {
        self.digits
    }

    /// The class of the code, by its first digit.
    pub fn class(self) -> ReplyClass
        ensures { result ≡ class_of self }
    {
        match self.digits {
            [b'2', _, _] => ReplyClass::Positive,
            [b'3', _, _] => ReplyClass::Intermediate,
            [b'4', _, _] => ReplyClass::RefusedForNow,
            _ => ReplyClass::RefusedForGood,
        }
    }
}

fn is_code(digits: [u8; 3]) -> bool
    ensures { result ≡ is_reply_code digits }
{
    let [first, second, third] = digits;
    matches!(first, b'2'..=b'5') && matches!(second, b'0'..=b'5') && third.is_ascii_digit()
}
