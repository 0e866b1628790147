//! Reads attributes from the front of some bytes, one after another.
//! Implements docs/postfix-internals.md, "What Postfix's programs send".
ghost use Rattle.std.specs.Prelude.{◌≡◌, true, codes, IfOk, IfErr, OnOk};
ghost use Rattle.dsn_text.specs.Text.{is_queue_id};
ghost use Rattle.dsn_postfix.specs.Attribute.{number_limit, offset_limit, zero_ended_at};
ghost use Rattle.dsn_postfix.specs.AttributeValues.{are_delimiters, is_queue_name};
ghost use Rattle.dsn_postfix.specs.RequestReading.{end_at, is_sendopts_next, tested_at, attribute_at, value_number_at};

use crate::attribute_text::AttributeText;
use crate::number::{number_in, short_number_in};
use crate::queue_name::QueueName;
use crate::request_fault::RequestFault;
use crate::verp_delimiters::VerpDelimiters;
use dsn_text::QueueId;
use std::marker::Model;

/// The bytes after the attributes that were read. It must not be used after a fault.
#[derive(Drop)]
pub(crate) struct AttributeReader<'a> {
    rest: &'a [u8],
}

impl<'a> Model for AttributeReader<'a> {
    ghost use Rattle.std.specs.Prelude.{ℕ, List};

    ghost Value = { List ℕ };

    ghost view = { λ r. r.rest.now };
}

impl<'a> AttributeReader<'a> {
    /// A reader of these bytes.
    pub(crate) fn new(bytes: &'a [u8]) -> AttributeReader<'a>
        ensures { result ≡ bytes.now }
    {
        AttributeReader { rest: bytes }
    }

    /// The text before the next zero. Returns `Unended` if there is no zero.
    fn zero_ended(&mut self) -> Result<AttributeText<'a>, RequestFault>
        ensures read { IfOk result (λ text. zero_ended_at self.old ≡ Some (text, self.new)) }
        ensures refused { IfErr result
            (λ fault. (fault ≡ RequestFault.Unended) × (zero_ended_at self.old ≡ None)) }
    {
        let Some(text) = AttributeText::before_zero(self.rest) else {
            return Err(RequestFault::Unended);
        };
        self.rest = &self.rest[text.bytes().len() + 1..];
        Ok(text)
    }

    /// The value of the next attribute, which must have this name. Returns `Missing` if the list
    /// ends here, `Name` if the attribute has another name, and `Unended` if the bytes end.
    #[tactic(auto, unfolding(crate::specs::RequestReading::attribute_at))]
    pub(crate) fn text(&mut self, name: &[u8]) -> Result<AttributeText<'a>, RequestFault>
        ensures read { IfOk result (λ text. attribute_at name.now self.old ≡ Ok (text, self.new)) }
        ensures refused { IfErr result (λ fault. attribute_at name.now self.old ≡ Err fault) }
    {
        let found = self.zero_ended()?;
        if found.bytes().is_empty() {
            return Err(RequestFault::Missing);
        }
        if found.bytes() != name {
            return Err(RequestFault::Name);
        }
        self.zero_ended()
    }

    /// Whether the next attribute is the send options with their newer name.
    #[tactic(auto, unfolding(crate::specs::RequestReading::is_sendopts_next))]
    pub(crate) fn is_sendopts_next(&self) -> bool
        ensures { result ≡ is_sendopts_next self.now }
    {
        self.rest.starts_with(b"sendopts\0")
    }

    /// The 32-bit number of the next attribute. Returns `Number` if the value isn't such a number,
    /// and the faults of [`text`](Self::text).
    #[tactic(auto, unfolding(crate::specs::RequestReading::value_number_at))]
    pub(crate) fn number(&mut self, name: &[u8]) -> Result<u32, RequestFault>
        ensures read { IfOk result
            (λ number. value_number_at number_limit name.now self.old ≡ Ok (number, self.new)) }
        ensures refused { IfErr result
            (λ fault. value_number_at number_limit name.now self.old ≡ Err fault) }
    {
        let value = self.text(name)?;
        short_number_in(value.bytes()).ok_or(RequestFault::Number)
    }

    /// The 64-bit number of the next attribute. Returns `Number` if the value isn't such a number,
    /// and the faults of [`text`](Self::text).
    #[tactic(auto, unfolding(crate::specs::RequestReading::value_number_at))]
    pub(crate) fn offset(&mut self, name: &[u8]) -> Result<u64, RequestFault>
        ensures read { IfOk result
            (λ number. value_number_at offset_limit name.now self.old ≡ Ok (number, self.new)) }
        ensures refused { IfErr result
            (λ fault. value_number_at offset_limit name.now self.old ≡ Err fault) }
    {
        let value = self.text(name)?;
        // local(8) sends -1 as 18446744073709551615 before it passes a message to another
        // transport.
        number_in(value.bytes()).ok_or(RequestFault::Number)
    }

    /// The queue id of the next attribute, `queue_id`. Returns `QueueId` if the value isn't a valid
    /// id.
    #[tactic(auto, unfolding(crate::specs::RequestReading::tested_at))]
    pub(crate) fn queue_id(&mut self) -> Result<QueueId, RequestFault>
        ensures read { IfOk result
            (λ id. tested_at is_queue_id RequestFault.QueueId (codes "queue_id") self.old
            ≡ Ok (id, self.new)) }
        ensures refused { IfErr result
            (λ fault. tested_at is_queue_id RequestFault.QueueId (codes "queue_id") self.old
            ≡ Err fault) }
    {
        let value = self.text(b"queue_id")?;
        // bounce(8) accepts up to 255 bytes and `_`. Postfix makes no longer id for a message than
        // this type allows, and without `/` or a dot no id leads out of the queue's folder.
        QueueId::new(value.bytes()).ok_or(RequestFault::QueueId)
    }

    /// The name of a queue in the next attribute, `queue_name`. Returns `QueueName` if the value
    /// isn't a valid name.
    #[tactic(auto, unfolding(crate::specs::RequestReading::tested_at))]
    pub(crate) fn queue_name(&mut self) -> Result<QueueName<'a>, RequestFault>
        ensures read { IfOk result
            (λ name. tested_at is_queue_name RequestFault.QueueName (codes "queue_name") self.old
            ≡ Ok (name, self.new)) }
        ensures refused { IfErr result
            (λ fault. tested_at is_queue_name RequestFault.QueueName (codes "queue_name") self.old
            ≡ Err fault) }
    {
        let value = self.text(b"queue_name")?;
        QueueName::new(value.bytes()).ok_or(RequestFault::QueueName)
    }

    /// The delimiters in the next attribute, `verp_delimiters`. Returns `Delimiters` if the value
    /// isn't two bytes.
    #[tactic(auto, unfolding(crate::specs::RequestReading::tested_at))]
    pub(crate) fn delimiters(&mut self) -> Result<VerpDelimiters<'a>, RequestFault>
        ensures read { IfOk result
            (λ text. tested_at are_delimiters RequestFault.Delimiters (codes "verp_delimiters") self.old
            ≡ Ok (text, self.new)) }
        ensures refused { IfErr result
            (λ fault. tested_at are_delimiters RequestFault.Delimiters (codes "verp_delimiters") self.old
            ≡ Err fault) }
    {
        let value = self.text(b"verp_delimiters")?;
        VerpDelimiters::new(value.bytes()).ok_or(RequestFault::Delimiters)
    }

    /// Tests that the list ends here, and the bytes with it. Returns `Unended`, `Trailing` or
    /// `Extra` otherwise.
    pub(crate) fn end(&self) -> Result<(), RequestFault>
        ensures ended { OnOk result (end_at self.now ≡ Ok true) }
        ensures refused { IfErr result (λ fault. end_at self.now ≡ Err fault) }
    {
        match self.rest {
            [] => Err(RequestFault::Unended),
            [0] => Ok(()),
            [0, ..] => Err(RequestFault::Trailing),
            _ => Err(RequestFault::Extra),
        }
    }
}
