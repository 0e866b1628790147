//! Writes attributes at the end of a text.
//! Implements docs/postfix-internals.md, "What Postfix's programs send".
ghost use Rattle.std.specs.Prelude.{◌≡◌, ◌<◌, ◌++◌, [], ◌∷◌, OnOk};
ghost use Rattle.dsn_postfix.specs.Attribute.{attribute_bytes, number_attribute, offset_limit, text_attribute, zero_ended};

use dsn_text::{NoMemory, ShortText};

/// Adds a text and the zero that ends it.
fn push_zero_ended(out: &mut Vec<u8>, text: &[u8]) -> Result<(), NoMemory>
    ensures { OnOk result (out.new.items ≡ out.old.items ++ zero_ended text.now) }
{
    push_bytes(out, text)?;
    push_bytes(out, &[0])
}

fn push_bytes(out: &mut Vec<u8>, bytes: &[u8]) -> Result<(), NoMemory>
    ensures { OnOk result (out.new.items ≡ out.old.items ++ bytes.now) }
{
    out.extend_from_slice(bytes).map_err(|_| NoMemory)
}

/// Adds an attribute whose value is a text.
#[tactic(auto, unfolding(crate::specs::Attribute::attribute_bytes))]
pub(crate) fn push_text(out: &mut Vec<u8>, name: &[u8], value: &[u8]) -> Result<(), NoMemory>
    ensures { OnOk result
        (out.new.items ≡ out.old.items ++ attribute_bytes (text_attribute name.now value.now)) }
{
    push_zero_ended(out, name)?;
    push_zero_ended(out, value)
}

/// Adds an attribute whose value is a number.
pub(crate) fn push_number(out: &mut Vec<u8>, name: &[u8], value: u64) -> Result<(), NoMemory>
    ensures added { OnOk result
        (out.new.items ≡ out.old.items ++ attribute_bytes (number_attribute name.now value)) }
    ensures bounded { value < offset_limit }
{
    let mut text = ShortText::new();
    text.push_number(value);
    push_text(out, name, text.bytes())
}

/// Adds the end of a list.
pub(crate) fn push_end(out: &mut Vec<u8>) -> Result<(), NoMemory>
    ensures { OnOk result (out.new.items ≡ out.old.items ++ 0 ∷ []) }
{
    push_bytes(out, &[0])
}
