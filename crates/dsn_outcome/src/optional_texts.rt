//! Texts that may be missing. An empty text means a missing one.
ghost use Rattle.std.specs.Prelude.{◌≡◌, ◌↔◌, IsTrue, IfOk};
ghost use Rattle.std.specs.Option.{option_copied};
ghost use Rattle.dsn_text.specs.Optional.{unless_empty, is_none_or};
ghost use Rattle.dsn_text.specs.Text.{is_address, is_envelope_id, is_mta_name, is_type_name};
ghost use Rattle.dsn_outcome.specs.Outcome.{is_type_of};

use dsn_text::{Address, EnvelopeId, MtaName, NoMemory, is_type_name};
use std::alloc::Global;

/// Whether a text is empty or a valid address.
pub(crate) fn is_optional_address(text: &[u8]) -> bool
    ensures { IsTrue result ↔ IsTrue (is_none_or is_address (unless_empty text.now)) }
{
    text.is_empty() || Address::is_valid(text)
}

/// Whether a text is empty or a valid name of a remote system.
pub(crate) fn is_optional_mta_name(text: &[u8]) -> bool
    ensures { IsTrue result ↔ IsTrue (is_none_or is_mta_name (unless_empty text.now)) }
{
    text.is_empty() || MtaName::is_valid(text)
}

/// Whether a text is empty or a valid type name.
pub(crate) fn is_optional_type_name(text: &[u8]) -> bool
    ensures { IsTrue result ↔ IsTrue (is_none_or is_type_name (unless_empty text.now)) }
{
    text.is_empty() || is_type_name(text)
}

/// Whether a type can be that of a text: the type is empty, or it is a valid type name and the text
/// is not empty.
///
/// A type without its text is refused instead of ignored, since its sender has probably lost a
/// text.
pub(crate) fn is_type_of(text: &[u8], name: &[u8]) -> bool
    ensures { IsTrue result ↔ IsTrue (is_type_of text.now name.now) }
{
    name.is_empty() || (is_type_name(name) && !text.is_empty())
}

/// Whether a text is empty or a valid envelope id.
pub(crate) fn is_optional_envelope_id(text: &[u8]) -> bool
    ensures { IsTrue result ↔ IsTrue (is_none_or is_envelope_id (unless_empty text.now)) }
{
    text.is_empty() || EnvelopeId::is_valid(text)
}

/// Returns the address, or `None` for an empty text. Requires that the text is empty or a valid
/// address. Returns `NoMemory` only if memory was refused.
pub(crate) fn optional_address(alloc: Global, text: &[u8]) -> Result<Option<Address>, NoMemory>
    requires { IsTrue (is_none_or is_address (unless_empty text.now)) }
    ensures { IfOk result (λ address. address ≡ unless_empty text.now) }
{
    if text.is_empty() {
        return Ok(None);
    }
    Ok(Some(Address::kept(alloc, text)?))
}

/// Returns the envelope id, or `None` for an empty text. Requires that the text is empty or a valid
/// envelope id. Returns `NoMemory` only if memory was refused.
pub(crate) fn optional_envelope_id(
    alloc: Global,
    text: &[u8],
) -> Result<Option<EnvelopeId>, NoMemory>
    requires { IsTrue (is_none_or is_envelope_id (unless_empty text.now)) }
    ensures { IfOk result (λ id. id ≡ unless_empty text.now) }
{
    if text.is_empty() {
        return Ok(None);
    }
    Ok(Some(EnvelopeId::kept(alloc, text)?))
}

/// Returns the text, or `None` if it is empty. A text of spaces alone isn't empty.
pub(crate) fn unless_empty(text: &[u8]) -> Option<&[u8]>
    ensures { option_copied result ≡ unless_empty text.now }
{
    if text.is_empty() {
        return None;
    }
    Some(text)
}
