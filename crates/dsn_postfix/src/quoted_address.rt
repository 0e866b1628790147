//! Which addresses a log file can have as they are.
//! Implements RFC 5321 section 4.1.2 and docs/postfix-internals.md, "The record that an append
//! becomes".
ghost use Rattle.std.specs.Prelude.{◌≡◌, ◌+◌, length};
ghost use Rattle.std.specs.List.{list_all, suffix_len};
ghost use Rattle.dsn_postfix.specs.VerpPath.{domain_part};
ghost use Rattle.dsn_postfix.specs.QuotedAddress.{is_dot_string, is_no_at, local_part, needs_no_quotes, no_dots_meet, stands_unquoted};

/// The index of the domain of an address, after its last `@`, or 0 if it has no `@`.
fn domain_place(address: &[u8]) -> usize
    ensures place { result + suffix_len is_no_at address.now ≡ length address.now }
{
    let mut len = address.len();
    while len > 0 && address[len - 1] != b'@' {
        len -= 1;
    }
    len
}

/// The domain of an address: the part after its last `@`, or empty if it has no `@`.
pub(crate) fn domain_part(address: &[u8]) -> &[u8]
    ensures { result.now ≡ domain_part address.now }
{
    let place = domain_place(address);
    if place == 0 {
        return b"";
    }
    &address[place..]
}

/// The local part of an address: the part before its last `@`, or the whole if it has no `@`.
pub(crate) fn local_part(address: &[u8]) -> &[u8]
    ensures { result.now ≡ local_part address.now }
{
    let len = domain_place(address);
    if len == 0 {
        address
    } else {
        &address[..len - 1]
    }
}

/// Whether a byte can be in a local part without quotes around it.
fn stands_unquoted(byte: u8) -> bool
    ensures { result ≡ stands_unquoted byte }
{
    !matches!(
        byte,
        0..=32
            | 127
            | b'('
            | b')'
            | b'<'
            | b'>'
            | b'@'
            | b','
            | b';'
            | b':'
            | b'\\'
            | b'"'
            | b'['
            | b']'
    )
}

/// Whether all bytes can be in a local part without quotes around it.
fn all_stand_unquoted(text: &[u8]) -> bool
    ensures { result ≡ list_all stands_unquoted text.now }
{
    let mut rest = text;
    while let [byte, after @ ..] = rest {
        if !stands_unquoted(*byte) {
            return false;
        }
        rest = after;
    }
    true
}

/// Whether a text isn't empty, and no dot in it is at an end or beside another.
fn no_dots_meet(text: &[u8]) -> bool
    ensures { result ≡ no_dots_meet 46 text.now }
{
    let mut before = b'.';
    let mut rest = text;
    while let [byte, after @ ..] = rest {
        if before == b'.' && *byte == b'.' {
            return false;
        }
        before = *byte;
        rest = after;
    }
    before != b'.'
}

/// Whether the local part of an address needs no quotes (RFC 5321 section 4.1.2).
#[tactic(auto, unfolding(crate::specs::QuotedAddress::needs_no_quotes))]
pub fn needs_no_quotes(address: &[u8]) -> bool
    ensures { result ≡ needs_no_quotes address.now }
{
    let text = local_part(address);
    all_stand_unquoted(text) && no_dots_meet(text)
}
