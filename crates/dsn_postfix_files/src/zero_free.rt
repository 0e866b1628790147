//! Texts without a zero byte.
ghost use Rattle.std.specs.Prelude.{◌≡◌};
ghost use Rattle.dsn_postfix_files.specs.ZeroFree.{is_zero_free};

/// Whether no byte is zero. Neither a line of a log nor a text that Postfix's programs send one
/// another may have a zero byte.
pub fn is_zero_free(bytes: &[u8]) -> bool
    ensures { result ≡ is_zero_free bytes.now }
{
    let mut all = true;
    for byte in bytes {
        all &= *byte != 0;
    }
    all
}
