//! The room that a caller gives, and what is written into it.
ghost use Rattle.std.specs.Prelude.{◌≡◌, length};
ghost use Rattle.noticed_dsn.specs.Calls.{at_front};

/// Writes a text to the front of the room if it fits, and no fault. Returns its length.
pub(crate) fn give(text: &[u8], out: &mut [u8], fault: &mut u32) -> usize
    ensures length { result ≡ length text.now }
    ensures written { out.new ≡ at_front text.now out.old }
    ensures none { fault.new ≡ 0 }
{
    *fault = 0;
    if text.len() <= out.len() {
        out[..text.len()].copy_from_slice(text);
    }
    text.len()
}

/// Writes a fault's number. Returns 0.
pub(crate) fn refuse(code: u32, fault: &mut u32) -> usize
    ensures none { result ≡ 0 }
    ensures told { fault.new ≡ code }
{
    *fault = code;
    0
}
