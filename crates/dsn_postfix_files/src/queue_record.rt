//! One record of a queue file.
//! Implements docs/postfix-internals.md, "Postfix's queue files".
ghost use Rattle.std.specs.Prelude.{◌≡◌, ◌-◌, ◌≤◌};
ghost use Rattle.std.specs.Option.{option_map};
ghost use Rattle.dsn_postfix_files.specs.QueueRecord.{length_at, longest_length, queue_record_at, queued_bytes_in};

/// A record of a queue file.
#[derive(Clone, Copy, Debug)]
pub struct QueueRecord<'a> {
    /// The letter of its type, such as `R` for a recipient.
    pub kind: u8,
    /// Its bytes.
    pub bytes: &'a [u8],
}

/// The seven bits of a byte of a length that isn't its last one. Requires that the byte is at least
/// 128.
fn low_bits(byte: u8) -> u64
    requires { 128 ≤ byte }
    ensures { result ≡ byte - 128 }
{
    u64::from(byte - 128)
}

/// Returns the length at the front of some bytes, and the bytes after it. Returns `None` if it is
/// cut short or has more than five bytes.
fn length_at(bytes: &[u8]) -> Option<(u64, &[u8])>
    ensures { option_map (λ read. (read.0, read.1.now)) result ≡ length_at longest_length bytes.now }
{
    match bytes {
        [a, rest @ ..] if *a < 128 => Some((u64::from(*a), rest)),
        [a, b, rest @ ..] if *b < 128 => Some((low_bits(*a) + 128 * u64::from(*b), rest)),
        [a, b, c, rest @ ..] if *c < 128 => {
            let length = low_bits(*a) + 128 * (low_bits(*b) + 128 * u64::from(*c));
            Some((length, rest))
        }
        [a, b, c, d, rest @ ..] if *d < 128 => {
            let high = low_bits(*c) + 128 * u64::from(*d);
            Some((low_bits(*a) + 128 * (low_bits(*b) + 128 * high), rest))
        }
        [a, b, c, d, e, rest @ ..] if *e < 128 => {
            let high = low_bits(*c) + 128 * (low_bits(*d) + 128 * u64::from(*e));
            Some((low_bits(*a) + 128 * (low_bits(*b) + 128 * high), rest))
        }
        _ => None,
    }
}

impl<'a> QueueRecord<'a> {
    /// Returns the record at the front of some bytes, and the bytes after it. Returns `None` if the
    /// record is cut short or its length has more than five bytes.
    pub fn read(bytes: &'a [u8]) -> Option<(QueueRecord<'a>, &'a [u8])>
        ensures { option_map (λ read. (queued_bytes_in read.0, read.1.now)) result
            ≡ queue_record_at bytes.now }
    {
        let [kind, rest @ ..] = bytes else {
            return None;
        };
        let (length, rest) = length_at(rest)?;
        if (rest.len() as u64) < length {
            return None;
        }
        let (bytes, rest) = rest.split_at(length as usize);
        Some((QueueRecord { kind: *kind, bytes }, rest))
    }
}
