//! Blocks of 32 bytes, compared eight bytes at a time.
ghost use Rattle.std.specs.Prelude.{◌≡◌, ◌*◌, ◌<◌, take, drop};
ghost use Rattle.std.specs.Cmp.Lexicographic.{slice_cmp};
ghost use Rattle.std.specs.Ordering.{nat_cmp};
ghost use Rattle.std.specs.Slice.Scan.{big_endian};

use std::cmp::Ordering;

/// The order of two blocks by their bytes. It compares words of eight bytes, which have the same
/// order.
///
/// A queue id in a block has no zero byte and is followed by zeros, so this is also the order of
/// queue ids.
pub(crate) fn compare(left: &[u8; 32], right: &[u8; 32]) -> Ordering
    ensures { result ≡ slice_cmp nat_cmp left.now right.now }
{
    for number in 0..4 {
        let order = word(left, number).cmp(&word(right, number));
        if order.is_ne() {
            return order;
        }
    }
    Ordering::Equal
}

/// One of a block's four words, with the first byte as the most significant one. Requires that the
/// number is below 4.
fn word(block: &[u8; 32], number: usize) -> u64
    requires { number < 4 }
    ensures { result ≡ big_endian 0 (take 8 (drop (number * 8) block.now)) }
{
    let at = number * 8;
    u64::from_be_bytes([
        block[at],
        block[at + 1],
        block[at + 2],
        block[at + 3],
        block[at + 4],
        block[at + 5],
        block[at + 6],
        block[at + 7],
    ])
}
