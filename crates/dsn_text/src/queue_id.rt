//! The name of a message's queue file, which also identifies its log.
//! Implements noticed-protocol(5).
ghost use Rattle.std.specs.Prelude.{◌≡◌, ◌↔◌, ◌==◌, IsTrue, IsSome, IfSome};
ghost use Rattle.std.proofs.Common.{rules};
ghost use Rattle.std.specs.Cmp.{partial_order_from_own_ties};
ghost use Rattle.std.specs.Cmp.Rules.{comparing};
ghost use Rattle.std.specs.Cmp.Lexicographic.{pointwise, slice_cmp};
ghost use Rattle.std.specs.Ordering.{nat_cmp, as_partial_cmp};
ghost use Rattle.dsn_text.specs.Text.{IsQueueId};

use crate::block_order;
use crate::text::{Alphabet, has_form};
use std::cmp::Ordering;
use std::marker::Model;

/// The length limit of a queue id, in bytes.
pub const LONGEST_QUEUE_ID: usize = 32;

/// A queue id: 1 to 32 ASCII letters and digits, stored in place and compared as bytes.
#[derive(Clone, Copy, Debug)]
pub struct QueueId {
    buffer: [u8; 32],
    len: u8,
}

impl Model for QueueId {
    ghost use Rattle.std.specs.Prelude.{ℕ, List, ◌++◌, ◌-◌, take, length, replicate};
    ghost use Rattle.std.proofs.Common.{arith};
    ghost use Rattle.dsn_text.specs.Text.{IsQueueId, longest_queue_id};
    ghost use Rattle.dsn_text.specs.inner.Kept.{IsPadded};

    ghost Value = { List ℕ };

    ghost view = { λ q. take q.len q.buffer };

    ghost invariant = { λ q. IsQueueId (take q.len q.buffer)
        × IsPadded longest_queue_id q.buffer q.len };

    ghost inverse = { λ t. record {
      buffer = t ++ replicate (longest_queue_id - length t) 0;
      len = length t;
    } };

    ghost inverse_ok = { λ a h. Prim.grind arith };
}

impl QueueId {
    /// Whether a text is a valid queue id.
    pub fn is_valid(text: &[u8]) -> bool
        ensures { IsTrue result ↔ IsQueueId text.now }
    {
        has_form(text, 1, LONGEST_QUEUE_ID, Alphabet::LettersAndDigits)
    }

    /// Returns the queue id with this text, or `None` if the text isn't valid. It takes no memory.
    pub fn new(text: &[u8]) -> Option<QueueId>
        ensures some { IsSome result ↔ IsQueueId text.now }
        ensures kept { IfSome result (λ id. id ≡ text.now) }
    {
        if !QueueId::is_valid(text) {
            return None;
        }
        let mut buffer = [0; 32];
        buffer[..text.len()].copy_from_slice(text);
        Some(QueueId {
            buffer,
            len: text.len() as u8,
        })
    }

    /// The queue id.
    pub fn bytes(&self) -> &[u8]
        ensures same { result.now ≡ self.now }
        ensures legal { IsQueueId self.now }
    {
        &self.buffer[..self.len as usize]
    }
}

impl PartialEq for QueueId {
    ghost eq = { pointwise ◌==◌ };

    ghost laws = { Prim.search (comparing, rules) };

    #[tactic(auto, using(crate::proofs::BlockOrderLemmas::tied_where_equal))]
    fn eq(&self, other: &QueueId) -> bool {
        self.cmp(other).is_eq()
    }
}

impl Eq for QueueId {
    ghost laws = { Prim.search (comparing, rules) };
}

impl PartialOrd for QueueId {
    ghost partial_cmp = { as_partial_cmp (slice_cmp nat_cmp) };

    ghost laws = { partial_order_from_own_ties (Prim.search (comparing, rules))
        (Prim.search (comparing, rules)) };

    fn partial_cmp(&self, other: &QueueId) -> Option<Ordering> {
        Some(self.cmp(other))
    }
}

impl Ord for QueueId {
    ghost cmp = { slice_cmp nat_cmp };

    ghost total = { Prim.search (comparing, rules) };

    ghost matches_partial_cmp = { Prim.search (comparing, rules) };

    ghost matches_eq = { Prim.search (comparing, rules) };

    fn cmp(&self, other: &QueueId) -> Ordering {
        block_order::compare(&self.buffer, &other.buffer)
    }
}
