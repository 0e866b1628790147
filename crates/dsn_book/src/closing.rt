//! The order in which keys were closed. A closing that no longer counts stays in the order, without
//! its key, until there are too many of these. So a release neither searches nor moves the others.
ghost use Rattle.std.specs.Prelude.{◌≡◌, ◌<◌, ◌≤◌, true, [], ◌∷◌, ◌++◌, None, Some, length, is_some, not, IfNone, IfSome};
ghost use Rattle.std.specs.List.{HoldsAt, IsDistinct};
ghost use Rattle.std.specs.VecDeque.{deque_capacity, deque_len};
ghost use Rattle.dsn_book.specs.Closing.{keys_closed};
ghost use Rattle.dsn_book.specs.inner.Closing.{has_key};
ghost use Rattle.dsn_outcome.specs.History.{let_go};
ghost use Rattle.dsn_text.specs.Key.{same_key};

use dsn_outcome::Key;
use std::collections::VecDeque;
use std::marker::Model;

/// A closing of a key's log.
#[derive(Drop)]
pub struct Closing {
    /// Later closings have greater numbers. No contract speaks of it: it only tells a search where
    /// to begin.
    number: u64,
    /// The key, or `None` once it was released.
    key: Option<Key>,
}

impl Model for Closing {
    ghost use Rattle.std.specs.Prelude.{Option};
    ghost use Rattle.dsn_text.specs.declared.key.Key.{Key};

    ghost Value = { Option Key };

    ghost view = { λ c. c.key };
}

impl Closing {
    /// The key, or `None` once it was released.
    pub fn key(&self) -> Option<Key>
        ensures { result ≡ self.now }
    {
        self.key
    }

    /// Releases the key.
    fn release(&mut self)
        ensures { self.new ≡ None }
    {
        self.key = None;
    }

    /// Whether this key was closed, and not released.
    fn is_of(&self, key: &Key) -> bool
        ensures { result ≡ has_key key.now self.now }
    {
        match self.key {
            Some(own) => *key == own,
            None => false,
        }
    }
}

/// Puts a key last, if there is room for more keys.
pub(crate) fn push(closings: &mut VecDeque<Closing>, key: Key, number: u64)
    ensures keys { length (keys_closed closings.old.items) < deque_capacity closings.old
        → keys_closed closings.new.items ≡ keys_closed closings.old.items ++ key ∷ [] }
    ensures capacity { deque_capacity closings.old ≤ deque_capacity closings.new }
{
    make_room(closings);
    let key = Some(key);
    let _ = closings.push_back(Closing { number, key });
}

/// Drops the closings whose keys were released, if there is no room for another one. There is room
/// for twice as many closings as keys, so each of these passes follows as many pushes as it keeps
/// closings.
fn make_room(closings: &mut VecDeque<Closing>)
    ensures keys { keys_closed closings.new.items ≡ keys_closed closings.old.items }
    ensures room { length (keys_closed closings.old.items) < deque_capacity closings.old
        → deque_len closings.new < deque_capacity closings.new }
    ensures capacity { deque_capacity closings.new ≡ deque_capacity closings.old }
{
    if closings.len() == closings.capacity() {
        closings.retain(|closing| closing.key().is_some());
    }
}

/// Removes and returns the key that was closed longest ago.
pub(crate) fn pop_oldest(closings: &mut VecDeque<Closing>) -> Option<Key>
    ensures none { IfNone result ((keys_closed closings.old.items ≡ [])
        × (keys_closed closings.new.items ≡ [])) }
    ensures first { IfSome result
        (λ key. keys_closed closings.old.items ≡ key ∷ keys_closed closings.new.items) }
    ensures capacity { deque_capacity closings.new ≡ deque_capacity closings.old }
{
    while let Some(closing) = closings.pop_front() {
        if let Some(key) = closing.key() {
            return Some(key);
        }
    }
    None
}

/// Removes a key. It is found at once by the number of its closing, and otherwise by a search among
/// all closings.
pub(crate) fn release(closings: &mut VecDeque<Closing>, key: Key, number: u64)
    ensures keys { IsDistinct same_key (keys_closed closings.old.items)
        → keys_closed closings.new.items ≡ let_go key (keys_closed closings.old.items) }
    ensures capacity { deque_capacity closings.new ≡ deque_capacity closings.old }
{
    let at = closings.partition_point(|closing| closing.number < number);
    if is_at(closings, at, &key) {
        closings[at].release();
    } else {
        // The number says no more than where to look. What is released is what has the key.
        closings.retain(|closing| !closing.is_of(&key));
    }
}

/// Whether the closing at this place is one of this key.
fn is_at(closings: &VecDeque<Closing>, at: usize, key: &Key) -> bool
    ensures inside { result ≡ true → at < deque_len closings.now }
    ensures here { result ≡ true → HoldsAt (λ closing. closing ≡ Some key.now)
        closings.now.items at }
{
    match closings.get(at) {
        Some(closing) => closing.is_of(key),
        None => false,
    }
}
