//! A queue of letters that are joined by their own links.
ghost use Rattle.std.specs.Prelude.{◌≡◌, ◌==◌, [], ◌∷◌, ◌++◌, length, min, IfNone, IfSome};
ghost use Rattle.dsn_outcome.specs.Letter.{most_counted};

use crate::letter::Letter;
use crate::letter_cells::LetterCells;
use std::marker::Model;

/// A queue of letters, first in, first out. Pushed letters are linked last first, and reversed when
/// they are needed. So `push` and `pop` take no memory, and constant time on average.
#[derive(Drop)]
pub struct Letters {
    front: LetterCells,
    back: LetterCells,
}

impl Model for Letters {
    ghost use Rattle.std.specs.Prelude.{List, ◌++◌, reverse};
    ghost use Rattle.dsn_outcome.specs.Letter.{Letter};

    ghost Value = { List Letter };

    ghost view = { λ l. l.front ++ reverse l.back };
}

impl Letters {
    /// An empty queue.
    pub fn new() -> Self
        ensures { result ≡ [] }
    {
        Letters {
            front: LetterCells::new(),
            back: LetterCells::new(),
        }
    }

    /// Puts a letter at the end.
    pub fn push(&mut self, letter: Letter)
        ensures { self.new ≡ self.old ++ letter ∷ [] }
    {
        self.back.push_front(letter);
    }

    /// Removes and returns the first letter, if there is one.
    pub fn pop(&mut self) -> Option<Letter>
        ensures none { IfNone result ((self.old ≡ []) × (self.new ≡ [])) }
        ensures first { IfSome result (λ letter. self.old ≡ letter ∷ self.new) }
    {
        if self.front.is_empty() {
            self.front.take_reversed(&mut self.back);
        }
        self.front.pop_front()
    }

    /// The number of letters, capped at 2^64 - 1. It walks over them.
    pub fn len(&self) -> u64
        ensures { result ≡ min (length self.now) most_counted }
    {
        self.front.len().saturating_add(self.back.len())
    }

    /// Whether the queue is empty.
    pub fn is_empty(&self) -> bool
        ensures { result ≡ (length self.now == 0) }
    {
        self.front.is_empty() && self.back.is_empty()
    }
}
