//! A list of letters that are joined by their own links, in one direction.
ghost use Rattle.std.specs.Prelude.{◌≡◌, ◌==◌, [], ◌∷◌, ◌++◌, length, min, reverse, IfNone, IfSome};
ghost use Rattle.dsn_outcome.specs.Letter.{most_counted};

use crate::letter::Letter;
use crate::letter_cell::LetterCell;
use std::marker::Model;

/// A list of letters that takes no memory of its own.
pub(crate) struct LetterCells {
    first: Option<Box<LetterCell>>,
}

impl Model for LetterCells {
    ghost use Rattle.std.specs.Prelude.{List, All};
    ghost use Rattle.dsn_outcome.specs.Letter.{Letter, IsLetter};
    ghost use Rattle.dsn_outcome.specs.inner.LetterCell.{letters_linked};

    ghost Value = { List Letter };

    ghost view = { λ c. letters_linked c.first };

    ghost invariant = { λ c. All IsLetter (letters_linked c.first) };
}

impl LetterCells {
    /// The empty list.
    pub(crate) fn new() -> Self
        ensures { result ≡ [] }
    {
        LetterCells { first: None }
    }

    /// Whether the list is empty.
    pub(crate) fn is_empty(&self) -> bool
        ensures { result ≡ (length self.now == 0) }
    {
        self.first.is_none()
    }

    /// Puts a letter in front of the others.
    pub(crate) fn push_front(&mut self, letter: Letter)
        ensures { self.new ≡ letter ∷ self.old }
    {
        let Letter { mut cell } = letter;
        cell.next = self.first.take();
        self.first = Some(cell);
    }

    /// Removes and returns the first letter.
    pub(crate) fn pop_front(&mut self) -> Option<Letter>
        ensures none { IfNone result ((self.old ≡ []) × (self.new ≡ [])) }
        ensures first { IfSome result (λ letter. self.old ≡ letter ∷ self.new) }
    {
        let mut cell = self.first.take()?;
        self.first = cell.next.take();
        Some(Letter { cell })
    }

    /// Moves the other list's letters in front of its own, in reverse order.
    pub(crate) fn take_reversed(&mut self, other: &mut LetterCells)
        ensures taken { self.new ≡ reverse other.old ++ self.old }
        ensures left { other.new ≡ [] }
    {
        while let Some(letter) = other.pop_front() {
            self.push_front(letter);
        }
    }

    /// The number of letters, capped at 2^64 - 1.
    pub(crate) fn len(&self) -> u64
        ensures { result ≡ min (length self.now) most_counted }
    {
        let mut count = 0u64;
        let mut link = &self.first;
        while let Some(cell) = link {
            count = count.saturating_add(1);
            link = &cell.next;
        }
        count
    }
}

impl Drop for LetterCells {
    /// Frees the letters in a loop instead of recursively.
    fn drop(self) {
        // A derived drop avoids recursion only because the link is the cell's last field. A drop
        // that freed the rest before the cell's other fields used up the stack on a million
        // letters.
        let LetterCells { first: mut link } = self;
        while let Some(cell) = link {
            let LetterCell {
                terms: _,
                sealed: _,
                next,
            } = Box::into_inner(cell);
            link = next;
        }
    }
}
