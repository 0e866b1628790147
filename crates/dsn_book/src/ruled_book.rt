//! A book that carries out the requests of a crew by its rules, and keeps nothing.
ghost use Rattle.std.specs.Prelude.{◌≡◌, [], IfOk};
ghost use Rattle.dsn_book.specs.RuledBook.{book_of, book_rules, has_by_rules};

use crate::book::Book;
use crate::keeper::Keeper;
use crate::limits::Limits;
use crate::not_kept::NotKept;
use crate::releasing_book::ReleasingBook;
use crate::step::Step;
use dsn_outcome::{NoMemory, Request};
use std::alloc::Global;

/// A book, with the order in which its keys were closed only if closed keys make room for new ones.
#[derive(Drop)]
pub enum RuledBook {
    /// No closed key makes room.
    Holding(Book),
    /// The key that was closed longest ago makes room for a new one.
    Releasing(ReleasingBook),
}

impl RuledBook {
    /// A book without keys. Closed keys make room if `releases` is true. It allocates the memory for
    /// all keys that the limits allow. Returns `NoMemory` only if that memory was refused.
    pub fn new(alloc: Global, limits: Limits, releases: bool) -> Result<RuledBook, NoMemory>
        ensures rules { IfOk result
            (λ book. book_rules book ≡ record { limits = limits; releases = releases }) }
        ensures empty { IfOk result (λ book. has_by_rules book []) }
        ensures sealed { IfOk result (λ book. (book_of book).sealed ≡ 0) }
    {
        if releases {
            Ok(RuledBook::Releasing(ReleasingBook::new(alloc, limits)?))
        } else {
            Ok(RuledBook::Holding(Book::new(alloc, limits)?))
        }
    }

    /// The book.
    pub fn book(&self) -> &Book
        ensures { result.now ≡ book_of self.now }
    {
        match self {
            RuledBook::Holding(book) => book,
            RuledBook::Releasing(book) => book.book(),
        }
    }
}

/// A book keeps nothing: requests may be carried out at once, and a crash leaves nothing.
impl Keeper for RuledBook {
    ghost use Rattle.dsn_book.specs.RuledBook.{book_of, book_rules, has_by_rules};

    ghost rules = { book_rules };

    ghost has = { λ book history _. has_by_rules book history };

    ghost sealed = { λ book. (book_of book).sealed };

    ghost refuses = { λ _ _ _ _. ⊥ };

    ghost moment = { λ _. 0 };

    ghost left_since = { λ _ _ _. ⊥ };

    ghost reopens = { λ _ _ _. ⊥ };

    ghost leaves_kept = { λ _ _ _ _ _ left. absurd left };

    fn limits(&self) -> Limits {
        self.book().limits()
    }

    fn keep(&mut self, _requests: &[Request]) -> Result<(), NotKept> {
        Ok(())
    }

    fn apply(&mut self, request: Request) -> Step {
        match self {
            RuledBook::Holding(book) => book.apply(request),
            RuledBook::Releasing(book) => book.apply(true, request),
        }
    }
}
