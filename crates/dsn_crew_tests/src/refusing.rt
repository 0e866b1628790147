//! A keeper that keeps some requests and refuses those after them, for tests. It releases no key.

use dsn_book::{Book, Keeper, Limits, NotKept, Step};
use dsn_outcome::Request;

/// A book that keeps `left` requests more, and refuses those after them.
#[derive(Drop)]
pub(crate) struct Refusing {
    pub(crate) book: Book,
    pub(crate) left: u32,
}

impl Keeper for Refusing {
    ghost use Rattle.std.specs.Prelude.{◌≡◌};
    ghost use Rattle.dsn_book.specs.Book.{Represents};
    ghost use Rattle.dsn_book.specs.Release.{releasing_none};
    ghost use Rattle.dsn_book.specs.declared.not_kept.NotKept.TheVariants.{Full};

    ghost rules = { λ keeper. releasing_none keeper.book.limits };

    ghost has = { λ keeper history _. Represents keeper.book history };

    ghost sealed = { λ keeper. keeper.book.sealed };

    ghost refuses = { λ old _ why new. (why ≡ Full) × (old.left ≡ 0) × (new ≡ old) };

    ghost moment = { λ _. 0 };

    ghost left_since = { λ _ _ _. ⊥ };

    ghost reopens = { λ _ _ _. ⊥ };

    ghost leaves_kept = { λ _ _ _ _ _ left. absurd left };

    fn limits(&self) -> Limits {
        self.book.limits()
    }

    fn keep(&mut self, _requests: &[Request]) -> Result<(), NotKept> {
        if self.left == 0 {
            return Err(NotKept::Full);
        }
        self.left -= 1;
        Ok(())
    }

    fn apply(&mut self, request: Request) -> Step {
        self.book.apply(request)
    }
}
