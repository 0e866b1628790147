//! The trait that carries out the requests of a crew. It lets the same collector serve a book alone
//! and a book with a journal. It mentions no disk, so the proof of what a crash leaves of a crew
//! doesn't mention files. `keep` is separate from `apply`, so one write and one sync keep all
//! waiting requests, and each is answered once it was carried out. The clauses hold for every
//! history that the keeper may model. Its caller knows which one a journal's book continues, and
//! the collector doesn't.
ghost use Rattle.std.specs.Prelude.{◌≡◌, ◌+◌, ◌-◌, ◌^◌, ◌<◌, ◌≤◌, List, [], ◌∷◌, ◌++◌, OnOk, IfErr};
ghost use Rattle.dsn_device.specs.Throughout.{LeavesThroughout};
ghost use Rattle.dsn_book.specs.Crash.{ReopensAfterSome};
ghost use Rattle.dsn_book.specs.Release.{before_request, exchange_under, history_next, history_under};
ghost use Rattle.dsn_book.specs.Step.{letters_in};
ghost use Rattle.dsn_outcome.specs.History.{Exchange, answer_of, letter_of};
ghost use Rattle.dsn_outcome.specs.Request.{Request};

use crate::book::Book;
use crate::limits::Limits;
use crate::not_kept::NotKept;
use crate::step::Step;
use dsn_outcome::Request;

/// Carries out requests, each after it was kept: a book alone, for which nothing has to be kept, or
/// a book with a journal. It models a history, as a book does, and carries out a request as that
/// history says.
///
/// It has a clock: its clauses say what a crash may leave at each moment, during a call or between
/// two calls. From what a crash leaves between two calls, a later run models the history with every
/// kept request.
pub trait Keeper {
    ghost use Rattle.std.specs.Prelude.{ℕ, List};
    ghost use Rattle.dsn_outcome.specs.History.{Limits, Exchange};
    ghost use Rattle.dsn_outcome.specs.Request.{Request};
    ghost use Rattle.dsn_book.specs.Release.{Rules};
    ghost use Rattle.dsn_book.specs.declared.not_kept.NotKept.{NotKept};

    // The limits that decide the replies, and whether a closed key is released to make room.
    ghost rules: { Self → Rules };

    // It models this history, and these kept requests may be carried out next, in this order.
    ghost has: { Self → List Exchange → List Request → Type 0 };

    // An upper bound of the number of letters that got their serials from it.
    ghost sealed: { Self → ℕ };

    // It may refuse to keep these requests for this reason, and is then in this state. If the state
    // were left open, a keeper that always refuses, or that keeps requests and refuses them, would
    // satisfy the same clauses.
    ghost refuses: { Self → List Request → NotKept → Self → Type 0 };

    // The moment, as a number that never decreases.
    ghost moment: { Self → ℕ };

    // The bytes that a crash since this moment may have left, during a call or between two calls.
    ghost left_since: { Self → ℕ → List ℕ → Type 0 };

    // A later run that finds these bytes, under these limits, models this history.
    ghost reopens: { Limits → List ℕ → List Exchange → Type 0 };

    /// The limits of the keeper.
    fn limits(&self) -> Limits
        ensures { result ≡ (rules self.now).limits };

    /// Keeps requests, so that they may be carried out. Requires that it models some history and
    /// that no kept request waits.
    ///
    /// On an error none of them may be carried out, and `refuses` specifies the state of the
    /// keeper. After `Failed` it is unknown whether a later run will carry out some of them.
    fn keep(&mut self, requests: &[Request]) -> Result<(), NotKept>
        requires has { (t : List Exchange) × has self.old t [] }
        ensures has { OnOk result ((t : List Exchange) → has self.old t []
            → has self.new t requests.now) }
        ensures refused { IfErr result (λ why. refuses self.old requests.now why self.new) }
        ensures any_moment { (t : List Exchange) → has self.old t []
            → LeavesThroughout moment left_since self.old self.new
            (ReopensAfterSome reopens (rules self.old) t requests.now) }
        ensures rules { rules self.new ≡ rules self.old }
        ensures sealed { sealed self.new ≡ sealed self.old };

    /// Carries out the next of the kept requests, and answers it. If its rules say so, it releases
    /// the key that was closed longest ago first, by a request of its own, to make room for a new
    /// key. It takes no memory. Requires that fewer than 18,446,744,073,709,551,615 letters were
    /// sealed.
    fn apply(&mut self, request: Request) -> Step
        requires has { (t : List Exchange) × (rest : List Request)
            × has self.old t (request ∷ rest) }
        requires room { sealed self.old < 2 ^ 64 - 1 }
        ensures rules { rules self.new ≡ rules self.old }
        ensures asked { (result.answer.agent ≡ request.agent)
            × (result.answer.number ≡ request.number) }
        ensures answer { (t : List Exchange) (rest : List Request)
            → has self.old t (request ∷ rest)
            → result.answer ≡ answer_of (before_request (rules self.old) t request)
            (exchange_under (rules self.old) t request) }
        ensures letter { (t : List Exchange) (rest : List Request)
            → has self.old t (request ∷ rest)
            → letters_in result.letter ≡ letter_of (before_request (rules self.old) t request)
            (exchange_under (rules self.old) t request) }
        ensures has { (t : List Exchange) (rest : List Request)
            → has self.old t (request ∷ rest)
            → has self.new (history_next (rules self.old) t request) rest }
        ensures no_moment { (moment self.new ≡ moment self.old) × ((t : ℕ) (left : List ℕ)
            → left_since self.new t left → left_since self.old t left) }
        ensures sealed { sealed self.new ≤ sealed self.old + 1 };

    // A crash now leaves what it models, with the kept requests. This is a law instead of a clause
    // of a call, so that it also holds between two calls, where answers are sent.
    ghost leaves_kept: { (keeper : Self) (t : List Exchange) (requests : List Request)
        (left : List ℕ) → has keeper t requests → left_since keeper (moment keeper) left
        → reopens (rules keeper).limits left (history_under (rules keeper) t requests) };
}

/// A book keeps nothing: requests may be carried out at once, and a crash leaves nothing.
impl Keeper for Book {
    ghost use Rattle.dsn_book.specs.Book.{Represents};
    ghost use Rattle.dsn_book.specs.Release.{releasing_none};

    ghost rules = { λ book. releasing_none book.limits };

    ghost has = { λ book history _. Represents book history };

    ghost sealed = { λ book. book.sealed };

    ghost refuses = { λ _ _ _ _. ⊥ };

    ghost moment = { λ _. 0 };

    ghost left_since = { λ _ _ _. ⊥ };

    ghost reopens = { λ _ _ _. ⊥ };

    ghost leaves_kept = { λ _ _ _ _ _ left. absurd left };

    fn limits(&self) -> Limits {
        self.limits()
    }

    fn keep(&mut self, _requests: &[Request]) -> Result<(), NotKept> {
        Ok(())
    }

    fn apply(&mut self, request: Request) -> Step {
        self.apply(request)
    }
}
