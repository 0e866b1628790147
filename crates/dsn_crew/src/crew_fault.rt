//! What is left of a crew whose run ended with a fault.
//! It returns what carried the requests out, so that a later run or a repair has its disk.
ghost use Rattle.std.specs.Prelude.{◌≡◌, [], ◌∷◌, ◌++◌, None, Some};
ghost use Rattle.dsn_book.specs.Step.{letters_in};
ghost use Rattle.dsn_crew.specs.inner.Breach.{cause_of, IsShown};
ghost use Rattle.dsn_crew.specs.Crew.{crew_cause_code};

use crate::breach::Breach;
use crate::broken_off::BrokenOff;
use crate::crew_cause::CrewCause;
use crate::desk::Desk;
use dsn_book::{Book, Keeper};
use dsn_outcome::Letters;
use dsn_report::OutboxEnd;
use std::marker::Model;
use std::snapshot::Snapshot;

/// A crew's run that ended with a fault. It says that a lane was lost, or that a request was not
/// kept, only with what shows it. Contracts see, beside its fields, the requests that the collector
/// carried out, and those behind that it took and did not; that takes no bytes.
#[derive(Drop)]
pub struct CrewFault<W, B: Keeper = Book> {
    /// Why.
    pub cause: CrewCause,
    /// The outbox, or what is left of another outlet.
    pub outbox: W,
    /// The letters that reached the poster and could not be passed on, in order, and then the one that
    /// the collector still held.
    pub unsent: Letters,
    /// What carried the requests out, with the logs that are still open; `None` if it could not be
    /// made.
    pub book: Option<B>,
    desk: Option<Snapshot<Desk<B>>>,
    /// Why, with what shows it.
    breach: Breach,
}

impl<W, B: Keeper> Model for CrewFault<W, B> {
    ghost use Rattle.std.specs.Prelude.{◌≡◌};
    ghost use Rattle.dsn_crew.specs.inner.Breach.{cause_of, IsShown};
    ghost use Rattle.dsn_crew.specs.Crew.{CrewFault};
    ghost use Rattle.dsn_crew.specs.inner.TakenBy.{behind_of, taken_by};

    ghost Value = { CrewFault W B };

    ghost view = { λ f. record {
      cause = f.cause;
      outbox = f.outbox;
      unsent = f.unsent;
      book = f.book;
      taken = taken_by f.desk;
      behind = behind_of f.desk;
    } };

    ghost invariant = { λ f. (f.cause ≡ cause_of f.breach)
        × IsShown B.Keeper f.desk f.breach };
}

impl<W, B: Keeper> CrewFault<W, B> {
    /// The number of the fault: 41, 42, 43 or 45.
    pub fn code(&self) -> u32
        ensures { result ≡ crew_cause_code self.now.cause }
    {
        self.cause.code()
    }

    /// The fault of a run that never began, with what was to carry its requests out.
    pub(crate) fn unbegun(breach: Breach, outbox: W, book: Option<B>) -> CrewFault<W, B>
        requires shown { IsShown B.Keeper None breach }
        ensures { result ≡ record {
          cause = cause_of breach;
          outbox = outbox;
          unsent = [];
          book = book;
          taken = [];
          behind = [];
        } }
    {
        CrewFault {
            cause: breach.cause(),
            outbox,
            unsent: Letters::new(),
            book,
            desk: None,
            breach,
        }
    }

    /// The fault of a run that was broken off, with what is left of its collector, and of its outlet.
    pub(crate) fn broken_off(broken: BrokenOff<B>, end: OutboxEnd<W>) -> CrewFault<W, B>
        requires shown { IsShown B.Keeper (Some broken.desk) broken.breach }
        ensures { result ≡ record {
          cause = cause_of broken.breach;
          outbox = end.outbox;
          unsent = end.unsent ++ letters_in broken.held;
          book = Some broken.book;
          taken = broken.desk.value.requests.taken;
          behind = broken.desk.value.behind;
        } }
    {
        let BrokenOff {
            breach,
            held,
            book,
            desk,
        } = broken;
        let OutboxEnd {
            outbox,
            mut unsent,
            ..
        } = end;
        if let Some(letter) = held {
            unsent.push(letter);
        }
        CrewFault {
            cause: breach.cause(),
            outbox,
            unsent,
            book: Some(book),
            desk: Some(desk),
            breach,
        }
    }
}
