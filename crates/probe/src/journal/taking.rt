//! A ledger that is open.

use dsn_book::Step;
use dsn_journal::{JournalError, Replaceable};
use dsn_ledger::{KeepError, Ledger};
use dsn_outcome::Request;
use std::alloc::Global;
use std::marker::Model;

/// A ledger that awaits no request, if it is settled.
#[derive(Drop)]
pub(crate) struct Taking<D: Replaceable> {
    pub(crate) ledger: Ledger<D>,
}

impl<D: Replaceable> Model for Taking<D> {
    ghost use Rattle.std.specs.Prelude.{◌≡◌, [], true};
    ghost use Rattle.dsn_ledger.specs.OpenLedger.{AwaitsRequests, Ledger};

    ghost Value = { Ledger D };

    ghost view = { λ t. t.ledger };

    ghost invariant = { λ t. t.ledger.settled ≡ true → AwaitsRequests D.Disk t.ledger [] };
}

/// The result of a group.
#[derive(Drop)]
pub(crate) enum Came<D: Replaceable> {
    /// It was kept: the ledger goes on, and these are its steps.
    Kept(Taking<D>, Vec<Step>),
    /// There was no room for it, and the ledger goes on.
    Full(Taking<D>),
    /// The ledger ended.
    Ended(KeepError),
}

impl<D: Replaceable + Drop> Taking<D> {
    /// Keeps a group, and carries it out. If there is no room, it tries once more over a shorter
    /// journal.
    pub(crate) fn take(self, alloc: Global, mut group: Vec<Request>) -> Came<D> {
        match self.keep(alloc, &mut group) {
            Came::Full(full) => match full.shortened(alloc) {
                Came::Kept(short, _) => short.keep(alloc, &mut group),
                other => other,
            },
            other => other,
        }
    }

    /// Keeps a group, and carries it out. It is refused as by want of memory where it, or what was
    /// sealed, is beyond what a script asks.
    fn keep(self, alloc: Global, group: &mut Vec<Request>) -> Came<D> {
        let Taking { mut ledger } = self;
        if ledger.base() > 1 << 40 || ledger.book().sealed() > 1 << 40 || group.len() > 1 << 20 {
            return Came::Ended(KeepError::Journal(JournalError::Memory));
        }
        match ledger.apply_all(alloc, group) {
            Ok(steps) => Came::Kept(Taking { ledger }, steps),
            Err(KeepError::Journal(JournalError::Full)) => Came::Full(Taking { ledger }),
            Err(error) => Came::Ended(error),
        }
    }

    /// Replaces the journal by a shorter one. It makes no step.
    fn shortened(self, alloc: Global) -> Came<D> {
        let Taking { mut ledger } = self;
        if ledger.base() > 1 << 40 || ledger.book().sealed() > 1 << 40 {
            return Came::Ended(KeepError::Journal(JournalError::Memory));
        }
        let all = ledger.base() + ledger.book().sealed();
        match ledger.compact_all_marked(alloc, all) {
            Ok(true) => Came::Kept(Taking { ledger }, Vec::new(alloc)),
            Ok(false) | Err(KeepError::Journal(JournalError::Full)) => {
                Came::Full(Taking { ledger })
            }
            Err(error) => Came::Ended(error),
        }
    }
}
