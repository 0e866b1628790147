//! The keeper of a run under a watch.
//! What a run keeps and answers is proved of the keeper inside. The observer gets copies, so nothing
//! that it does reaches a history.
ghost use Rattle.std.specs.Prelude.{◌≡◌};

use crate::daemon::journal_use::HasJournal;
use crate::daemon::observer::Observer;
use crate::daemon::request_counts::RequestKind;
use crate::daemon::watch::Watch;
use dsn_book::{Entry, Keeper, Limits, NotKept, Step};
use dsn_outcome::Request;
use std::marker::Model;

/// A keeper that reports each request that it has carried out. Contracts see only the keeper inside.
#[derive(Drop)]
pub(crate) struct Watched<K, O> {
    keeper: K,
    observer: O,
}

impl<K, O> Model for Watched<K, O> {
    ghost Value = { K };

    ghost view = { λ w. w.keeper };
}

impl<K, O> Watched<K, O> {
    /// The keeper inside.
    pub(crate) fn into_keeper(self) -> K
    where
        O: Drop,
        ensures { result ≡ self }
    {
        let Watched {
            keeper,
            observer: _,
        } = self;
        keeper
    }
}

impl<K: Keeper + HasJournal, O: Observer> Watched<K, O> {
    /// The keeper under this observer, which gets its limit of keys, and how much of its journal has
    /// records.
    pub(crate) fn new(keeper: K, observer: O) -> Watched<K, O>
        ensures { result ≡ keeper }
    {
        observer.may_hold(keeper.limits().logs());
        let watched = Watched { keeper, observer };
        watched.report_use();
        watched
    }

    /// Reports how much of the journal has records, if there is one.
    fn report_use(&self) {
        if let Some(journal) = self.keeper.journal_use() {
            self.observer.uses(journal);
        }
    }
}

impl<K: Keeper + HasJournal, O: Observer> Keeper for Watched<K, O> {
    ghost rules = { λ w. K.rules w };

    ghost has = { λ w. K.has w };

    ghost sealed = { λ w. K.sealed w };

    ghost refuses = { λ w requests why left. K.refuses w requests why left };

    ghost moment = { λ w. K.moment w };

    ghost left_since = { λ w. K.left_since w };

    ghost reopens = { K.reopens };

    ghost leaves_kept = { λ w. K.leaves_kept w };

    fn limits(&self) -> Limits {
        self.keeper.limits()
    }

    fn keep(&mut self, requests: &[Request]) -> Result<(), NotKept> {
        let kept = self.keeper.keep(requests);
        self.report_use();
        if let Err(why) = kept {
            self.observer.unkept(why);
        }
        kept
    }

    fn apply(&mut self, request: Request) -> Step {
        let asked = RequestKind::of(&request.body).zip(request.body.key());
        let step = self.keeper.apply(request);
        self.observer.carried_out(asked, step.answer.reply);
        step
    }
}

/// Reports to a watch the keys that are held as a run begins.
pub(crate) fn report_held<H: Watch>(watch: &H, held: &[Entry]) {
    for entry in held {
        let count = entry.log().map(|log| log.len());
        watch.holds(*entry.key(), count);
    }
}
