//! Who hears of the requests that a run carries out.
use crate::daemon::journal_use::JournalUse;
use crate::daemon::request_counts::RequestKind;
use crate::daemon::watch::Watch;
use dsn_book::NotKept;
use dsn_outcome::{Key, Reply};

/// Hears of the requests that a keeper carries out. Nothing is proved of it.
pub(crate) trait Observer {
    /// Reports how many keys may be held.
    fn may_hold(&self, keys: u32);

    /// Reports how much of the journal has records.
    fn uses(&self, journal: JournalUse);

    /// Reports that requests could not be kept, and why. The run ends by it.
    fn unkept(&self, why: NotKept);

    /// Reports that a request was carried out: what it asked of which log, unless it was a goodbye,
    /// and its reply.
    fn carried_out(&self, asked: Option<(RequestKind, Key)>, reply: Reply);
}

impl<H: Watch> Observer for &H {
    fn may_hold(&self, keys: u32) {
        (*self).may_hold(keys);
    }

    fn uses(&self, journal: JournalUse) {
        (*self).uses(journal);
    }

    fn unkept(&self, why: NotKept) {
        (*self).unkept(why);
    }

    fn carried_out(&self, asked: Option<(RequestKind, Key)>, reply: Reply) {
        (*self).carried_out(asked, reply);
    }
}
