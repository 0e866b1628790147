//! What is left of the daemon's run over a journal.
//! The disks are returned also if the run didn't begin: nobody could use a clause on a disk that
//! was dropped.
ghost use Rattle.std.specs.Prelude.{◌≡◌};

use crate::daemon::serve_end::ServeEnd;
use dsn_journal::{CountedOutbox, MarkedOutbox, Replaceable};

/// How a run of [`serve_journaled`](crate::serve_journaled) ended.
#[derive(Drop)]
pub struct JournaledEnd<W, D, M> {
    /// The outbox, and the exit status.
    pub end: ServeEnd<W>,
    /// The disk of the journal, as the run left it.
    pub journal: D,
    /// The disk of the marks, as the run left it.
    pub marks: M,
}

impl<W, D, M: Replaceable> JournaledEnd<W, D, M> {
    /// The end of a run whose outbox marked its letters, with the disk of its journal.
    pub(crate) fn of<C: Drop>(
        end: ServeEnd<CountedOutbox<MarkedOutbox<W, M>, C>>,
        journal: D,
    ) -> JournaledEnd<W, D, M>
        ensures end { result.end
            ≡ record { outbox = end.outbox.outbox; status = end.status } }
        ensures journal { result.journal ≡ journal }
        ensures marks { result.marks ≡ end.outbox.marks.journal.disk }
    {
        let ServeEnd { outbox, status } = end;
        let (outbox, marks) = outbox.into_outbox().into_parts();
        JournaledEnd {
            end: ServeEnd { outbox, status },
            journal,
            marks: marks.into_disk(),
        }
    }
}
