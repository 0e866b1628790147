//! The disks of a journal's folder, and how a run opens them.
ghost use Rattle.std.specs.Prelude.{IfErr, IfOk};
ghost use Rattle.dsn_ledger.specs.Header.{MayBeRaised};
ghost use Rattle.dsn_ledger.specs.JournalFolder.{IsOpenedToRaise};
ghost use Rattle.noticed_lib.specs.daemon.Journaled.{IsFolderOpened, IsNotOpened, LeavesStart};

use crate::daemon::journal_start::NotBegun;
use dsn_book::Limits;
use dsn_journal::{Marks, Replaceable};
use dsn_ledger::{Opened, open_to_raise};
use std::alloc::Global;

/// The two disks on which a daemon keeps what it was asked, so that a later run continues from
/// there.
#[derive(Drop)]
pub struct JournalFolder<D, M> {
    /// The journal: what was asked, in order.
    pub journal: D,
    /// The marks: which letters are settled, or reached the outbox.
    pub marks: M,
}

impl<D: Replaceable, M: Replaceable> JournalFolder<D, M> {
    /// Opens the marks, and then the ledger for a run under these limits. Returns the marks, and the
    /// ledger with the letters from their mark on.
    ///
    /// A journal that was made under lower limits is replayed under them.
    ///
    /// The numbers of its errors are those of [`Marks::open`] and of [`open_to_raise`].
    pub(crate) fn open(
        self,
        alloc: Global,
        limits: Limits,
    ) -> Result<(Marks<M>, Opened<D>), NotBegun<JournalFolder<D, M>>>
        ensures folder { IfOk result (λ it. IsFolderOpened D.Disk M.Disk limits self.journal
            self.marks it.0 it.1.letters.items) }
        ensures ledger { IfOk result
            (λ it. IsOpenedToRaise D.Disk limits it.0.edges self.journal it.1) }
        ensures allowed { IfOk result (λ _. MayBeRaised limits limits) }
        ensures refused { IfErr result (λ not. IsNotOpened D.Disk M.Disk limits self.journal
            not.left.journal self.marks not.left.marks not.code) }
        ensures crash { IfErr result
            (λ not. LeavesStart D.Disk limits self.journal not.left.journal) }
    {
        let JournalFolder { journal, marks } = self;
        let marks = match Marks::open(alloc, marks) {
            Ok(marks) => marks,
            Err(left) => {
                return Err(NotBegun {
                    code: left.cause.code(),
                    left: JournalFolder {
                        journal,
                        marks: left.disk,
                    },
                });
            }
        };
        match open_to_raise(alloc, journal, limits, marks.letters()) {
            Ok(opened) => Ok((marks, opened)),
            Err(left) => Err(NotBegun {
                code: left.cause.code(),
                left: JournalFolder {
                    journal: left.disk,
                    marks: marks.into_disk(),
                },
            }),
        }
    }
}
