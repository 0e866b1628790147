//! Opens copies of the files of a journal's folder.
ghost use Rattle.std.specs.Prelude.{◌≡◌, IfErr, IfOk};
ghost use Rattle.dsn_device.specs.Failures.{counted};
ghost use Rattle.dsn_ledger.specs.inner.Failures.{has_disk_failed};
ghost use Rattle.dsn_journal.specs.inner.Failures.{has_finding_failed};
ghost use Rattle.dsn_listing.specs.inner.CopiedFolder.{IsOpenedCopy};
ghost use Rattle.dsn_ledger.specs.JournalFolder.{AreMarksRefusedFor, HaveEdges, IsJournalRefusedFor, IsOnlyRead};

use crate::copied_disk::CopiedDisk;
use dsn_book::Limits;
use dsn_journal::{Disk, Marks, MarksError, SettledLetters};
use dsn_ledger::{LedgerError, Opened, ledgers_have_one_history, open};
use std::alloc::Global;

/// Returns the marks in a copy of a disk of marks. The disk is only read: bytes that an opening
/// clears are cleared in the copy.
pub(crate) fn marks_of<M: Disk>(
    alloc: Global,
    marks: &mut M,
) -> Result<Marks<CopiedDisk>, MarksError>
    ensures edges { IfOk result (λ copy. HaveEdges (M.seen marks.old) copy.edges) }
    ensures refused { IfErr result (λ cause. AreMarksRefusedFor (M.seen marks.old) cause) }
    ensures read { IsOnlyRead M.Disk marks.old marks.new }
    ensures count { M.failures marks.new
        ≡ counted (has_finding_failed result) (M.failures marks.old) }
{
    let copy = CopiedDisk::of(alloc, marks)?;
    match Marks::open(alloc, copy) {
        Ok(opened) => {
            // The contract of this call says that the edges are valid.
            let _letters = opened.letters();
            Ok(opened)
        }
        Err(left) => Err(left.cause),
    }
}

/// Opens the ledger of a copy of a journal's disk, and returns it with the letters that the mark
/// doesn't count, of which some may be settled. The disk is only read.
pub(crate) fn open_copy<D: Disk>(
    alloc: Global,
    limits: Limits,
    settled: &SettledLetters,
    journal: &mut D,
) -> Result<Opened<CopiedDisk>, LedgerError>
    ensures opened { IfOk result
        (λ opened. IsOpenedCopy limits settled.now (D.seen journal.old) opened) }
    ensures refused { IfErr result
        (λ cause. IsJournalRefusedFor limits settled.now (D.seen journal.old) cause) }
    ensures read { IsOnlyRead D.Disk journal.old journal.new }
    ensures count { D.failures journal.new
        ≡ counted (has_disk_failed result) (D.failures journal.old) }
{
    ledgers_have_one_history();
    let copy = CopiedDisk::of(alloc, journal)?;
    match open(alloc, copy, limits, settled) {
        Ok(opened) => Ok(opened),
        Err(unopened) => Err(unopened.cause),
    }
}
