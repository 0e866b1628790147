//! The start of a run over a journal: the parts that don't depend on where its letters go.
ghost use Rattle.std.specs.Prelude.{◌≡◌, ◌⊎◌, ◌↔◌, ◌++◌, List, [], true, IfErr, IfOk, IsOk};
ghost use Rattle.dsn_outcome.specs.Letter.{Letter};
ghost use Rattle.dsn_journal.specs.Records.{recovered};
ghost use Rattle.dsn_journal.specs.declared.journal_error.JournalError.TheVariants.{Full};
ghost use Rattle.dsn_ledger.specs.Compacted.{compacted, raised};
ghost use Rattle.dsn_ledger.specs.OpenLedger.{AwaitsRequests};
ghost use Rattle.dsn_ledger.specs.Posting.{AreToPostUnderSome};
ghost use Rattle.dsn_ledger.specs.declared.keep_error.KeepError.TheVariants as not_kept_for;
ghost use Rattle.dsn_ledger.specs.Staying.{MayGoOn, MayStay};
ghost use Rattle.dsn_text.specs.FaultCode.{no_memory_code};
ghost use Rattle.noticed_lib.specs.inner.Daemon.{BeginsAnew, IsOpenedFrom, NeedsMoreRoom};
ghost use Rattle.noticed_lib.specs.daemon.Journaled.{IsLedgerBegun, IsNotBegun, LeavesStart};

use crate::daemon::watch::Watch;
use crate::daemon::watched_keeper::report_held;
use dsn_book::Limits;
use dsn_crew::Outlet;
use dsn_journal::{JournalError, MarkCount, Replaceable};
use dsn_ledger::{KeepError, KeptBook, Ledger, ledgers_have_earlier_histories};
use dsn_outcome::Letter;
use dsn_text::fault_code;
use std::alloc::Global;

/// What a run over a journal begins with.
#[derive(Drop)]
pub(crate) struct JournalStart<O, D: Replaceable, C: MarkCount> {
    /// What takes the run's letters, and has taken those of earlier runs.
    pub(crate) outlet: O,
    /// What keeps the run's requests.
    pub(crate) keeper: KeptBook<D, C>,
}

/// Why a part of a start failed.
#[derive(Drop)]
pub(crate) struct NotBegun<T> {
    /// The number of the fault.
    pub(crate) code: u32,
    /// The disks that the part got.
    pub(crate) left: T,
}

/// Why a run over a journal didn't begin.
#[derive(Drop)]
pub(crate) struct NotStarted<W, D, M> {
    /// The number of the fault.
    pub(crate) code: u32,
    /// The outbox.
    pub(crate) outbox: W,
    /// The disk of the journal.
    pub(crate) journal: D,
    /// The disk of the marks.
    pub(crate) marks: M,
}

/// Passes letters to an outlet, one after another.
pub(crate) fn hand_first<O: Outlet>(outlet: O, letters: Vec<Letter>) -> O
    ensures { (start : O) (before : List Letter) → O.posted start before outlet
        → O.posted start (before ++ letters.items) result }
{
    let mut outlet = outlet;
    for letter in letters {
        outlet.hand(letter);
    }
    outlet
}

/// Begins a run under these limits with a ledger that was opened for it. The journal stays as it is
/// if [`Ledger::may_stay`] says so; otherwise it is replaced by a shorter one under the limits, which
/// keeps the letters that wait. If there is no room for that one, the journal also stays as it is,
/// provided that [`Ledger::may_go_on`] says so. The watch is notified of the keys that are held.
/// Returns what keeps the run's requests, whose letters are marked as the count says. Closed keys
/// make room if `releases` is true.
///
/// A crash before the journal is replaced leaves one under the old limits, so a later start does the
/// same.
///
/// The numbers of its errors are those of a journal that could not be replaced, and 71 if 2^63
/// letters or more were sealed. Under the journal's own limits, want of room is no error.
pub(crate) fn begin_ledger<D: Replaceable, C: MarkCount + Drop, H: Watch>(
    alloc: Global,
    ledger: Ledger<D>,
    waiting: &[Letter],
    limits: Limits,
    releases: bool,
    count: C,
    watch: &H,
) -> Result<KeptBook<D, C>, NotBegun<D>>
    requires letters { AreToPostUnderSome ledger.book.book.limits
        (recovered (D.seen ledger.journal.disk)) waiting.now }
    requires opened { (journal : D) × IsOpenedFrom D.Disk limits journal ledger }
    ensures begun { IfOk result (λ keeper. (journal : D)
        → IsOpenedFrom D.Disk limits journal ledger
        → IsLedgerBegun D.Disk limits journal keeper) }
    ensures rule { IfOk result (λ keeper. keeper.releases ≡ releases) }
    ensures stays { MayStay D.Disk limits ledger
        → IfOk result (λ keeper. keeper ≡ record ledger { releases = releases }) }
    ensures begins { MayStay D.Disk limits ledger → IsOk result }
    ensures shorter { (MayStay D.Disk limits ledger → ⊥)
        → IfOk result (λ keeper. (recovered (D.seen keeper.journal.disk)
        ≡ compacted (raised limits ledger.book) ledger.base waiting.now)
        ⊎ ((keeper ≡ record ledger { releases = releases })
        × NeedsMoreRoom D.Disk limits ledger waiting.now)) }
    ensures goes_on { MayGoOn limits ledger → NeedsMoreRoom D.Disk limits ledger waiting.now
        → IfOk result (λ keeper. keeper ≡ record ledger { releases = releases }) }
    ensures full { MayGoOn limits ledger → NeedsMoreRoom D.Disk limits ledger waiting.now
        → IfErr result (λ not. not.code ≡ no_memory_code) }
    ensures refused { IfErr result (λ not. (journal : D)
        → IsOpenedFrom D.Disk limits journal ledger
        → IsNotBegun limits (D.seen journal) waiting.now not.code) }
    ensures crash { IfErr result (λ not. (journal : D)
        → IsOpenedFrom D.Disk limits journal ledger
        → LeavesStart D.Disk limits journal not.left) }
{
    let mut ledger = ledger;
    // Replacing the file writes and syncs all of it, which takes most of a start.
    if !ledger.may_stay(limits) {
        let may_go_on = ledger.may_go_on(limits);
        match ledger.raise(alloc, waiting, limits) {
            Ok(true) => {}
            Ok(false) => {
                return Err(NotBegun {
                    code: fault_code::JOURNAL_FULL,
                    left: ledger.into_disk(),
                });
            }
            Err(error) => {
                // If letters that wait fill the file, a refused start would submit none of them, and
                // no later start would have room.
                if !goes_on_after(may_go_on, error) {
                    return Err(NotBegun {
                        code: error.code(),
                        left: ledger.into_disk(),
                    });
                }
            }
        }
    }
    report_held(watch, ledger.book().entries());
    Ok(keeper_over(alloc, ledger, releases, count))
}

/// Whether a run goes on with a journal that was not replaced, by this error: if it may, and there is
/// no room for the shorter one.
fn goes_on_after(may_go_on: bool, error: KeepError) -> bool
    ensures { (result ≡ true) ↔ ((may_go_on ≡ true) × (error ≡ not_kept_for.Journal Full)) }
{
    match error {
        KeepError::Journal(JournalError::Full) => may_go_on,
        KeepError::Journal(JournalError::Memory | JournalError::Failed) | KeepError::Unsettled => {
            false
        }
    }
}

/// What keeps requests on this ledger, whose letters are marked as the count says. Closed keys make
/// room if `releases` is true.
fn keeper_over<D: Replaceable, C: MarkCount>(
    alloc: Global,
    ledger: Ledger<D>,
    releases: bool,
    count: C,
) -> KeptBook<D, C>
    requires awaits { AwaitsRequests D.Disk ledger [] }
    requires settled { ledger.settled ≡ true }
    ensures ledger { result ≡ record ledger { releases = releases } }
    ensures begins { BeginsAnew D.Disk (record ledger { releases = releases }) }
{
    ledgers_have_earlier_histories();
    // A book's limits allow it a key and an outcome, as the law asks.
    let limits = ledger.book().limits();
    let (_logs, _entries) = (limits.logs(), limits.entries());
    KeptBook::new(alloc, ledger.releasing(releases), count)
}
