//! Ledgers over disks, for tests.
ghost use Rattle.std.specs.Prelude.{[], IfSome};
ghost use Rattle.dsn_ledger.specs.OpenLedger.{AwaitsRequests};

use crate::open_logs::open_logs;
use dsn_book::Limits;
use dsn_journal::{Disk, SettledLetters};
use dsn_ledger::{Ledger, open};
use std::alloc::Global;

/// Opens a disk that is to be opened.
pub(crate) fn open_disk<D: Disk + Drop>(alloc: Global, disk: D) -> Option<Ledger<D>>
    ensures none { IfSome result (λ ledger. AwaitsRequests D.Disk ledger []) }
{
    let limits = Limits::new(8, 8, 8)?;
    let settled = SettledLetters::below(alloc, 0).ok()?;
    match open(alloc, disk, limits, &settled) {
        Ok(opened) => Some(opened.ledger),
        Err(_left) => None,
    }
}

/// How many outcomes are in the only log of a ledger, if it has one.
fn outcomes_in<D: Disk + Drop>(alloc: Global, ledger: &Ledger<D>) -> Option<u32> {
    let logs = open_logs(alloc, ledger.book()).ok()?;
    match logs.first() {
        Some(log) => Some(log.count),
        None => Some(0),
    }
}

/// How many outcomes are in the only log that a disk leaves open, if there is one.
pub(crate) fn outcomes_on<D: Disk + Drop>(alloc: Global, disk: D) -> Option<u32> {
    let ledger = open_disk(alloc, disk)?;
    outcomes_in(alloc, &ledger)
}
