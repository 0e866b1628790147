//! A collector that is to take one request, for tests.
use dsn_book::Keeper;
use dsn_crew::Desk;
use std::sync::Wait;
use std::time::Clock;

/// Whether a collector takes one request and answers it. (A fault is dropped by its letter: a fault as
/// a whole takes long to prove.)
pub(super) fn takes_one<B: Keeper>(rt: &(impl Wait + Clock), desk: &mut Desk<B>) -> bool {
    if desk.all_gone() {
        return false;
    }
    match desk.take_one(rt) {
        Ok(_letter) => true,
        Err(fault) => {
            let _letter = fault.into_letter();
            false
        }
    }
}
