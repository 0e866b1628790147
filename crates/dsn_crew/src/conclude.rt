//! The end of a run: an account of it, or its fault.
ghost use Rattle.dsn_crew.specs.inner.Conclude.{Concludes, MayClose};

use crate::breach::Breach;
use crate::broken_off::BrokenOff;
use crate::crew_account::Account;
use crate::crew_fault::CrewFault;
use crate::desk::{Desk, close_crew};
use crate::gathered::Gathered;
use crate::post::Posted;
use dsn_book::Keeper;
use std::sync::Wait;

/// Closes the crew if all went well; else returns what is left of it.
pub(crate) fn conclude<W, B: Keeper + Drop>(
    rt: &impl Wait,
    collected: Result<Desk<B>, BrokenOff<B>>,
    gathered: Result<Gathered, Breach>,
    posted: Posted<W>,
) -> Result<Account<W, B>, CrewFault<W, B>>
    requires close { MayClose B.Keeper collected gathered }
    ensures { Concludes B.Keeper collected gathered posted result }
{
    let Posted { end, posted, lost } = posted;
    let desk = match collected {
        Ok(desk) => desk,
        Err(broken) => return Err(CrewFault::broken_off(broken, end)),
    };
    if let Some(gone) = lost {
        let broken = BrokenOff::new(desk, Breach::CollectorGone(gone), None);
        return Err(CrewFault::broken_off(broken, end));
    }
    match gathered {
        Ok(Gathered { lines, agents }) => {
            let shut = close_crew(rt, agents, desk);
            Ok(Account::new(shut, lines, end, posted))
        }
        Err(breach) => {
            let broken = BrokenOff::new(desk, breach, None);
            Err(CrewFault::broken_off(broken, end))
        }
    }
}
