//! The texts that are made of a log.
ghost use Rattle.std.specs.Prelude.{IfOk, IfErr, if◌then◌else◌};
ghost use Rattle.dsn_report.specs.Notice.{notice_of};
ghost use Rattle.dsn_report.specs.Outbox.{mail_data};
ghost use Rattle.dsn_report.specs.Site.{plain_site};
ghost use Rattle.noticed_dsn.specs.Calls.{IsCallRefused, IsTextOf};

use crate::one_log::read_letter;
use dsn_outcome::NoMemory;
use dsn_report::{Site, SiteFault, mail_data, notice};
use dsn_text::fault_code;
use std::alloc::Global;

/// The notice of the log in these frames, or its mail data if `dots`. Returns the number of the
/// fault if there is none: of the host, then of the frames; 9 if memory was refused.
pub(crate) fn text_for(
    alloc: Global,
    host: &[u8],
    frames: &[u8],
    serial: u64,
    dots: bool,
) -> Result<Vec<u8>, u32>
    ensures text { IfOk result
        (λ text. IsTextOf (if dots then mail_data (plain_site host.now) else notice_of (plain_site host.now))
        frames.now
        serial text.items) }
    ensures refused { IfErr result (IsCallRefused host.now frames.now) }
{
    let site = match Site::new(alloc, host) {
        Ok(site) => site,
        Err(SiteFault::BadHost) => return Err(fault_code::BAD_HOST),
        Err(SiteFault::NoMemory) => return Err(fault_code::NO_MEMORY),
    };
    let letter = read_letter(alloc, frames, serial)?;
    let made = if dots {
        mail_data(alloc, &site, &letter)
    } else {
        notice(alloc, &site, &letter)
    };
    match made {
        Ok(text) => Ok(text),
        Err(NoMemory) => Err(fault_code::NO_MEMORY),
    }
}
