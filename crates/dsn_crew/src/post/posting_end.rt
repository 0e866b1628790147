//! The end of the poster's thread, of its lane, and of the outlet.
ghost use Rattle.std.specs.Prelude.{◌≡◌};
ghost use Rattle.dsn_crew.specs.inner.Posting.{IsPosted};

use crate::post::letter_sink::LetterSink;
use crate::post::outlet::Outlet;
use crate::post::posted::Posted;
use crate::post::posting::Posting;
use crate::post::posting_start::Posts;
use std::sync::Wait;
use std::thread::{PromisedHandle, Threads};

/// Sends the end mark, waits for the poster's thread to end, closes the lane, and ends the outlet.
/// Requires that no letter was unsent when the thread was started. It takes no memory of its own.
pub(crate) fn end_posting<O: Outlet + Drop>(
    rt: &(impl Threads + Wait),
    sink: LetterSink,
    handle: PromisedHandle<Posting<O>, Posts<O>>,
) -> Posted<O::Left>
    requires lane { handle.promise.lane ≡ sink.lane }
    requires all_sent { O.unsent handle.promise.begun ≡ 0 }
    ensures { IsPosted O.Outlet handle.promise.begun sink.lane.capacity sink.letters result }
{
    let sink = sink.mark(rt);
    let Posting {
        outlet,
        handed,
        source,
        lost,
    } = handle.join(rt);
    sink.close(rt, source);
    let end = outlet.finish();
    Posted {
        // After a lost lane the letters that still waited in it are dropped, and are in neither
        // list.
        posted: handed - end.unsent.len() as u32,
        end,
        lost,
    }
}
