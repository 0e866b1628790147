//! The start of the poster's thread.
ghost use Rattle.std.specs.Prelude.{◌≡◌, false, [], IfErr, IfOk};

use crate::post::letter_sink::LetterSink;
use crate::post::letter_source::LetterSource;
use crate::post::outlet::Outlet;
use crate::post::posting::{Posting, post_all};
use std::marker::Model;
use std::snapshot::Snapshot;
use std::sync::Wait;
use std::thread::{Promise, PromisedHandle, Scope};

/// The promise of a poster's thread. It has no bytes: contracts see what the thread was started
/// with, and the lane by which its letters come.
#[derive(Drop)]
pub struct Posts<O> {
    begun: Snapshot<O>,
    source: Snapshot<LetterSource>,
}

impl<O> Model for Posts<O> {
    ghost use Rattle.dsn_crew.specs.post.Posting.{Posts};

    ghost Value = { Posts O };

    ghost view = { λ p. record {
      begun = p.begun.value;
      lane = p.source.value.lane;
    } };
}

impl<O: Outlet> Promise<Posting<O>> for Posts<O> {
    ghost use Rattle.dsn_crew.specs.post.Posting.{IsPosting};

    ghost kept_by = { λ p r. IsPosting O.Outlet p.begun p.lane r };
}

/// Starts the poster's thread, with the two halves of a lane over which nothing was sent. It goes on
/// after what was posted before. Returns what is left of the outlet, to which no letter was passed, if
/// no thread can be made. Outside this crate it is for tests.
pub fn start_posting<'s, E: 's, R: Wait + Sync, O: Outlet + Drop + Send + 's>(
    scope: &Scope<'s, E>,
    rt: &'s R,
    outlet: O,
    sink: LetterSink,
    source: LetterSource,
) -> Result<(LetterSink, PromisedHandle<Posting<O>, Posts<O>>), O::Left>
    requires source { source ≡ record { lane = sink.lane; letters = []; marked = false } }
    requires sink { sink.letters ≡ [] }
    ensures sink { IfOk result (λ started. started.0 ≡ sink) }
    ensures promise { IfOk result
        (λ started. started.1.promise ≡ record { begun = outlet; lane = sink.lane }) }
    ensures refused { IfErr result (O.untouched outlet) }
{
    let promise = Posts {
        begun: Snapshot::of(&outlet),
        source: Snapshot::of(&source),
    };
    let started = scope.spawn_with(
        promise,
        move || -> Posting<O>
            requires { source.letters ≡ [] }
        { post_all(rt, outlet, source) },
    );
    match started {
        Ok(handle) => Ok((sink, handle)),
        Err(refused) => {
            // The closure runs here after the end mark, so it finds no letter, and the close proves
            // that none came. It doesn't end the outlet, or an untouched outbox would get an empty
            // session.
            let sink = sink.mark(rt);
            let Posting { outlet, source, .. } = (refused.value)();
            sink.close(rt, source);
            Err(outlet.into_left())
        }
    }
}
