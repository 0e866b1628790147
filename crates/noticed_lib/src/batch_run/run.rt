//! One run of the daemon on one thread: frames in, letters out.
ghost use Rattle.std.specs.Prelude.{◌≡◌, ◌+◌, ◌<◌, ◌≤◌, List};
ghost use Rattle.dsn_outcome.specs.History.{Limits};
ghost use Rattle.dsn_outcome.specs.Body.{body_of};
ghost use Rattle.noticed_lib.specs.inner.Run.{Stands, Asks, Answered, most_accepted};
ghost use Rattle.dsn_report.specs.Site.{Site};

use dsn_book::{Book, Step};
use dsn_frame::{Spoken, Turn, next_request};
use dsn_outcome::{Body, Drain, Replied, Request};
use dsn_report::Outgoing;
use std::alloc::Global;

/// The logs, the letters on their way, and how many requests were accepted.
pub(crate) struct Run<W> {
    pub(crate) book: Book,
    pub(crate) outgoing: Outgoing<W>,
    pub(crate) accepted: u32,
}

impl<W: Drain> Run<W> {
    /// Answers the frame at this place of the input.
    pub(crate) fn answer(&mut self, alloc: Global, position: u32, bytes: &[u8]) -> Turn
        requires counted { self.old.accepted < most_accepted }
        requires few { self.old.accepted < self.old.book.limits.requests }
        requires sealed { self.old.book.sealed ≤ self.old.accepted }
        ensures counted { self.new.accepted ≤ self.old.accepted + 1 }
        ensures sealed { self.new.book.sealed ≤ self.new.accepted }
        ensures answered { Answered W.Drain self.old self.new position bytes.now result }
    {
        match next_request(alloc, position, bytes) {
            Ok(body) => Turn {
                answer: Spoken::Reply(self.ask(body)),
                over: false,
            },
            Err(refusal) => Turn {
                answer: Spoken::Refused(refusal.code()),
                over: refusal.ends(),
            },
        }
    }

    /// Takes a request, posts the letter that it seals, and gives the reply.
    fn ask(&mut self, body: Body) -> Replied
        requires counted { self.old.accepted < most_accepted }
        requires sealed { self.old.book.sealed ≤ self.old.accepted }
        ensures counted { self.new.accepted ≡ self.old.accepted + 1 }
        ensures limits { self.new.book.limits ≡ self.old.book.limits }
        ensures sealed { self.new.book.sealed ≤ self.new.accepted }
        ensures asked { (limits : Limits) (site : Site) (start : W) (requests : List _)
            → Stands W.Drain limits site start self.old requests
            → Asks W.Drain limits site start self.new requests (body_of body) result }
    {
        let request = Request {
            agent: 0,
            number: self.accepted,
            body,
        };
        self.accepted += 1;
        let Step { answer, letter } = self.book.apply(request);
        self.outgoing.hand_any(letter);
        answer.replied()
    }
}
