//! The account of a crew's run that ended well.
ghost use Rattle.std.specs.Prelude.{◌≡◌};

use crate::agents::AgentLine;
use crate::desk::CrewShut;
use dsn_book::{Book, Keeper};
use dsn_outcome::Letters;
use dsn_report::OutboxEnd;
use std::marker::Model;
use std::snapshot::Snapshot;

/// A crew's run that ended well. Contracts see, beside its fields, the requests that the collector
/// took, and what each agent sent and got; that takes no bytes.
#[derive(Drop)]
pub struct Account<W, B: Keeper = Book> {
    /// What each agent did, from agent 0 on.
    pub agents: Vec<AgentLine>,
    /// How many letters were posted.
    pub letters: u32,
    /// The letters that could not be passed on, in order.
    pub unsent: Letters,
    /// Whether nothing failed in the outlet. An outbox then has the notice of each letter, and QUIT.
    pub whole: bool,
    /// The outbox, or what is left of another outlet.
    pub outbox: W,
    /// The book of the collector, with the logs that are still open.
    pub book: B,
    shut: Snapshot<CrewShut<B>>,
}

impl<W, B: Keeper> Model for Account<W, B> {
    ghost use Rattle.dsn_crew.specs.Crew.{Account};

    ghost Value = { Account W B };

    ghost view = { λ a. record {
      agents = a.agents.items;
      letters = a.letters;
      unsent = a.unsent;
      whole = a.whole;
      outbox = a.outbox;
      book = a.book;
      taken = a.shut.value.desk.requests.taken;
      halves = a.shut.value.crew;
    } };
}

impl<W, B: Keeper> Account<W, B> {
    /// The account of a crew that was closed so, with what is left of its outlet.
    pub(crate) fn new(
        shut: CrewShut<B>,
        agents: Vec<AgentLine>,
        end: OutboxEnd<W>,
        letters: u32,
    ) -> Account<W, B>
        ensures { result ≡ record {
          agents = agents.items;
          letters = letters;
          unsent = end.unsent;
          whole = end.whole;
          outbox = end.outbox;
          book = shut.book;
          taken = shut.desk.requests.taken;
          halves = shut.crew;
        } }
    {
        let closed = Snapshot::of(&shut);
        let OutboxEnd {
            outbox,
            whole,
            unsent,
        } = end;
        Account {
            agents,
            letters,
            unsent,
            whole,
            outbox,
            book: shut.book,
            shut: closed,
        }
    }
}
