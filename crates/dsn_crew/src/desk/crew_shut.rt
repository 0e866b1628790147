//! What is left of a crew that was closed.
ghost use Rattle.std.specs.Prelude.{◌≡◌};

use crate::agents::Finished;
use crate::desk::desk::Desk;
use dsn_book::{Book, Keeper};
use std::marker::Model;
use std::snapshot::Snapshot;

/// A closed crew: its book, with the logs that are still open. Contracts see, beside it, the agents
/// and the collector as they were at the close, with all that they sent, took and answered; that
/// takes no bytes.
#[derive(Drop)]
pub struct CrewShut<B: Keeper = Book> {
    /// The book of the collector.
    pub book: B,
    crew: Snapshot<Vec<Finished>>,
    desk: Snapshot<Desk<B>>,
}

impl<B: Keeper> Model for CrewShut<B> {
    ghost use Rattle.dsn_crew.specs.desk.Close.{Shut};

    ghost Value = { Shut B };

    ghost view = { λ s. record { book = s.book; crew = s.crew.value.items; desk = s.desk.value } };
}

impl<B: Keeper> CrewShut<B> {
    /// What is left of these agents and this collector.
    pub(crate) fn new(
        book: B,
        crew: Snapshot<Vec<Finished>>,
        desk: Snapshot<Desk<B>>,
    ) -> CrewShut<B>
        ensures { result ≡ record { book = book; crew = crew.value.items; desk = desk.value } }
    {
        CrewShut { book, crew, desk }
    }
}
