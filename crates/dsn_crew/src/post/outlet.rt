//! The trait that takes the letters of a crew's poster. It lets the same poster write an outbox and
//! submit to a mail server.
ghost use Rattle.std.specs.Prelude.{◌≡◌, ◌+◌, ◌≤◌, List, [], ◌∷◌, ◌++◌, length};
ghost use Rattle.dsn_crew.specs.lane.Lane.{most_waiting};

use dsn_device::Drain;
use dsn_outcome::Letter;
use dsn_report::{OutboxEnd, Outgoing};

/// How many letters wait for an outbox at most.
const LETTERS_WAITING: u32 = 16;

/// What takes the letters of a crew, one after another, on the poster's thread. It may keep letters
/// that it couldn't pass on yet, and try them again until its end.
///
/// Its clauses hold for every start and for all letters since, so a run may go on with an outlet that
/// took letters before.
pub trait Outlet {
    ghost use Rattle.std.specs.Prelude.{ℕ, List};
    ghost use Rattle.dsn_outcome.specs.Letter.{Letter};
    ghost use Rattle.dsn_report.specs.declared.outbox_end.OutboxEnd.{OutboxEnd};

    /// What is left of it at its end.
    type Left: Drop + Send;

    // From an outlet to which no letter was passed, it became this one once these letters were
    // passed, in order.
    ghost posted: { Self → List Letter → Self → Type 0 };

    // From an outlet to which no letter was passed, it ended so after these letters, in order.
    ghost ended: { Self → List Letter → OutboxEnd Self.Left → Type 0 };

    // This is left of it if no letter is passed to it and it isn't ended.
    ghost untouched: { Self → Self.Left → Type 0 };

    // How many letters may wait in the lane to it.
    ghost room: { Self → ℕ };

    // An upper bound of the number of letters that are unsent if it is ended now.
    ghost unsent: { Self → ℕ };

    /// How many letters may wait in the lane to it. Returns 1 to 16,384.
    fn room(&self) -> u32
        ensures room { result ≡ room self.now }
        ensures bounds { (1 ≤ result) × (result ≤ most_waiting) };

    /// Takes a letter. What it doesn't pass on now it keeps, for a later try or as unsent.
    fn hand(&mut self, letter: Letter)
        ensures posted { (start : Self) (letters : List _) → posted start letters self.old
            → posted start (letters ++ letter ∷ []) self.new }
        ensures unsent { unsent self.new ≤ unsent self.old + 1 };

    /// Whether no letter waits in it for another try. The poster then waits for the next letter.
    fn is_idle(&self) -> bool;

    /// Tries the letters again that are due, or else pauses for some milliseconds. The poster calls
    /// it if the outlet isn't idle and no letter waits in the lane.
    fn tend(&mut self)
        ensures posted { (start : Self) (letters : List _) → posted start letters self.old
            → posted start letters self.new }
        ensures untouched { (left : Self.Left) → untouched self.new left
            → untouched self.old left }
        ensures unsent { unsent self.new ≤ unsent self.old };

    /// Ends it. Returns what is left, and the letters that it couldn't pass on.
    fn finish(self) -> OutboxEnd<Self::Left>
        ensures ended { (start : Self) (letters : List _) → posted start letters self
            → ended start letters result }
        ensures unsent { length result.unsent ≤ unsent self };

    /// Returns what is left without an end, if no letter was passed to it.
    fn into_left(self) -> Self::Left
        ensures { untouched self result };
}

/// An outbox: it writes each letter at once, keeps those that it couldn't write as unsent, and tries
/// none again.
impl<W: Drain + Drop + Send> Outlet for Outgoing<W> {
    ghost use Rattle.std.specs.Prelude.{◌≡◌, length};
    ghost use Rattle.dsn_crew.specs.post.Outlet.{letters_waiting};
    ghost use Rattle.dsn_report.specs.Outgoing.{Delivered, IsOutbox};

    type Left = W;

    ghost posted = { λ start letters now.
        Delivered W.Drain start.poster.site start.poster.outbox now letters };

    ghost ended = { λ start letters end.
        IsOutbox W.Drain start.poster.site start.poster.outbox end.outbox end.whole end.unsent
        letters };

    ghost untouched = { λ outgoing outbox. outbox ≡ outgoing.poster.outbox };

    ghost room = { λ _. letters_waiting };

    ghost unsent = { λ outgoing. length outgoing.unsent };

    fn room(&self) -> u32 {
        LETTERS_WAITING
    }

    fn hand(&mut self, letter: Letter) {
        self.hand(letter);
    }

    fn is_idle(&self) -> bool {
        true
    }

    fn tend(&mut self) {}

    fn finish(self) -> OutboxEnd<W> {
        self.finish()
    }

    fn into_left(self) -> W {
        self.into_outbox()
    }
}
