//! The laws of letters that wait, stated as the contracts of functions that do nothing.
ghost use Rattle.std.specs.Prelude.{ℕ, List};
ghost use Rattle.dsn_submission.specs.Waiting.{Queue, empty_queue};
ghost use Rattle.dsn_submission.specs.WaitingLaws.{Event, HasEach, IsOrderly, OnlySettlingSettles, TakesInOrder, after_events, come};

/// After every list of events: each letter that came has exactly one place; the mark is past all
/// letters that are settled from the first on; a letter in hand is one that waits; and letters that
/// were never put off are taken in the order in which they came.
pub fn letters_keep_their_places<T>()
    ensures places { (mark : ℕ) (events : List (Event T))
        → HasEach mark (after_events (empty_queue mark) events) (come events) }
    ensures orderly { (mark : ℕ) (events : List (Event T))
        → IsOrderly (after_events (empty_queue mark) events) }
    ensures in_order { (mark : ℕ) (events : List (Event T))
        → TakesInOrder (after_events (empty_queue mark) events) }
{}

/// No letter is settled but by the event that settles the one in hand, or before it comes.
pub fn only_settling_settles<T>()
    ensures { (queue : Queue T) (event : Event T) → OnlySettlingSettles queue event }
{}
