//! Laws of the history of requests, stated as contracts of functions that do nothing.
//! Implements noticed-protocol(5).
ghost use Rattle.std.specs.Prelude.{◌≡◌, ℕ, true, false, List, [], length, map};
ghost use Rattle.dsn_outcome.specs.Agents.{from_agent};
ghost use Rattle.dsn_outcome.specs.CloseRule.{StaysClosed, AnswersClosed, TakesNoOutcome, TakesNoOutcomeUntilForgotten, LeavesEveryLog, LeavesHeldKeys, LeavesSealedLetters};
ghost use Rattle.dsn_outcome.specs.Expecting.{AnswersDiffers, AreAsExpected, DiffersChangesNothing};
ghost use Rattle.dsn_outcome.specs.Forgetting.{AreNumbered, ForgetsIt, KeepsIt};
ghost use Rattle.dsn_outcome.specs.History.{Limits, Exchange, IsClosed, is_closed, answers_after, answers_to, history_of, sealed_letters, serials_told};
ghost use Rattle.dsn_outcome.specs.Request.{Request};
ghost use Rattle.dsn_text.specs.declared.key.Key.{Key};

/// The close rule. Until a closed key is forgotten, it stays closed, and no request adds an outcome
/// to its log. Each other request about it is answered `Closed`, and leaves every log, the held
/// keys and the sealed letters unchanged.
#[tactic(auto, using(crate::proofs::CloseRule::rules_of_closed_logs))]
pub fn closed_logs_stay_closed()
    ensures stays { (key : Key) (history : List Exchange) → IsClosed key history
        → StaysClosed key history }
    ensures answered { (limits : Limits) (key : Key) (history : List Exchange)
        → IsClosed key history → AnswersClosed limits key history }
    ensures no_outcome { (limits : Limits) (key : Key) (history : List Exchange)
        → IsClosed key history → TakesNoOutcome limits key history }
    ensures between { (limits : Limits) (key : Key) (history : List Exchange)
        → IsClosed key history → TakesNoOutcomeUntilForgotten limits key history }
    ensures logs { (limits : Limits) (key : Key) (history : List Exchange)
        → IsClosed key history → LeavesEveryLog limits key history }
    ensures held { (limits : Limits) (key : Key) (history : List Exchange)
        → IsClosed key history → LeavesHeldKeys limits key history }
    ensures letters { (limits : Limits) (key : Key) (history : List Exchange)
        → IsClosed key history → LeavesSealedLetters limits key history }
{}

/// A Forget of a closed key makes the key as if it had never been used, and changes nothing else. A
/// Forget of any other key changes nothing.
pub fn closed_keys_alone_are_forgotten()
    ensures closed { (limits : Limits) (key : Key) (history : List Exchange)
        → IsClosed key history → ForgetsIt limits key history }
    ensures other { (limits : Limits) (key : Key) (history : List Exchange)
        → is_closed key history ≡ false → KeepsIt limits key history }
{}

/// If a flush expects another number of outcomes than the key's log has, and the log isn't closed,
/// it is answered with the actual number and changes nothing, even if the table is full. So each
/// letter has as many outcomes as its flush expects.
pub fn flushes_seal_what_they_expect()
    ensures answered { (limits : Limits) (key : Key) (history : List Exchange)
        → is_closed key history ≡ false → AnswersDiffers limits key history }
    ensures unchanged { (limits : Limits) (history : List Exchange)
        → DiffersChangesNothing limits history }
    ensures sealed { (limits : Limits) (requests : List Request)
        → AreAsExpected (sealed_letters (history_of limits requests)) }
{}

/// The letters of a history are numbered from 0, across all keys and forgettings.
#[tactic(auto, using(crate::proofs::Forgetting::letters_numbered))]
pub fn letters_are_numbered()
    ensures { (history : List Exchange) → AreNumbered history }
{}

/// A history contains exactly the requests that it was made of, in order. Each agent gets as many
/// answers as it made requests.
#[tactic(auto, using(crate::proofs::HistoryLaws::requests_of, crate::proofs::HistoryLaws::answers_length))]
pub fn histories_answer_each_request()
    ensures requests { (limits : Limits) (requests : List Request)
        → map (λ exchange. exchange.request) (history_of limits requests) ≡ requests }
    ensures answers { (limits : Limits) (agent : ℕ) (requests : List Request)
        → length (answers_to agent (history_of limits requests))
        ≡ length (from_agent (λ request. request.agent) agent requests) }
{}

/// The answers of a history report the serial of each letter once, in order.
#[tactic(auto, using(crate::proofs::HistoryLaws::serials_answered))]
pub fn answers_tell_serials()
    ensures { (history : List Exchange) → serials_told (answers_after [] history)
        ≡ map (λ letter. letter.serial) (sealed_letters history) }
{}
