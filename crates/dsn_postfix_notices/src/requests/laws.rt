//! Laws of carried out requests, at each moment of one. Each law is the contract of a function that
//! changes nothing.
ghost use Rattle.std.specs.Prelude.{◌≡◌, ◌⊎◌, ◌++◌, [], ◌∷◌, ℕ, List, Ok, Some, true};
ghost use Rattle.dsn_postfix.specs.NoticePlan.{notice_asked};
ghost use Rattle.dsn_postfix.specs.Wanted.{is_no_sender};
ghost use Rattle.dsn_postfix.specs.declared.postfix_request.AppendRequest.{AppendRequest};
ghost use Rattle.dsn_postfix.specs.declared.postfix_request.PostfixRequest.{PostfixRequest};
ghost use Rattle.dsn_postfix.specs.declared.postfix_request.PostfixRequest.TheVariants.{Append};
ghost use Rattle.dsn_postfix_notices.specs.requests.AnsweredRequest.{IsAnswered, first_flush};
ghost use Rattle.dsn_postfix_notices.specs.requests.CarriedOut.{IsCarriedOut};
ghost use Rattle.dsn_postfix_notices.specs.requests.Deed.{Answer, Deed, LogRemoved, LogSought};
ghost use Rattle.std.specs.List.{list_all};
ghost use Rattle.dsn_postfix_files.specs.QueueRecord.{PlacedBytes};
ghost use Rattle.dsn_postfix_notices.specs.requests.Heading.{ReceivesFront, front_lines, is_front_line};
ghost use Rattle.dsn_postfix_notices.specs.requests.RequestLaws.{HandsInInTurn, HandsInOnce, IsRemovedAfter, IsRemovedInTurn, IsTellingDone, IsToldFirst, StandsOrIsPassedOn, hand_ins};
ghost use Rattle.dsn_postfix_notices.specs.requests.RequestStatus.{RequestAnswer};
ghost use Rattle.dsn_postfix_notices.specs.requests.Task.{Task, Terms};
ghost use Rattle.dsn_text.specs.declared.service.Service.{Service};
ghost use Rattle.dsn_text.specs.declared.service.Service.TheVariants.{Bounce};

use dsn_outcome::Letter;
use dsn_report::{Site, data_law};

/// A request for notices removes only its own log. Unless it does so for CLEAN, it did only the
/// following before. It read the log and the message's file. Each letter of each notice planned
/// from these was accepted. The recipients were marked as done if the request asks for that.
///
/// So a crash at any moment of a request without CLEAN leaves one of three states. The log is still
/// there. Or the mail server has all notices of what was read. Or the request was passed on, and
/// the log is left to Postfix's own service. A removal for CLEAN is the last deed of a request that
/// isn't answered status 0.
///
/// An answered request may do other deeds first. The removed log is then the service's own, or the
/// bounce log that is flushed first. The deeds on that log directly precede its removal, and the
/// same law holds for them. CLEAN removes no bounce log that is flushed first.
pub fn logs_are_removed_after_acceptance()
    ensures carried_out { (task : Task) (bytes : List ℕ) (answer : RequestAnswer)
        (gained before after : List Deed) (other : Service) (named : List ℕ) (given : Answer)
        → IsTellingDone task bytes answer gained
        → gained ≡ before ++ LogRemoved other named given ∷ after
        → IsRemovedAfter task answer before after
        other named }
    ensures answered { (task : Task) (bytes : List ℕ) (answer : RequestAnswer)
        (gained before after : List Deed) (log : Service) (named : List ℕ) (given : Answer)
        → notice_asked task.request ≡ Some task.notice
        → IsAnswered task.terms task.request bytes answer gained
        → gained ≡ before ++ LogRemoved log named given ∷ after
        → IsRemovedInTurn task answer before after log named }
{}

/// A request for notices that submits any letter first reads a log and the message's file. It
/// submits a prefix of the letters of the notices planned from these, each at most once, in their
/// order. An answered request submits those of the bounce log, if one was found, and then those of
/// the service's own log.
pub fn notices_are_handed_in_once()
    ensures carried_out { (task : Task) (bytes : List ℕ) (answer : RequestAnswer)
        (gained : List Deed)
        → IsTellingDone task bytes answer gained
        → (hand_ins gained ≡ [])
        ⊎ HandsInOnce task gained }
    ensures answered { (task : Task) (bytes : List ℕ) (answer : RequestAnswer)
        (gained : List Deed)
        → notice_asked task.request ≡ Some task.notice
        → IsAnswered task.terms task.request bytes answer gained
        → HandsInInTurn task gained }
{}

/// Nothing is submitted for a message from the null sender, or from the sender of notices about
/// notices. This holds for a request that is carried out on one log and for an answered one.
pub fn no_notice_causes_another()
    ensures carried_out { (task : Task) (bytes : List ℕ) (answer : RequestAnswer) (gained : List Deed)
        → IsTellingDone task bytes answer gained
        → is_no_sender task.terms.settings.double_bounce task.notice.sender ≡ true
        → hand_ins gained ≡ [] }
    ensures answered { (task : Task) (bytes : List ℕ) (answer : RequestAnswer) (gained : List Deed)
        → notice_asked task.request ≡ Some task.notice
        → IsAnswered task.terms task.request bytes answer gained
        → is_no_sender task.terms.settings.double_bounce task.notice.sender ≡ true
        → hand_ins gained ≡ [] }
{}

/// The receiver of a notice gets the header fields in front of it, and then the notice itself. Each
/// of these fields is a printable line of at most 998 bytes.
#[tactic(auto, using(crate::proofs::HeadingLemmas::front_received, crate::proofs::HeadingLemmas::front_legal))]
pub fn fields_come_before_notices(site: &Site, letter: &Letter)
    ensures received { ReceivesFront site.now letter.now }
    ensures legal { (task : Task) (records : List PlacedBytes)
        → list_all is_front_line (front_lines task records) ≡ true }
{
    data_law(site, letter);
}

/// An append that is answered 0 was appended and synced, or Postfix's own service answered 0 to it;
/// nothing else was done.
#[tactic(auto, using(crate::proofs::CarriedOutLaws::answered_append_stands, crate::proofs::AnsweredLaws::answered_append))]
pub fn answered_appends_stand()
    ensures carried_out { (terms : Terms) (request : AppendRequest) (bytes : List ℕ)
        (answer : RequestAnswer) (gained : List Deed)
        → IsCarriedOut terms (Append request) bytes answer gained
        → answer ≡ Ok 0
        → StandsOrIsPassedOn terms.service request bytes gained }
    ensures answered { (terms : Terms) (request : AppendRequest) (bytes : List ℕ)
        (answer : RequestAnswer) (gained : List Deed)
        → IsAnswered terms (Append request) bytes answer gained
        → answer ≡ Ok 0
        → StandsOrIsPassedOn terms.service request bytes gained }
{}

/// If a flush of the defer log is answered 0 and a bounce log was found, one of two things came
/// before the first deed on the defer log. Either the bounce log was read, and each letter of each
/// of its notices was accepted. Or no letter was accepted, and Postfix's own service answered 0 to
/// the flush of the bounce log, which has neither CLEAN nor DELRCPT. No letter is made if the
/// postmaster gets a copy.
pub fn bounce_logs_are_told_first()
    ensures { (task : Task) (first : PostfixRequest) (bytes : List ℕ) (answer : RequestAnswer)
        (gained deeds : List Deed) (named : List ℕ)
        → first_flush task.terms.service task.request ≡ Some first
        → notice_asked task.request ≡ Some task.notice
        → IsAnswered task.terms task.request bytes answer gained
        → answer ≡ Ok 0
        → gained ≡ LogSought Bounce named (Ok true) ∷ deeds
        → IsToldFirst task first bytes deeds }
{}
