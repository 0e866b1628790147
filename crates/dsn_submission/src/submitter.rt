//! Submits the letters that wait, one at a time, and does with each what the server's reply says.
//! Implements RFC 5321 sections 3.3 and 4.5.4.1.
ghost use Rattle.std.specs.Prelude.{◌≡◌, false, true, Some, None, [], is_some, IfErr, IfNone, IfOk, IfSome, OnErr, OnOk};
ghost use Rattle.std.specs.Option.{option_copied, option_map};
ghost use Rattle.dsn_submission.specs.Submitter.{AsksOnce, Handles, KeepsRefused, LeavesSession, TellsSettled, concluded, is_settled_by, next_place, with_next_taken, verdict_in};
ghost use Rattle.dsn_submission.specs.Verdict.{reason_of};
ghost use Rattle.dsn_submission.specs.Waiting.{empty_queue, item_of, letter_at, letter_in_hand, pushed, pushed_settled, serial_in_hand, taken};
ghost use Rattle.dsn_submission.specs.declared.verdict.Verdict.TheVariants.{RefusedForGood};
ghost use Rattle.dsn_submission.specs.declared.waiting.Waits.{Waits};

use crate::deeds::{Marks, RefusedLetters};
use crate::mail::Mail;
use crate::verdict::{Verdict, reason_of, verdict_of};
use crate::waiting::Waiting;
use dsn_device::Stream;
use dsn_smtp::{Connect, HandInFault, HandedIn, ReplyBuffer, Session, Submission, hand_in_over};
use dsn_text::{MtaName, NoMemory};
use std::alloc::Global;
use std::marker::Model;

/// Letters that wait for a mail server, and the session with it.
#[derive(Drop)]
pub struct Submitter<T, S: Stream> {
    waiting: Waiting<T>,
    session: Option<Session<S>>,
    /// The last reply.
    reply: ReplyBuffer,
    /// Room for the message of one letter.
    text: Vec<u8>,
    host: MtaName,
    /// After how many milliseconds a letter is given up.
    give_up: u64,
    /// Whether a letter couldn't be kept as settled. Nothing is submitted from then on: after a
    /// restart, that letter is submitted again.
    is_stopped: bool,
}

impl<T, S: Stream> Model for Submitter<T, S> {
    ghost use Rattle.dsn_submission.specs.Submitter.{Submitter};

    ghost Value = { Submitter T S };

    ghost view = { λ s. record {
      waiting = s.waiting;
      session = s.session;
      reply = s.reply;
      host = s.host;
      give_up = s.give_up;
      stopped = s.is_stopped;
    } };
}

/// A letter that was submitted.
#[derive(Clone, Copy, Debug)]
pub struct Handled {
    /// Its serial.
    pub serial: u64,
    /// Why it wasn't accepted.
    pub fault: Option<HandInFault>,
    /// What became of it.
    pub verdict: Verdict,
}

impl<T: Mail + Drop, S: Stream + Drop> Submitter<T, S> {
    /// No letters, and no session. The first letter has the serial `mark`; `host` is the client's
    /// name. A letter that was put off is given up after `give_up` milliseconds.
    pub fn new(alloc: Global, host: MtaName, mark: u64, give_up: u64) -> Submitter<T, S>
        ensures { result ≡ record {
          waiting = empty_queue mark;
          session = None;
          reply = [];
          host = host;
          give_up = give_up;
          stopped = false;
        } }
    {
        Submitter {
            waiting: Waiting::new(alloc, mark),
            session: None,
            reply: ReplyBuffer::new(),
            text: Vec::new(alloc),
            host,
            give_up,
            is_stopped: false,
        }
    }

    /// The letters that wait.
    pub fn waiting(&self) -> &Waiting<T>
        ensures { result.now ≡ self.now.waiting }
    {
        &self.waiting
    }

    /// Whether nothing is submitted any more, since a letter couldn't be kept as settled.
    pub fn is_stopped(&self) -> bool
        ensures { result ≡ self.now.stopped }
    {
        self.is_stopped
    }

    /// The last reply of the server, with its code and all its lines.
    pub fn reply(&self) -> &[u8]
        ensures { result.now ≡ self.now.reply }
    {
        self.reply.bytes()
    }

    /// The letter that [`Submitter::step`] submits next at `now`, if there is one.
    pub fn next_letter(&self, now: u64) -> Option<&T>
        ensures { option_copied result
            ≡ option_map item_of (letter_at self.now.waiting.letters (next_place self.now now)) }
    {
        if self.is_stopped {
            return None;
        }
        self.waiting.next_due(now)
    }

    /// Adds a letter, as [`Waiting::push`] does.
    pub fn push(&mut self, letter: T, now: u64) -> Result<(), T>
        ensures ok { IfOk result
            (λ _. self.new ≡ record self.old { waiting = pushed self.old.waiting letter now }) }
        ensures refused { IfErr result (λ back. back ≡ letter) }
        ensures unchanged { OnErr result (self.new ≡ self.old) }
    {
        self.waiting.push(letter, now)
    }

    /// Adds a letter that is settled already, as [`Waiting::push_settled`] does.
    pub fn push_settled(&mut self) -> Result<(), NoMemory>
        ensures ok { OnOk result
            (self.new ≡ record self.old { waiting = pushed_settled self.old.waiting }) }
        ensures unchanged { OnErr result (self.new ≡ self.old) }
    {
        self.waiting.push_settled()
    }

    /// Ends the session with QUIT, if one is kept.
    pub fn end_session(&mut self)
        ensures { self.new ≡ record self.old { session = None } }
    {
        if let Some(session) = self.session.take() {
            session.end();
        }
    }

    /// Takes the letter that is to be submitted next in hand, and returns whether there is one.
    fn take(&mut self, now: u64) -> bool
        ensures found { result ≡ is_some (next_place self.old now) }
        ensures taken { self.new ≡ with_next_taken self.old (next_place self.old now) }
    {
        !self.is_stopped && self.waiting.take_due(now)
    }

    /// Submits the letter in hand, and returns why it wasn't accepted. Returns `NoMemory` if its
    /// message couldn't be written; then nothing was asked.
    fn ask<C: Connect<S>>(&mut self, server: &mut C) -> Result<Option<HandInFault>, NoMemory>
        requires { is_some (letter_in_hand self.old.waiting) ≡ true }
        ensures asked { IfOk result (λ fault. (letter : Waits T)
            → letter_in_hand self.old.waiting ≡ Some letter
            → AsksOnce S.Source S.Drain C.gives server.old server.new self.old.session
            self.new.session self.old.host
            (T.path_of letter.item) (T.message_of letter.item) self.old.reply
            self.new.reply fault) }
        ensures same { IfOk result (λ _. self.new ≡ record self.old {
          session = self.new.session;
          reply = self.new.reply;
        }) }
        ensures unasked { OnErr result (self.new ≡ self.old) }
        ensures no_server { OnErr result (server.new ≡ server.old) }
    {
        let Some(letter) = self.waiting.in_hand() else {
            unreachable!()
        };
        self.text.clear();
        letter.write_message(&mut self.text)?;
        let kept = self.session.take();
        let submitted = submit(
            letter,
            kept,
            &self.host,
            &self.text,
            &mut self.reply,
            server,
        );
        self.session = submitted.session;
        Ok(submitted.fault)
    }

    /// What an outcome says of the letter in hand.
    fn verdict(&self, fault: &Option<HandInFault>, now: u64) -> Verdict
        ensures { result ≡ verdict_in self.now.waiting now self.now.give_up fault.now }
    {
        match verdict_of(fault) {
            Verdict::PutOff if self.waiting.is_given_up(now, self.give_up) => {
                Verdict::RefusedForGood
            }
            verdict => verdict,
        }
    }

    /// Keeps the letter in hand if it is refused for good. If that fails, the letter is put off.
    fn keep_if_refused<K: RefusedLetters>(
        &self,
        verdict: Verdict,
        fault: &Option<HandInFault>,
        refused: &mut K,
    ) -> Verdict
        requires { is_some (letter_in_hand self.now.waiting) ≡ true }
        ensures { (letter : Waits T) → letter_in_hand self.now.waiting ≡ Some letter
            → KeepsRefused K.keeps refused.old refused.new (T.path_of letter.item)
            (T.message_of letter.item) (reason_of fault.now self.now.reply) verdict result }
    {
        match verdict {
            Verdict::RefusedForGood => self.keep(reason_of(fault, self.reply.bytes()), refused),
            _ => verdict,
        }
    }

    /// Keeps the letter in hand with this reason. If that fails, the letter is put off.
    fn keep<K: RefusedLetters>(&self, reason: &[u8], refused: &mut K) -> Verdict
        requires { is_some (letter_in_hand self.now.waiting) ≡ true }
        ensures { (letter : Waits T) → letter_in_hand self.now.waiting ≡ Some letter
            → KeepsRefused K.keeps refused.old refused.new (T.path_of letter.item)
            (T.message_of letter.item) reason.now RefusedForGood
            result }
    {
        let Some(letter) = self.waiting.in_hand() else {
            unreachable!()
        };
        match refused.keep(letter, reason) {
            Ok(()) => Verdict::RefusedForGood,
            Err(_) => Verdict::PutOff,
        }
    }

    /// Does with the letter in hand what its outcome says, and returns the verdict.
    fn conclude<K: RefusedLetters>(
        &mut self,
        fault: &Option<HandInFault>,
        refused: &mut K,
        now: u64,
    ) -> Verdict
        requires { is_some (letter_in_hand self.old.waiting) ≡ true }
        ensures kept { (letter : Waits T) → letter_in_hand self.old.waiting ≡ Some letter
            → KeepsRefused K.keeps refused.old refused.new (T.path_of letter.item)
            (T.message_of letter.item) (reason_of fault.now self.old.reply)
            (verdict_in self.old.waiting now self.old.give_up fault.now) result }
        ensures concluded { self.new
            ≡ record self.old { waiting = concluded self.old.waiting now result } }
    {
        let verdict = self.keep_if_refused(self.verdict(fault, now), fault, refused);
        conclude(&mut self.waiting, verdict, now);
        verdict
    }

    /// Has the letter with this serial kept as settled if the verdict settles it, and submits nothing
    /// any more if that fails.
    fn tell<M: Marks>(&mut self, serial: u64, verdict: Verdict, marks: &mut M)
        requires { self.old.stopped ≡ false }
        ensures told { TellsSettled M.settles marks.old marks.new (Some serial) verdict
            self.new.stopped }
        ensures same { self.new ≡ record self.old { stopped = self.new.stopped } }
    {
        if is_settled_by(verdict) {
            self.is_stopped = marks.settle(serial).is_err();
        }
    }

    /// Submits the letter in hand, and does with it what the outcome says.
    fn handle<C: Connect<S>, K: RefusedLetters, M: Marks>(
        &mut self,
        server: &mut C,
        refused: &mut K,
        marks: &mut M,
        now: u64,
    ) -> Result<Handled, NoMemory>
        requires hand { is_some (letter_in_hand self.old.waiting) ≡ true }
        requires going { self.old.stopped ≡ false }
        ensures handled { IfOk result (λ handled. (letter : Waits T)
            → letter_in_hand self.old.waiting ≡ Some letter
            → Handles S.Source S.Drain C.gives K.keeps M.settles self.old self.new server.old
            server.new refused.old refused.new marks.old marks.new
            (T.path_of letter.item) (T.message_of letter.item) now
            handled.fault handled.verdict) }
        ensures serial { IfOk result
            (λ handled. Some handled.serial ≡ serial_in_hand self.old.waiting) }
        ensures unasked { OnErr result ((self.new ≡ self.old) × (server.new ≡ server.old)) }
        ensures unkept { OnErr result ((refused.new ≡ refused.old) × (marks.new ≡ marks.old)) }
    {
        let Some(serial) = self.waiting().serial_in_hand() else {
            unreachable!()
        };
        let fault = match self.ask(server) {
            Ok(fault) => fault,
            Err(no_memory) => return Err(no_memory),
        };
        let verdict = self.conclude(&fault, refused, now);
        self.tell(serial, verdict, marks);
        Ok(Handled {
            serial,
            fault,
            verdict,
        })
    }

    /// Submits the letter that is to be submitted next, if there is one: the first that is due at
    /// `now`, unless the server isn't to be asked or a letter couldn't be kept as settled. Returns `None` if no
    /// letter is.
    ///
    /// An accepted letter is settled. One that the server puts off waits by itself, unless it is
    /// given up. If the server takes no letters, all wait. One that is refused for good, or given
    /// up, is settled once `refused` kept it, and is put off if that fails. `marks` keeps each letter
    /// that is settled; if that fails, nothing is submitted any more. Returns `NoMemory` if the
    /// message couldn't be written; then nothing was asked and nothing changes.
    pub fn step<C: Connect<S>, K: RefusedLetters, M: Marks>(
        &mut self,
        server: &mut C,
        refused: &mut K,
        marks: &mut M,
        now: u64,
    ) -> Result<Option<Handled>, NoMemory>
        ensures some { IfOk result (λ done. is_some done ≡ is_some (next_place self.old now)) }
        ensures handled { IfOk result (λ done. IfSome done (λ handled. (letter : Waits T)
            → letter_at self.old.waiting.letters (next_place self.old now) ≡ Some letter
            → Handles S.Source S.Drain C.gives K.keeps M.settles
            (with_next_taken self.old (next_place self.old now)) self.new server.old server.new refused.old
            refused.new marks.old marks.new
            (T.path_of letter.item) (T.message_of letter.item) now
            handled.fault handled.verdict)) }
        ensures serial { IfOk result (λ done. IfSome done (λ handled. Some handled.serial
            ≡ serial_in_hand (taken self.old.waiting (next_place self.old now)))) }
        ensures idle { IfOk result (λ done. IfNone done
            ((self.new ≡ self.old) × (server.new ≡ server.old))) }
        ensures none_kept { IfOk result (λ done. IfNone done
            ((refused.new ≡ refused.old) × (marks.new ≡ marks.old))) }
        ensures unasked { OnErr result ((self.new ≡ self.old) × (server.new ≡ server.old)) }
        ensures unkept { OnErr result ((refused.new ≡ refused.old) × (marks.new ≡ marks.old)) }
    {
        if !self.take(now) {
            return Ok(None);
        }
        match self.handle(server, refused, marks, now) {
            Ok(handled) => Ok(Some(handled)),
            Err(no_memory) => {
                self.waiting.give_back();
                Err(no_memory)
            }
        }
    }
}

/// Whether a verdict settles its letter.
fn is_settled_by(verdict: Verdict) -> bool
    ensures { result ≡ is_settled_by verdict }
{
    matches!(verdict, Verdict::Accepted | Verdict::RefusedForGood)
}

/// Does with the letter in hand what the verdict says.
fn conclude<T: Drop>(waiting: &mut Waiting<T>, verdict: Verdict, now: u64)
    ensures { waiting.new ≡ concluded waiting.old now verdict }
{
    match verdict {
        Verdict::Accepted | Verdict::RefusedForGood => waiting.settle(),
        Verdict::PutOff => waiting.put_off(now),
        Verdict::ServerAway => waiting.server_away(now),
    }
}

/// Submits a letter with this message over the session that is kept, or over a new one.
fn submit<T: Mail, S: Stream + Drop, C: Connect<S>>(
    letter: &T,
    kept: Option<Session<S>>,
    host: &MtaName,
    message: &[u8],
    reply: &mut ReplyBuffer,
    server: &mut C,
) -> HandedIn<S>
    ensures { AsksOnce S.Source S.Drain C.gives server.old server.new kept result.session host.now
        (T.path_of letter.now) message.now reply.old reply.new result.fault }
{
    let submission = Submission {
        path: letter.path(),
        message,
    };
    let HandedIn { session, fault } = hand_in_over(server, kept, host, &submission, reply);
    HandedIn {
        session: going_on(session),
        fault,
    }
}

/// The session, if there is one and it may be used again. Otherwise it is ended with QUIT.
fn going_on<S: Stream + Drop>(session: Option<Session<S>>) -> Option<Session<S>>
    ensures { LeavesSession S.Source S.Drain session result }
{
    match session {
        Some(session) if session.may_go_on() => Some(session),
        Some(session) => {
            session.end();
            None
        }
        None => None,
    }
}
