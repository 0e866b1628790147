//! An outlet of a crew's letters that submits them to a mail server. The poster's thread pushes
//! each letter and submits while no letter waits in its lane, so a server that is away delays no
//! request. A letter that waits is also in the journal of requests, and the next start submits it
//! again.
ghost use Rattle.std.specs.Prelude.{◌≡◌, ◌≤◌, ◌+◌, ◌&&◌, None, List, [], ◌∷◌, ◌++◌, false, true, not};
ghost use Rattle.dsn_hand_in.specs.MailOutlet.{EndsAfter, Passes, AddsToWaiting};
ghost use Rattle.dsn_submission.specs.Waiting.{next_serial};

use crate::mail_parts::MailParts;
use crate::run_clock::RunClock;
use crate::sited_letter::SitedLetter;
use crate::submissions::Submissions;
use dsn_crew::Outlet;
use dsn_device::Stream;
use dsn_outcome::{Letter, Letters};
use dsn_report::{OutboxEnd, Site};
use dsn_smtp::Connect;
use dsn_submission::{Handled, Marks, RefusedLetters, Verdict};
use dsn_text::NoMemory;
use std::marker::Model;
use std::time::Clock;

/// How many letters wait in the lane at most: as many as a lane may hold, so that the collector
/// rarely waits for a submission.
const LETTERS_WAITING: u32 = 16_384;

/// A session in which nothing was submitted for this number of milliseconds is ended.
const LONGEST_IDLE: u64 = 2_000;

/// The longest pause between two looks at the lane, in milliseconds: with a session, and without
/// one.
const SHORT_PAUSE: u64 = 1;

const LONG_PAUSE: u64 = 50;

/// How long the letters that are due at the end are submitted, in milliseconds.
const LONGEST_END: u64 = 10_000;

/// Letters that wait for a mail server, and their submission.
///
/// A letter for which memory is refused isn't submitted in this run, nor is a later one: the
/// serials of those that wait are consecutive, and the mark counts by them.
#[derive(Drop)]
pub struct MailOutlet<'s, 'r, S: Stream, C, K, M, W, R> {
    site: &'s Site,
    parts: MailParts<'s, S, C, K, M>,
    /// Whether memory for a letter was refused.
    is_short: bool,
    /// How many letters wait.
    waiting: usize,
    /// When a letter was last submitted, if a session may be kept since.
    used: Option<u64>,
    watcher: W,
    clock: RunClock<'r, R>,
}

impl<'s, 'r, S: Stream, C, K, M, W, R> Model for MailOutlet<'s, 'r, S, C, K, M, W, R> {
    ghost use Rattle.dsn_hand_in.specs.MailOutlet.{MailOutlet};

    ghost Value = { MailOutlet S C K M };

    ghost view = { λ o. record { site = o.site.now; parts = o.parts; short = o.is_short } };
}

impl<
    's,
    'r,
    S: Stream + Drop,
    C: Connect<S> + Drop,
    K: RefusedLetters + Drop,
    M: Marks + Drop,
    W: Submissions + Drop,
    R: Clock,
> MailOutlet<'s, 'r, S, C, K, M, W, R> {
    /// An outlet with these parts, whose notices are from this mail system. Moments are those of
    /// the clock's run. The watcher is notified of each submission.
    pub fn new(
        site: &'s Site,
        parts: MailParts<'s, S, C, K, M>,
        watcher: W,
        clock: RunClock<'r, R>,
    ) -> Self
        ensures { result ≡ record { site = site.now; parts = parts.entry; short = false } }
    {
        MailOutlet {
            site,
            parts,
            is_short: false,
            waiting: 0,
            used: None,
            watcher,
            clock,
        }
    }

    /// Takes a letter. It waits for its submission from now on, unless an earlier run settled it, or
    /// memory was refused for it or for an earlier one.
    fn take(&mut self, letter: Letter)
        ensures { AddsToWaiting M.Marks self.old letter self.new }
    {
        if self.is_short {
            self.watcher.dropped(&letter);
            return;
        }
        let serial = self.parts.submitter.waiting().next_serial();
        if self.parts.marks.has_settled(serial) {
            self.take_settled(&letter);
        } else {
            self.take_unsettled(letter);
        }
    }

    /// Takes a letter that an earlier run settled.
    fn take_settled(&mut self, letter: &Letter)
        requires short { self.old.short ≡ false }
        requires known { M.has_settled self.old.parts.marks
            (next_serial self.old.parts.submitter.waiting) ≡ true }
        ensures { AddsToWaiting M.Marks self.old letter.now self.new }
    {
        match self.parts.submitter.push_settled() {
            Ok(()) => {}
            Err(_) => {
                self.watcher.dropped(letter);
                self.is_short = true;
            }
        }
    }

    /// Takes a letter that no run settled.
    fn take_unsettled(&mut self, letter: Letter)
        requires short { self.old.short ≡ false }
        requires unknown { M.has_settled self.old.parts.marks
            (next_serial self.old.parts.submitter.waiting) ≡ false }
        ensures { AddsToWaiting M.Marks self.old letter self.new }
    {
        let now = self.clock.moment();
        match self
            .parts
            .submitter
            .push(SitedLetter::new(self.site, letter), now)
        {
            Ok(()) => {
                self.waiting = self.waiting.saturating_add(1);
                self.watcher.waits(self.waiting);
            }
            Err(refused) => {
                self.watcher.dropped(refused.letter());
                self.is_short = true;
            }
        }
    }

    /// Submits the letter that is due at `now`, and returns whether one was. Returns `NoMemory` if
    /// its message couldn't be written; then it is still due.
    fn submit_due(&mut self, now: u64) -> Result<bool, NoMemory>
        ensures { Passes S.Source S.Drain C.gives K.keeps M.Marks self.old [] self.new }
    {
        let Some(next) = self.parts.submitter.next_letter(now) else {
            return Ok(false);
        };
        self.watcher.begins(next.letter());
        let parts = &mut self.parts;
        let Some(handled) = parts.submitter.step(
            &mut parts.server,
            &mut parts.refused,
            &mut parts.marks,
            now,
        )?
        else {
            return Ok(false);
        };
        self.report(&handled);
        self.used = Some(now);
        Ok(true)
    }

    /// Counts a letter that was submitted, and notifies the watcher.
    fn report(&mut self, handled: &Handled)
        ensures { self.new ≡ self.old }
    {
        if matches!(handled.verdict, Verdict::Accepted | Verdict::RefusedForGood) {
            self.waiting = self.waiting.saturating_sub(1);
        }
        let reply = self.parts.submitter.reply();
        self.watcher.handled(handled, reply);
        self.watcher.waits(self.waiting);
        if self.parts.submitter.is_stopped() {
            self.watcher.stopped();
        }
    }

    /// Ends the session, if one is kept.
    fn end_session(&mut self)
        ensures passed { Passes S.Source S.Drain C.gives K.keeps M.Marks self.old [] self.new }
        ensures closed { self.new.parts.submitter.session ≡ None }
        ensures stopped { self.new.parts.submitter.stopped ≡ self.old.parts.submitter.stopped }
        ensures short { self.new.short ≡ self.old.short }
    {
        self.parts.submitter.end_session();
        self.used = None;
    }

    /// Pauses while no letter is due, and ends a session that wasn't used for a while.
    fn pause(&mut self, now: u64)
        ensures { Passes S.Source S.Drain C.gives K.keeps M.Marks self.old [] self.new }
    {
        match self.used {
            Some(used) if now.saturating_sub(used) >= LONGEST_IDLE => self.end_session(),
            Some(_) => self.clock.sleep(SHORT_PAUSE),
            None => self.clock.sleep(self.pause_from(now)),
        }
    }

    /// How long to pause without a session, in milliseconds: until the next letter is due, and 1 to
    /// 50.
    fn pause_from(&self, now: u64) -> u64 {
        match self.parts.submitter.waiting().next_moment() {
            Some(moment) => moment.saturating_sub(now).clamp(SHORT_PAUSE, LONG_PAUSE),
            None => LONG_PAUSE,
        }
    }

    /// Submits the letters that are due, until none is or the clock reaches `until`.
    fn submit_until(&mut self, until: u64)
        ensures { Passes S.Source S.Drain C.gives K.keeps M.Marks self.old [] self.new }
    {
        for _ in 0..u64::MAX {
            let now = self.clock.moment();
            if now >= until {
                return;
            }
            match self.submit_due(now) {
                Ok(true) => {}
                _ => return,
            }
        }
    }

    /// Submits the letters that are due, and ends the session.
    fn end(&mut self)
        ensures passed { Passes S.Source S.Drain C.gives K.keeps M.Marks self.old [] self.new }
        ensures closed { self.new.parts.submitter.session ≡ None }
    {
        let until = self.clock.moment().saturating_add(LONGEST_END);
        self.submit_until(until);
        self.end_session();
    }

    /// Whether every letter that was passed to it waited for its submission or was settled, and each
    /// that was settled could be kept so.
    fn is_whole(&self) -> bool
        ensures { result ≡ (not self.now.parts.submitter.stopped && not self.now.short) }
    {
        !self.parts.submitter.is_stopped() && !self.is_short
    }

    /// Its parts.
    fn into_parts(self) -> MailParts<'s, S, C, K, M>
        ensures { result ≡ self.entry.parts }
    {
        let MailOutlet { parts, .. } = self;
        parts
    }
}

/// It submits each letter as soon as its server takes it, and keeps those that wait.
impl<
    's,
    'r,
    S: Stream + Drop + Send,
    C: Connect<S> + Drop + Send,
    K: RefusedLetters + Drop + Send,
    M: Marks + Drop + Send,
    W: Submissions + Drop,
    R: Clock,
> Outlet for MailOutlet<'s, 'r, S, C, K, M, W, R> {
    ghost use Rattle.dsn_crew.specs.lane.Lane.{most_waiting};
    ghost use Rattle.dsn_hand_in.specs.MailOutlet.{EndsAfter, IsLeftOf, Passes};

    type Left = MailParts<'s, S, C, K, M>;

    ghost posted = { Passes S.Source S.Drain C.gives K.keeps M.Marks };

    ghost ended = { EndsAfter S.Source S.Drain C.gives K.keeps M.Marks };

    ghost untouched = { IsLeftOf S.Source S.Drain C.gives K.keeps M.Marks };

    ghost room = { λ _. most_waiting };

    ghost unsent = { λ _. 0 };

    fn room(&self) -> u32 {
        LETTERS_WAITING
    }

    fn hand(&mut self, letter: Letter)
        ensures posted { (start : _) (letters : List _)
            → Passes S.Source S.Drain C.gives K.keeps M.Marks start letters self.old
            → Passes S.Source S.Drain C.gives K.keeps M.Marks start (letters ++ letter ∷ []) self.new }
        ensures unsent { 0 ≤ 0 + 1 }
        ensures unasked { AddsToWaiting M.Marks self.old letter self.new }
    {
        self.take(letter);
    }

    fn is_idle(&self) -> bool {
        self.used.is_none()
            && (self.parts.submitter.waiting().is_empty() || self.parts.submitter.is_stopped())
    }

    fn tend(&mut self) {
        let now = self.clock.moment();
        match self.submit_due(now) {
            Ok(true) => {}
            Ok(false) => self.pause(now),
            Err(_) => self.clock.sleep(LONG_PAUSE),
        }
    }

    fn finish(self) -> OutboxEnd<MailParts<'s, S, C, K, M>> {
        let mut outlet = self;
        outlet.end();
        OutboxEnd {
            whole: outlet.is_whole(),
            outbox: outlet.into_parts(),
            unsent: Letters::new(),
        }
    }

    fn into_left(self) -> MailParts<'s, S, C, K, M> {
        self.into_parts()
    }
}
