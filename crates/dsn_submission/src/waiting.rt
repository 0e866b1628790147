//! Letters that wait for a mail server: which one is submitted next, when it is tried again, and
//! up to which one all are settled.
//! Implements RFC 5321 section 4.5.4.1, with this project's intervals.
ghost use Rattle.std.specs.Prelude.{◌≡◌, ℕ, ◌<◌, ◌≤◌, None, Some, [], ◌∷◌, ◌++◌, ◌==◌, length, drop, is_some, slice_set, IfErr, OnErr, OnOk};
ghost use Rattle.std.specs.List.{position};
ghost use Rattle.std.specs.Option.{option_copied, option_map};
ghost use Rattle.dsn_submission.specs.inner.Waiting.{earlier_due, least_due};
ghost use Rattle.dsn_submission.specs.Waiting.{IsQueue, due_place, empty_queue, given_back, serial_in_hand, is_due, is_given_up, is_reached, item_of, letter_at, letter_in_hand, new_letter, next_serial, put_off, put_off_letter, pushed, pushed_settled, server_away, settled, settled_front, taken};

use crate::delay::{delay, later};
use dsn_text::NoMemory;
use std::alloc::Global;
use std::collections::VecDeque;
use std::marker::Model;

/// The longest time between two attempts at one letter, in milliseconds: 30 minutes.
const LONGEST_LETTER_WAIT: u32 = 1_800_000;

/// The longest time between two attempts at a server that doesn't answer, in milliseconds: 5
/// minutes.
const LONGEST_SERVER_WAIT: u32 = 300_000;

/// A letter that waits. Moments are in milliseconds since the beginning of the run.
#[derive(Drop)]
pub struct Waits<T> {
    /// The letter.
    pub item: T,
    /// How many times it was put off; the count stops at `u64::MAX`.
    pub tries: u64,
    /// When it came.
    pub since: u64,
    /// From when on it may be submitted.
    pub due: u64,
}

/// Letters that wait for a mail server. They have consecutive serials in the order in which they
/// come. The mark is the serial of the first that isn't settled.
#[derive(Drop)]
pub struct Waiting<T> {
    mark: u64,
    /// The letters from the mark on; `None` for one that is settled.
    letters: VecDeque<Option<Waits<T>>>,
    /// The place of the letter that is being submitted.
    in_hand: Option<usize>,
    /// How many times the server didn't answer, since it last did.
    failures: u64,
    /// From when on the server may be asked again.
    opens: u64,
}

impl<T> Model for Waiting<T> {
    ghost use Rattle.dsn_submission.specs.Waiting.{IsQueue, Queue};

    ghost Value = { Queue T };

    ghost use Rattle.dsn_submission.specs.inner.Waiting.{IsWaiting, queue_of};

    ghost view = { queue_of };

    ghost invariant = { IsWaiting };
}

impl<T: Drop> Waiting<T> {
    /// No letters. The first that comes has the serial `mark`.
    pub fn new(alloc: Global, mark: u64) -> Waiting<T>
        ensures { result ≡ empty_queue mark }
    {
        Waiting {
            mark,
            letters: VecDeque::new(alloc),
            in_hand: None,
            failures: 0,
            opens: 0,
        }
    }

    /// The serial of the first letter that isn't settled.
    pub fn mark(&self) -> u64
        ensures mark { result ≡ self.now.mark }
        ensures sound { IsQueue self.now }
    {
        self.mark
    }

    /// Whether no letter waits.
    pub fn is_empty(&self) -> bool
        ensures { result ≡ (length self.now.letters == 0) }
    {
        self.letters.is_empty()
    }

    /// Adds a letter that came at `now`. Returns it if memory for it was refused, or if its serial
    /// would be above 18,446,744,073,709,551,614; then nothing changes.
    pub fn push(&mut self, item: T, now: u64) -> Result<(), T>
        ensures ok { OnOk result (self.new ≡ pushed self.old item now) }
        ensures refused { IfErr result (λ back. back ≡ item) }
        ensures unchanged { IfErr result (λ _. self.new ≡ self.old) }
    {
        if self.letters.len() as u64 >= u64::MAX - self.mark {
            return Err(item);
        }
        push_letter(&mut self.letters, item, now)
    }

    /// The serial of the letter that comes next.
    pub fn next_serial(&self) -> u64
        ensures serial { result ≡ next_serial self.now }
        ensures sound { IsQueue self.now }
    {
        self.mark + self.letters.len() as u64
    }

    /// Adds a letter that is settled already, of which nothing is held. Returns `NoMemory` if memory
    /// was refused, or if its serial would be above 18,446,744,073,709,551,614; then nothing changes.
    pub fn push_settled(&mut self) -> Result<(), NoMemory>
        ensures ok { OnOk result (self.new ≡ pushed_settled self.old) }
        ensures unchanged { OnErr result (self.new ≡ self.old) }
    {
        if self.letters.len() as u64 >= u64::MAX - self.mark {
            return Err(NoMemory);
        }
        match push_settled(&mut self.letters) {
            Ok(()) => {
                self.mark += drop_settled(&mut self.letters);
                Ok(())
            }
            Err(no_memory) => Err(no_memory),
        }
    }

    /// Takes the first letter that is due in hand, and returns whether one is due. None is due
    /// while another is in hand, and while the server isn't to be asked.
    pub fn take_due(&mut self, now: u64) -> bool
        ensures found { result ≡ is_some (due_place self.old now) }
        ensures taken { self.new ≡ taken self.old (due_place self.old now) }
    {
        match self.due_place(now) {
            Some(place) => {
                self.in_hand = Some(place);
                true
            }
            None => false,
        }
    }

    /// The first letter that is due at `now`, unless another is in hand or the server isn't to be
    /// asked.
    pub fn next_due(&self, now: u64) -> Option<&T>
        ensures { option_copied result
            ≡ option_map item_of (letter_at self.now.letters (due_place self.now now)) }
    {
        match self.letters.get(self.due_place(now)?) {
            Some(Some(letter)) => Some(&letter.item),
            _ => None,
        }
    }

    /// The place of the letter that is to be submitted next.
    fn due_place(&self, now: u64) -> Option<usize>
        ensures { result ≡ due_place self.now now }
    {
        if self.in_hand.is_some() || now < self.opens {
            return None;
        }
        first_due(&self.letters, now)
    }

    /// The letter in hand.
    pub fn in_hand(&self) -> Option<&T>
        ensures { option_copied result ≡ option_map item_of (letter_in_hand self.now) }
    {
        match self.letters.get(self.in_hand?) {
            Some(Some(letter)) => Some(&letter.item),
            _ => None,
        }
    }

    /// The serial of the letter in hand.
    pub fn serial_in_hand(&self) -> Option<u64>
        ensures { result ≡ serial_in_hand self.now }
    {
        match self.in_hand {
            Some(place) => Some(self.mark + place as u64),
            None => None,
        }
    }

    /// Returns the letter in hand to its place, as if it wasn't taken.
    pub fn give_back(&mut self)
        ensures { self.new ≡ given_back self.old }
    {
        self.in_hand = None;
    }

    /// Settles the letter in hand. The mark rises past it if all letters before it are settled. The
    /// server answered, so it is asked again at once.
    pub fn settle(&mut self)
        ensures { self.new ≡ settled self.old }
    {
        let Some(place) = self.in_hand else {
            return;
        };
        self.in_hand = None;
        self.failures = 0;
        set_letter(&mut self.letters, place, None);
        self.mark += drop_settled(&mut self.letters);
    }

    /// Puts the letter in hand off: it is due again after 1 second, and later after 2, 4, .. seconds,
    /// up to 30 minutes. The others don't wait for it.
    pub fn put_off(&mut self, now: u64)
        ensures { self.new ≡ put_off self.old now }
    {
        let Some(place) = self.in_hand else {
            return;
        };
        self.in_hand = None;
        self.failures = 0;
        put_letter_off(&mut self.letters, place, now);
    }

    /// Returns the letter in hand to its place, since the server doesn't answer. No letter is due for
    /// 1 second, and later for 2, 4, .. seconds, up to 5 minutes.
    pub fn server_away(&mut self, now: u64)
        ensures { self.new ≡ server_away self.old now }
    {
        self.in_hand = None;
        self.opens = later(now, delay(LONGEST_SERVER_WAIT, self.failures));
        self.failures = self.failures.saturating_add(1);
    }

    /// The moment from which on a letter is due, if nothing happens before: 0 if one is due now.
    /// Returns `None` if no letter waits or one is in hand.
    pub fn next_moment(&self) -> Option<u64>
        ensures { (now : ℕ) → is_some (due_place self.now now) ≡ is_reached result now }
    {
        if self.in_hand.is_some() {
            return None;
        }
        match least_due(&self.letters) {
            Some(due) => Some(due.max(self.opens)),
            None => None,
        }
    }

    /// Whether the letter in hand was put off at least once, and came `limit` milliseconds ago or
    /// earlier.
    pub fn is_given_up(&self, now: u64, limit: u64) -> bool
        ensures { result ≡ is_given_up self.now now limit }
    {
        let Some(place) = self.in_hand else {
            return false;
        };
        match self.letters.get(place) {
            Some(Some(letter)) => letter.tries > 0 && now.saturating_sub(letter.since) >= limit,
            _ => false,
        }
    }
}

/// The place of the first letter that is due.
fn first_due<T>(letters: &VecDeque<Option<Waits<T>>>, now: u64) -> Option<usize>
    ensures { result ≡ position (is_due now) letters.now.items }
{
    letters.iter().position(|letter| is_due(letter, now))
}

/// The earliest moment at which a letter is due, if one waits.
fn least_due<T>(letters: &VecDeque<Option<Waits<T>>>) -> Option<u64>
    ensures { result ≡ least_due letters.now.items }
{
    letters.iter().fold(None, earlier_due)
}

/// The earlier of a moment and that at which a letter is due.
fn earlier_due<T>(least: Option<u64>, letter: &Option<Waits<T>>) -> Option<u64>
    ensures { result ≡ earlier_due least letter.now }
{
    match (least, letter) {
        (least, None) => least,
        (None, Some(letter)) => Some(letter.due),
        (Some(least), Some(letter)) => Some(least.min(letter.due)),
    }
}

/// Whether a letter waits that is due.
fn is_due<T>(letter: &Option<Waits<T>>, now: u64) -> bool
    ensures { result ≡ is_due now letter.now }
{
    match letter {
        Some(letter) => letter.due <= now,
        None => false,
    }
}

/// Adds a letter, last. Returns it if memory for it was refused.
fn push_letter<T: Drop>(
    letters: &mut VecDeque<Option<Waits<T>>>,
    item: T,
    now: u64,
) -> Result<(), T>
    ensures ok { OnOk result (letters.new.items ≡ letters.old.items ++ Some (new_letter item now) ∷ []) }
    ensures refused { IfErr result (λ back. back ≡ item) }
    ensures unchanged { IfErr result (λ _. letters.new.items ≡ letters.old.items) }
{
    let letter = Waits {
        item,
        tries: 0,
        since: now,
        due: 0,
    };
    match letters.push_back(Some(letter)) {
        Ok(()) => Ok(()),
        Err(refused) => match refused.value {
            Some(letter) => Err(letter.item),
            None => unreachable!(),
        },
    }
}

/// Adds a letter that is settled, last.
fn push_settled<T: Drop>(letters: &mut VecDeque<Option<Waits<T>>>) -> Result<(), NoMemory>
    ensures ok { OnOk result (letters.new.items ≡ letters.old.items ++ None ∷ []) }
    ensures unchanged { OnErr result (letters.new.items ≡ letters.old.items) }
{
    match letters.push_back(None) {
        Ok(()) => Ok(()),
        Err(_) => Err(NoMemory),
    }
}

/// Replaces the letter at a place, which must be there.
fn set_letter<T: Drop>(
    letters: &mut VecDeque<Option<Waits<T>>>,
    place: usize,
    letter: Option<Waits<T>>,
)
    requires { place < length letters.old.items }
    ensures { letters.new.items ≡ slice_set letters.old.items place letter }
{
    letters[place] = letter;
}

/// Puts off the letter at a place, which must be there.
fn put_letter_off<T: Drop>(letters: &mut VecDeque<Option<Waits<T>>>, place: usize, now: u64)
    requires { place < length letters.old.items }
    ensures { letters.new.items ≡ slice_set letters.old.items place
        (option_map (put_off_letter now) (letter_at letters.old.items (Some place))) }
{
    if let Some(letter) = &mut letters[place] {
        letter.due = later(now, delay(LONGEST_LETTER_WAIT, letter.tries));
        letter.tries = letter.tries.saturating_add(1);
    }
}

/// Removes the letters that are settled, from the first on, and returns how many there were.
fn drop_settled<T: Drop>(letters: &mut VecDeque<Option<Waits<T>>>) -> u64
    ensures count { result ≡ settled_front letters.old.items }
    ensures rest { letters.new.items ≡ drop (settled_front letters.old.items) letters.old.items }
{
    let settled = count_settled(letters);
    for _ in 0..settled {
        let _ = letters.pop_front();
    }
    settled as u64
}

/// How many letters are settled, from the first on.
fn count_settled<T>(letters: &VecDeque<Option<Waits<T>>>) -> usize
    ensures count { result ≡ settled_front letters.now.items }
    ensures within { result ≤ length letters.now.items }
{
    letters.iter().take_while(|letter| letter.is_none()).count()
}
