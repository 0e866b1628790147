//! The laws of a mail outlet, stated as the contracts of functions that do nothing themselves.
ghost use Rattle.std.specs.Prelude.{◌≡◌, ℕ, List};
ghost use Rattle.dsn_hand_in.specs.JournalMarks.{journal_marks};
ghost use Rattle.dsn_hand_in.specs.MailLaws.{AreSettledOnce, AreUnsettled, BeginsMarked, HavePlaces, IsMeant, BeginsEmpty, LeavesSettled};
ghost use Rattle.dsn_hand_in.specs.MailOutlet.{MailDeed, MailOutlet, Course};
ghost use Rattle.dsn_journal.specs.Marks.{Marks as MarkJournal};
ghost use Rattle.dsn_outcome.specs.Letter.{Letter};

use crate::sited_letter::SitedLetter;
use dsn_device::Stream;
use dsn_journal::Replaceable;
use dsn_smtp::Connect;
use dsn_submission::{Marks, RefusedLetters, letters_keep_their_places};

/// After every course from an outlet to which no letter was passed: each letter has exactly one
/// place, unless it was dropped since memory was refused for it or for an earlier one.
pub fn outlet_keeps_letters<'s, S: Stream, C: Connect<S>, K: RefusedLetters, M: Marks>()
    ensures { (mark : ℕ) (start now : MailOutlet S C K M) (letters : List Letter)
        (deeds : List (MailDeed S.Source S.Drain C.gives K.keeps M.Marks))
        → BeginsEmpty mark start → Course S.Source S.Drain C.gives K.keeps M.Marks start letters deeds now
        → HavePlaces mark start now letters }
{
    letters_keep_their_places::<SitedLetter<'s>>();
}

/// After every such course: each letter that is settled was settled before it, or by one deed, which
/// submitted that letter, and isn't submitted again after it. No deed settled a letter that waits, or
/// submitted one that was settled before. In a deed that
/// accepts its letter the server accepted it without a fault; one that refuses its letter for good
/// kept it with the reason.
pub fn only_deeds_settle<'s, S: Stream, C: Connect<S>, K: RefusedLetters, M: Marks>()
    ensures settled { (mark : ℕ) (start now : MailOutlet S C K M) (letters : List Letter)
        (deeds : List (MailDeed S.Source S.Drain C.gives K.keeps M.Marks))
        → BeginsEmpty mark start → Course S.Source S.Drain C.gives K.keeps M.Marks start letters deeds now
        → AreSettledOnce S.Source S.Drain C.gives K.keeps M.Marks mark start now letters deeds }
    ensures waiting { (mark : ℕ) (start now : MailOutlet S C K M) (letters : List Letter)
        (deeds : List (MailDeed S.Source S.Drain C.gives K.keeps M.Marks))
        → BeginsEmpty mark start → Course S.Source S.Drain C.gives K.keeps M.Marks start letters deeds now
        → AreUnsettled S.Source S.Drain C.gives K.keeps M.Marks start now deeds }
    ensures meant { (deed : MailDeed S.Source S.Drain C.gives K.keeps M.Marks)
        → IsMeant S.Source S.Drain C.gives K.keeps M.Marks deed }
{}

/// After every such course of an outlet whose settled letters are kept in a journal: a crash at any
/// moment leaves only letters that were settled, by this outlet or before it. A crash now leaves all of
/// them, unless one couldn't be kept.
pub fn crashes_count_only_settled<'s, S: Stream, C: Connect<S>, K: RefusedLetters, D: Replaceable>()
    ensures { (mark : ℕ) (start now : MailOutlet S C K (MarkJournal D)) (letters : List Letter)
        (deeds : List (MailDeed S.Source S.Drain C.gives K.keeps (journal_marks D.Disk)))
        → BeginsEmpty mark start → BeginsMarked D.Disk mark start
        → Course S.Source S.Drain C.gives K.keeps (journal_marks D.Disk) start letters deeds now
        → LeavesSettled D.Disk start now }
{}
