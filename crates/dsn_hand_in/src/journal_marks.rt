//! The letters that are settled, kept in a journal of marks.
ghost use Rattle.std.specs.Prelude.{◌≡◌, is_ok, IfOk};
ghost use Rattle.dsn_hand_in.specs.JournalMarks.{KeepsSettled};

use dsn_device::Broken;
use dsn_journal::{MarkCount, MarkedLetters, Marks, Noted, Replaceable, settle};
use std::alloc::Global;
use std::marker::Model;

/// A journal of marks, and the count that is notified of each mark once it is durable. Contracts
/// see only the marks.
#[derive(Drop)]
pub struct JournalMarks<D: Replaceable, C> {
    marks: Marks<D>,
    count: C,
    alloc: Global,
}

impl<D: Replaceable, C> Model for JournalMarks<D, C> {
    ghost use Rattle.dsn_journal.specs.Marks.{Marks};

    ghost Value = { Marks D };

    ghost view = { λ m. m.marks };
}

impl<D: Replaceable, C: Drop> JournalMarks<D, C> {
    /// These marks, which notify this count. Requires that the count was notified of their mark:
    /// else it would wait for letters that are marked already.
    pub fn new(alloc: Global, marks: Marks<D>, count: C, _noted: Noted) -> JournalMarks<D, C>
        requires { _noted ≡ marks.mark }
        ensures { result ≡ marks }
    {
        JournalMarks {
            marks,
            count,
            alloc,
        }
    }

    /// The mark: how many letters are settled, those with the lowest serials.
    pub fn mark(&self) -> u64
        ensures { result ≡ self.now.mark }
    {
        self.marks.mark()
    }

    /// The marks without the count.
    pub fn into_marks(self) -> Marks<D>
        ensures { result ≡ self }
    {
        let JournalMarks {
            marks,
            count: _,
            alloc: _,
        } = self;
        marks
    }
}

impl<D: Replaceable, C: MarkCount> dsn_submission::Marks for JournalMarks<D, C> {
    ghost use Rattle.dsn_hand_in.specs.JournalMarks.{KeepsSettled, has_settled_in, keeps_others_settled};

    ghost settles = { KeepsSettled D.Disk };

    ghost has_settled = { has_settled_in };

    ghost keeps_others = { keeps_others_settled D.Disk };

    /// Keeps that the letter with this serial is settled, and notifies the count of the mark. Returns
    /// `Broken` if the marks aren't settled, if memory or room is refused, or if the disk fails. Then
    /// the count is notified that no further letter will be marked. The marks tell which it was: they
    /// are no longer settled only if the disk failed, which counts that.
    fn settle(&mut self, serial: u64) -> Result<(), Broken> {
        match settle_and_note(self.alloc, &mut self.marks, &self.count, serial) {
            Ok(_) => Ok(()),
            Err(broken) => {
                self.count.stop();
                Err(broken)
            }
        }
    }

    fn has_settled(&self, serial: u64) -> bool {
        self.marks.letters().is_settled(serial)
    }
}

/// Keeps that a letter is settled, as [`settle`] does, and notifies a count of the mark.
fn settle_and_note<D: Replaceable, C: MarkCount>(
    alloc: Global,
    marks: &mut Marks<D>,
    count: &C,
    serial: u64,
) -> Result<Noted, Broken>
    ensures kept { KeepsSettled D.Disk marks.old serial (is_ok result) marks.new }
    ensures noted { IfOk result (λ noted. noted ≡ marks.new.mark) }
{
    settle(alloc, marks, serial)?;
    Ok(count.note(MarkedLetters::of(marks)))
}
