//! What a program is notified of while letters are submitted, so that it can log and count them.
use dsn_outcome::Letter;
use dsn_submission::Handled;

/// An observer of submissions, which no contract mentions.
pub trait Submissions {
    /// A letter is submitted next. It may be gone afterwards.
    fn begins(&mut self, letter: &Letter);

    /// That letter was submitted: the server's last reply, with its code and all its lines.
    fn handled(&self, handled: &Handled, reply: &[u8]);

    /// So many letters wait now.
    fn waits(&self, letters: usize);

    /// No further letter is submitted, since one couldn't be kept as settled.
    fn stopped(&self);

    /// A letter isn't submitted in this run, since memory was refused for it or for an earlier one.
    fn dropped(&self, letter: &Letter);
}
