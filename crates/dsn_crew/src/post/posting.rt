//! The poster's thread.
ghost use Rattle.std.specs.Prelude.{◌≡◌, ◌≤◌, [], length, IfOk, IsSome};
ghost use Rattle.dsn_crew.specs.inner.LetterSource.{HasTaken};
ghost use Rattle.dsn_crew.specs.lane.Lane.{most_sent};
ghost use Rattle.dsn_crew.specs.post.Posting.{IsPosting};

use crate::lane::LaneGone;
use crate::post::letter_source::LetterSource;
use crate::post::outlet::Outlet;
use dsn_outcome::Letter;
use std::sync::Wait;

/// What the poster's thread gives back.
#[derive(Drop)]
pub struct Posting<O> {
    /// The outlet, which is not ended, with the letters that it couldn't pass on.
    pub outlet: O,
    /// How many letters came.
    pub handed: u32,
    /// The half by which they came, for the close.
    pub source: LetterSource,
    /// What the lane reported if it was lost; `None` if the end mark came.
    pub lost: Option<LaneGone>,
}

/// Passes the letters that come over a lane to an outlet, one after another, until the end mark comes
/// or the lane is lost. Between them it tends the outlet, unless that is idle. It calls nothing of an
/// idle outlet before the first letter. It takes no memory of its own.
pub(super) fn post_all<O: Outlet>(
    rt: &impl Wait,
    mut outlet: O,
    mut source: LetterSource,
) -> Posting<O>
    requires unused { source.letters ≡ [] }
    ensures { IsPosting O.Outlet outlet source.lane result }
{
    let mut handed = 0;
    for _ in rt.forever() {
        match next_letter(rt, &outlet, &mut source) {
            Ok(Some(letter)) => {
                outlet.hand(letter);
                handed += 1;
            }
            Ok(None) if source.has_ended() => {
                return Posting {
                    outlet,
                    handed,
                    source,
                    lost: None,
                };
            }
            Ok(None) => outlet.tend(),
            Err(gone) => {
                return Posting {
                    outlet,
                    handed,
                    source,
                    lost: Some(gone),
                };
            }
        }
    }
    unreachable!()
}

/// Takes the next letter, and waits for it only if the outlet is idle: another one has letters to try
/// again.
fn next_letter<O: Outlet>(
    rt: &impl Wait,
    outlet: &O,
    source: &mut LetterSource,
) -> Result<Option<Letter>, LaneGone>
    ensures taken { HasTaken source.old source.new result }
    ensures few { IfOk result
        (λ letter. IsSome letter → length source.new.letters ≤ most_sent) }
{
    if outlet.is_idle() {
        source.take(rt)
    } else {
        source.take_waiting(rt)
    }
}
