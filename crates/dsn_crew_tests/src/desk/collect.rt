//! A collector that runs until its agents are gone, without a letter.
ghost use Rattle.std.specs.Prelude.{◌≡◌, List, true, IfSome};
ghost use Rattle.dsn_crew.specs.agents.Agent.{LaneHalves};
ghost use Rattle.dsn_crew.specs.desk.Close.{AreCrew};
ghost use Rattle.dsn_crew.specs.desk.Desk.{all_gone};

use dsn_crew::{Desk, Sink};
use dsn_outcome::Letter;
use std::sync::Wait;
use std::time::Clock;

/// A sink that takes no letter.
#[derive(Drop)]
struct NoLetters;

impl Sink for NoLetters {
    ghost takes = { λ _ _ _. Unit {0} };

    fn hand(&mut self, _rt: &impl Wait, letter: Letter) -> Result<(), Letter> {
        Err(letter)
    }
}

/// The collector once all its agents said goodbye.
pub(super) fn collect(rt: &(impl Wait + Clock), desk: Desk) -> Option<Desk>
    ensures gone { IfSome result (λ desk. all_gone desk ≡ true) }
    ensures crew { IfSome result (λ after. (crew : List LaneHalves) → AreCrew crew desk → AreCrew crew after) }
{
    let mut desk = desk;
    desk.run(rt, &mut NoLetters).ok()?;
    Some(desk)
}
