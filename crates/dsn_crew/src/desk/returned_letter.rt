//! A letter that a sink returns.
ghost use Rattle.std.specs.Prelude.{◌≡◌, OnOk, IfErr};

use crate::post::Sink;
use dsn_outcome::Letter;
use std::sync::Wait;

/// A sink returned a letter. Only [`offer`] makes it, so whoever shows one has asked a sink.
#[derive(Clone, Copy, Debug, Drop, PartialEq, Eq)]
pub(crate) struct HandedBack {
    asked: (),
}

/// A letter that a sink returned.
#[derive(Drop)]
pub(crate) struct ReturnedLetter {
    pub(crate) letter: Letter,
    pub(crate) evidence: HandedBack,
}

/// Passes a letter to a sink.
pub(crate) fn offer<K: Sink>(
    rt: &impl Wait,
    sink: &mut K,
    letter: Letter,
) -> Result<(), ReturnedLetter>
    ensures ok { OnOk result (K.takes sink.old letter sink.new) }
    ensures lost { IfErr result (λ back. (back.letter ≡ letter) × (sink.new ≡ sink.old)) }
{
    match sink.hand(rt, letter) {
        Ok(()) => Ok(()),
        Err(letter) => Err(ReturnedLetter {
            letter,
            evidence: HandedBack { asked: () },
        }),
    }
}
