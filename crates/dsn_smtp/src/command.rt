//! A step of a mail transaction, with the text that is sent at it.
ghost use Rattle.std.specs.Prelude.{◌≡◌};

use crate::hand_in_step::HandInStep;
use std::marker::Model;

/// The text that is sent at a step of a mail transaction, before its reply is received.
#[derive(Drop)]
pub(crate) struct Command<'a> {
    step: HandInStep,
    text: &'a [u8],
}

impl<'a> Model for Command<'a> {
    ghost use Rattle.dsn_smtp.specs.Command.{Command};

    ghost Value = { Command };

    ghost view = { λ c. record { step = c.step; text = c.text.now } };
}

impl<'a> Command<'a> {
    /// The command that sends this text at this step.
    pub(crate) fn new(step: HandInStep, text: &'a [u8]) -> Command<'a>
        ensures { result ≡ record { step = step; text = text.now } }
    {
        Command { step, text }
    }

    pub(crate) fn step(&self) -> HandInStep
        ensures { result ≡ self.now.step }
    {
        self.step
    }

    /// The text that is sent.
    pub(crate) fn text(&self) -> &[u8]
        ensures { result.now ≡ self.now.text }
    {
        self.text
    }
}
