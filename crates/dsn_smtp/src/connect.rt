//! The source of new connections to a mail server.
use crate::hand_in_fault::HandInFault;

/// A mail server to which connections can be made.
pub trait Connect<S> {
    ghost use Rattle.std.specs.Prelude.{◌≡◌, IfErr, Result};
    ghost use Rattle.dsn_smtp.specs.declared.hand_in_fault.HandInFault.{HandInFault};
    ghost use Rattle.dsn_smtp.specs.declared.hand_in_fault.HandInFault.TheVariants.{Unheard};
    ghost use Rattle.dsn_smtp.specs.declared.hand_in_step.HandInStep.TheVariants.{Greeting};
    ghost use Rattle.dsn_smtp.specs.declared.reply_fault.ReplyFault.TheVariants.{Read};

    // The possible results of one `connect`, with the state before and after it. Each
    // implementation defines them, since no contract can describe what a socket does.
    ghost gives: { Self → Self → Result S HandInFault → Type 0 };

    /// Makes a new connection, over which nothing was sent or received. A connection that can't be
    /// made counts as a greeting that wasn't received: a server that is away refuses no notice.
    fn connect(&mut self) -> Result<S, HandInFault>
        ensures given { gives self.old self.new result }
        ensures unheard { IfErr result (λ why. why ≡ Unheard Greeting Read) };
}
