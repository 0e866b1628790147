//! The state of reading a list of attributes whose bytes come in pieces.
//! Implements docs/postfix-internals.md, "What Postfix's programs send".
ghost use Rattle.std.specs.Prelude.{◌≡◌};
ghost use Rattle.dsn_postfix.specs.inner.ListState.{IsStepWithin, state_after, step_over};

/// The state before the next byte of a list.
#[derive(Clone, Copy)]
pub(crate) enum ListState {
    /// In front of a name, or of the byte that ends the list.
    Front,
    /// Within a name.
    Name,
    /// Within a value.
    Value,
}

/// The result of a piece.
#[derive(Clone, Copy)]
pub(crate) enum ListStep {
    /// The list ends with this number of bytes of the piece, at least 1.
    Ended(usize),
    /// The list goes on after the piece, in this state.
    Within(ListState),
}

impl ListState {
    /// The state after a byte; `None` if that byte ends the list.
    fn after(self, byte: u8) -> Option<ListState>
        ensures { result ≡ state_after self byte }
    {
        match self {
            ListState::Front if byte == 0 => None,
            ListState::Name if byte == 0 => Some(ListState::Value),
            ListState::Value if byte == 0 => Some(ListState::Front),
            ListState::Front | ListState::Name => Some(ListState::Name),
            ListState::Value => Some(ListState::Value),
        }
    }

    /// The result of a piece in this state.
    pub(crate) fn step_over(self, piece: &[u8]) -> ListStep
        ensures step { result ≡ step_over self piece.now }
        ensures within { IsStepWithin result piece.now }
    {
        let mut state = self;
        let mut rest = piece;
        while let [byte, after @ ..] = rest {
            match state.after(*byte) {
                Some(next) => state = next,
                None => return ListStep::Ended(piece.len() - after.len()),
            }
            rest = after;
        }
        ListStep::Within(state)
    }
}
