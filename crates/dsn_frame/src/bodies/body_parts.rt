//! The fields of a body before they are checked. Implements noticed-protocol(5).
use dsn_outcome::Types;

/// The head of a body. Its kind follows its version.
#[derive(Clone, Copy)]
pub(crate) struct HeadParts<'a> {
    /// The version.
    pub(crate) version: u8,
    /// The number on the connection, from 0.
    pub(crate) number: u32,
    /// The byte of the service.
    pub(crate) service: u8,
    /// The queue id of the message.
    pub(crate) id: &'a [u8],
}

/// The recipient's fields of an append. An empty text means that the text is absent.
#[derive(Clone, Copy)]
pub(crate) struct RecipientParts<'a> {
    /// The final recipient.
    pub(crate) recipient: &'a [u8],
    /// The recipient as the sender gave it.
    pub(crate) original: &'a [u8],
    /// The byte of the action.
    pub(crate) action: u8,
    /// The status code.
    pub(crate) status: &'a [u8],
    /// The remote system's name.
    pub(crate) mta: &'a [u8],
    /// What the remote system said.
    pub(crate) diagnostic: &'a [u8],
    /// The agent's own words for people.
    pub(crate) reason: &'a [u8],
}

/// The moments of an append of the second or third version, in seconds since 1970. [`NO_MOMENT`]
/// means that a moment is absent.
#[derive(Clone, Copy)]
pub(crate) struct RetryParts {
    /// The last attempt at delivery.
    pub(crate) last_attempt: u64,
    /// The end of further attempts at delivery.
    pub(crate) retry_until: u64,
}

/// The types and extension fields of an append of the third version.
#[derive(Clone, Copy)]
pub(crate) struct TypeParts<'a> {
    /// The types of its texts.
    pub(crate) types: Types<'a>,
    /// The extension fields, or the empty text.
    pub(crate) extensions: &'a [u8],
}

impl TypeParts<'_> {
    ghost use Rattle.std.specs.Prelude.{◌≡◌};
    ghost use Rattle.dsn_frame.specs.inner.BodyParts.{type_fields_in};
    ghost use Rattle.dsn_frame.specs.bodies.Request.{usual_types};

    /// Those of an append of an earlier version: the usual types, and no extension field.
    pub(crate) fn usual() -> TypeParts<'static>
        ensures { type_fields_in result ≡ usual_types }
    {
        TypeParts {
            types: Types::usual(),
            extensions: b"",
        }
    }
}

/// The number that means no moment.
pub(crate) const NO_MOMENT: u64 = u64::MAX;

/// The number that means any number of outcomes.
pub(crate) const ANY_COUNT: u32 = u32::MAX;

/// The fields of a flush. An empty text means that the text is absent.
#[derive(Clone, Copy)]
pub(crate) struct FlushParts<'a> {
    /// The time of the flush, in seconds since 1970.
    pub(crate) moment: u64,
    /// The arrival of the message, in seconds since 1970.
    pub(crate) arrival: u64,
    /// The return path.
    pub(crate) return_path: &'a [u8],
    /// The envelope id.
    pub(crate) envelope_id: &'a [u8],
    /// The header of the message that is returned.
    pub(crate) header: &'a [u8],
}

/// The further terms of a flush of the third version.
#[derive(Clone, Copy)]
pub(crate) struct WishParts<'a> {
    /// The number of outcomes that it expects; [`ANY_COUNT`] means any number.
    pub(crate) expected: u32,
    /// The byte that says what its header field holds.
    pub(crate) returned: u8,
    /// The byte that says how the notice is worded.
    pub(crate) wording: u8,
    /// The extension fields of the message, or the empty text.
    pub(crate) extensions: &'a [u8],
}

impl WishParts<'_> {
    ghost use Rattle.std.specs.Prelude.{◌≡◌};
    ghost use Rattle.dsn_frame.specs.inner.BodyParts.{wish_fields_in};
    ghost use Rattle.dsn_frame.specs.bodies.Request.{are_usual, usual_wishes};

    /// The further terms of a flush of an earlier version.
    pub(crate) fn usual() -> WishParts<'static>
        ensures { wish_fields_in result ≡ usual_wishes }
    {
        WishParts {
            expected: ANY_COUNT,
            returned: 0,
            wording: 0,
            extensions: b"",
        }
    }

    /// Whether an earlier version can express these terms.
    pub(crate) fn are_usual(self) -> bool
        ensures { result ≡ are_usual (wish_fields_in self.entry) }
    {
        self.expected == ANY_COUNT
            && self.returned == 0
            && self.wording == 0
            && self.extensions.is_empty()
    }
}

/// A body's fields.
#[derive(Clone, Copy)]
pub(crate) enum BodyParts<'a> {
    /// An outcome to be logged.
    Append(HeadParts<'a>, RecipientParts<'a>),
    /// An outcome to be logged, with its two moments.
    DatedAppend(HeadParts<'a>, RecipientParts<'a>, RetryParts),
    /// An outcome to be logged, with its two moments, the types of its texts, and its extension
    /// fields.
    TypedAppend(HeadParts<'a>, RecipientParts<'a>, RetryParts, TypeParts<'a>),
    /// A notice to be made.
    Flush(HeadParts<'a>, FlushParts<'a>),
    /// A notice to be made, with its further terms.
    CountedFlush(HeadParts<'a>, FlushParts<'a>, WishParts<'a>),
    /// A log to be dropped.
    Discard(HeadParts<'a>),
    /// A key to be released.
    Forget(HeadParts<'a>),
}

impl<'a> BodyParts<'a> {
    ghost use Rattle.std.specs.Prelude.{◌≡◌};
    ghost use Rattle.dsn_frame.specs.inner.BodyParts.{head_in, wire_body_in};
    ghost use Rattle.dsn_frame.specs.bodies.Wire.{head_of, kind_of};

    /// The head of the body.
    pub(crate) fn head(self) -> HeadParts<'a>
        ensures { head_in result ≡ head_of (wire_body_in self.entry) }
    {
        match self {
            BodyParts::Append(head, _)
            | BodyParts::DatedAppend(head, ..)
            | BodyParts::TypedAppend(head, ..)
            | BodyParts::Flush(head, _)
            | BodyParts::CountedFlush(head, ..)
            | BodyParts::Discard(head)
            | BodyParts::Forget(head) => head,
        }
    }

    /// The kind byte of the body.
    pub(crate) fn kind(self) -> u8
        ensures { result ≡ kind_of (wire_body_in self.entry) }
    {
        match self {
            BodyParts::Append(..) | BodyParts::DatedAppend(..) | BodyParts::TypedAppend(..) => 1,
            BodyParts::Flush(..) | BodyParts::CountedFlush(..) => 2,
            BodyParts::Discard(_) => 3,
            BodyParts::Forget(_) => 4,
        }
    }
}
