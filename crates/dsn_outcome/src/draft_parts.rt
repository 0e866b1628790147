//! The fields of a draft as they are passed. Implements noticed-protocol(5).
ghost use Rattle.std.specs.Prelude.{◌≡◌, [], None, Some};
ghost use Rattle.dsn_outcome.specs.declared.returned.Returned.TheVariants.{Header};
ghost use Rattle.dsn_outcome.specs.declared.wording.Wording.TheVariants.{ByService};

use crate::returned::Returned;
use crate::wording::Wording;

/// The optional choices of a flush.
#[derive(Clone, Copy, Debug, PartialEq, Eq)]
pub struct Wishes {
    /// The expected number of outcomes in the log; `None` accepts any.
    pub expected: Option<u32>,
    /// What the header field holds, which is what the notice returns.
    pub returned: Returned,
    /// How the notice's words are chosen.
    pub wording: Wording,
}

impl Wishes {
    /// The defaults: any number of outcomes, a header, and words by the service.
    pub fn usual() -> Wishes
        ensures expected { result.expected ≡ None }
        ensures returned { result.returned ≡ Header }
        ensures wording { result.wording ≡ ByService }
    {
        Wishes {
            expected: None,
            returned: Returned::Header,
            wording: Wording::ByService,
        }
    }
}

/// The fields of a flush, except its moments. An empty return path is the null path (RFC 5321
/// section 4.5.5). An empty envelope id means a missing one.
#[derive(Clone, Copy)]
pub struct DraftParts<'a> {
    /// The address that the notice is sent to.
    pub return_path: &'a [u8],
    /// The sender's envelope id (RFC 3461 section 4.4).
    pub envelope_id: &'a [u8],
    /// The message's header, or the whole message.
    pub header: &'a [u8],
    /// The expected number of outcomes in the log; `None` accepts any.
    pub expected: Option<u32>,
    /// What the header field holds; `None` if its byte is unknown.
    pub returned: Option<Returned>,
    /// How the notice's words are chosen; `None` if its byte is unknown.
    pub wording: Option<Wording>,
    /// The extension fields of the message (RFC 3464 section 2.4): at most 8 lines, each ended by
    /// LF alone. A line is a name that begins with `X-`, a colon, a space and a value. Empty for
    /// none.
    pub extensions: &'a [u8],
}

impl<'a> DraftParts<'a> {
    /// These texts, with the defaults of [`Wishes::usual`] and no extension fields.
    pub fn usual(return_path: &'a [u8], envelope_id: &'a [u8], header: &'a [u8]) -> DraftParts<'a>
        ensures return_path { result.return_path.now ≡ return_path.now }
        ensures envelope_id { result.envelope_id.now ≡ envelope_id.now }
        ensures header { result.header.now ≡ header.now }
        ensures expected { result.expected ≡ None }
        ensures returned { result.returned ≡ Some Header }
        ensures wording { result.wording ≡ Some ByService }
        ensures extensions { result.extensions.now ≡ [] }
    {
        DraftParts {
            return_path,
            envelope_id,
            header,
            expected: None,
            returned: Some(Returned::Header),
            wording: Some(Wording::ByService),
            extensions: b"",
        }
    }
}
