//! Why the file of a template is refused.
use thiserror::Error;

/// Why the file of a template is refused. If several faults apply, the first in this order is
/// returned.
#[derive(Clone, Copy, Debug, PartialEq, Eq, Error)]
pub enum TemplateFault {
    /// The file doesn't begin with the lines `Charset: `, `From: ` and `Subject: `, in this order,
    /// and an empty line.
    #[error("it does not begin with lines Charset, From and Subject and an empty line")]
    Layout,
    /// The charset is not a name of 1 to 40 bytes (RFC 2978 section 2.3).
    #[error("its Charset is not the name of a charset")]
    Charset,
    /// The value of From is not 1 to 989 bytes of printable ASCII.
    #[error("its From is not 1 to 989 bytes of printable ASCII")]
    From,
    /// The value of Subject is not 1 to 989 bytes of printable ASCII.
    #[error("its Subject is not 1 to 989 bytes of printable ASCII")]
    Subject,
    /// There is no text.
    #[error("it has no text")]
    NoText,
    /// The text has more than 32,768 bytes.
    #[error("its text has more than 32,768 bytes")]
    LongText,
    /// A line of the text has more than 998 bytes, a NUL, or a CR that is not part of its end.
    #[error("a line of its text has more than 998 bytes, a NUL or a CR")]
    Line,
    /// A line of the text begins with `--B.`, `--D.` or `--T.`, as delimiters do.
    #[error("a line of its text begins with --B., --D. or --T.")]
    Delimiter,
    /// The text has a byte above 127, and its charset is US-ASCII.
    #[error("its text has bytes above 127, and its Charset is us-ascii")]
    NotAscii,
    /// Memory for the template was refused.
    #[error("out of memory")]
    NoMemory,
}
