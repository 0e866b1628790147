//! The lines of a message, or of its header, that a notice returns.
//! Implements RFC 5322 section 2.1.1 and noticed-notice(5).
ghost use Rattle.std.specs.Prelude.{◌≡◌, ◌+◌, ◌≤◌, ◌==◌, [], ◌∷◌, ◌++◌, codes, length, take, if◌then◌else◌};
ghost use Rattle.std.specs.Iterator.{YieldsFirstRef, item_count};
ghost use Rattle.std.specs.Str.Lines.{lines, strip_carriage_return};
ghost use Rattle.dsn_report.specs.Boundary.{header_lines, shown_byte};
ghost use Rattle.dsn_report.specs.inner.NoticeLines.{byte_shown, line_shown, lines_left};

use bstr::ByteSlice;

/// The length limit of a notice's line, in bytes without its CRLF (RFC 5322 section 2.1.1).
pub(crate) const LONGEST_LINE: usize = 998;

/// The space for a line of a notice with its CRLF, and for a dot before it.
pub(crate) const LINE_ROOM: usize = LONGEST_LINE + 3;

/// An iterator over the lines of a text without their line ends: all lines, or those before the
/// first empty one.
#[derive(Drop)]
pub(crate) struct ReturnedLines<'a> {
    /// The text from the next line on.
    pub(crate) rest: &'a [u8],
    /// Whether all lines are returned.
    pub(crate) whole: bool,
}

impl<'a> Iterator for ReturnedLines<'a> {
    type Item = &'a [u8];

    ghost next_gives = { YieldsFirstRef lines_left };

    ghost remaining = { item_count lines_left };

    fn next(&mut self) -> Option<&'a [u8]> {
        let (line, rest) = first_line(self.rest);
        // A line of spaces or tabs isn't empty, so it doesn't end the header.
        if line.is_empty() && (!self.whole || self.rest.is_empty()) {
            return None;
        }
        self.rest = rest;
        Some(line)
    }
}

/// Returns a text's first line without its line end, and the text after it. A line ends with LF, or
/// with CR and LF.
#[inline(always)]
#[tactic(auto, using(crate::proofs::Rules::header))]
pub(crate) fn first_line(text: &[u8]) -> (&[u8], &[u8])
    ensures header { header_lines text.now
        ≡ (if length result.0.now == 0 then [] else result.0.now ∷ header_lines result.1.now) }
    ensures lines { lines text.now
        ≡ (if length text.now == 0 then [] else result.0.now ∷ lines result.1.now) }
    ensures empty { length text.now ≡ 0 → length result.0.now ≡ 0 }
{
    match text.find_byte(b'\n') {
        // Of two CRs before LF, only the second belongs to the line end.
        Some(feed) => (without_carriage_return(&text[..feed]), &text[feed + 1..]),
        // A last line without LF keeps a final CR.
        None => (text, &text[text.len()..]),
    }
}

fn without_carriage_return(line: &[u8]) -> &[u8]
    ensures { result.now ≡ strip_carriage_return line.now }
{
    if !line.is_empty() && line[line.len() - 1] == b'\r' {
        &line[..line.len() - 1]
    } else {
        line
    }
}

/// Writes a dot, and then a line as a notice shows it, at the front of `shown`. Returns the line's
/// length in bytes. A line of a whole message is shown unchanged up to 998 bytes.
pub(crate) fn show_line(line: &[u8], whole: bool, shown: &mut [u8; LINE_ROOM]) -> usize
    ensures within { result ≤ LONGEST_LINE }
    ensures line { take (result + 1) shown.new ≡ codes "." ++ line_shown whole line.now }
{
    shown[0] = b'.';
    // The length is limited before the dot is put in front. Cutting and cleaning a line give the
    // same in either order.
    let len = line.len().min(LONGEST_LINE);
    for (index, byte) in line[..len].iter().enumerate() {
        shown[index + 1] = byte_shown(*byte, whole);
    }
    len
}

/// Writes a dot, and then a line as a notice shows it, with its CRLF, at the front of `shown`.
/// Returns what it wrote.
pub(crate) fn show_dotted_line<'a>(
    line: &[u8],
    whole: bool,
    shown: &'a mut [u8; LINE_ROOM],
) -> &'a [u8]
    ensures { result.now ≡ codes "." ++ line_shown whole line.now ++ codes "\r\n" }
{
    let len = show_line(line, whole, shown);
    shown[len + 1] = b'\r';
    shown[len + 2] = b'\n';
    &shown[..len + 3]
}

/// A byte as a notice shows it, in a whole message or in a header.
fn byte_shown(byte: u8, whole: bool) -> u8
    ensures { result ≡ byte_shown whole byte }
{
    if whole { byte } else { shown_byte(byte) }
}

/// A byte of a header as a notice shows it.
fn shown_byte(byte: u8) -> u8
    ensures { result ≡ shown_byte byte }
{
    match byte {
        b' '..=b'~' | b'\t' => byte,
        _ => b'?',
    }
}
