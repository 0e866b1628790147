//! An iterator over the lines of extension fields.
//! Implements RFC 3464 section 2.4.
ghost use Rattle.std.specs.Iterator.{YieldsFirstRef, item_count};
ghost use Rattle.dsn_report.specs.inner.NoticeLines.{extensions_left};

use dsn_text::first_ended_line;

/// The extension fields of a message or of a recipient (RFC 3464 section 2.4), each without its
/// final line feed.
#[derive(Drop)]
pub(crate) struct ExtensionLines<'a> {
    pub(crate) rest: &'a [u8],
}

impl<'a> Iterator for ExtensionLines<'a> {
    type Item = &'a [u8];

    ghost next_gives = { YieldsFirstRef extensions_left };

    ghost remaining = { item_count extensions_left };

    fn next(&mut self) -> Option<&'a [u8]> {
        let (line, rest) = first_ended_line(self.rest)?;
        self.rest = rest;
        Some(line)
    }
}
