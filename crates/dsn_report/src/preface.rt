//! How a notice begins: by the site's template, or in this project's own words.
//! Implements noticed-notice(5).
ghost use Rattle.std.specs.Prelude.{◌≡◌, ◌||◌, ℕ, List, None, Some};
ghost use Rattle.dsn_outcome.specs.declared.wording.Wording.{Wording};
ghost use Rattle.dsn_report.specs.inner.NoticeLines.{words_in};
ghost use Rattle.dsn_report.specs.inner.Preface.{IsPreface, IsPrefaceOf};

use crate::notice_wording::Words;
use crate::returned_text::ReturnedText;
use crate::site::Site;
use crate::template::Template;
use dsn_outcome::{Letter, Wording};

/// How a notice begins. With a template, only the descriptions of its words are in the notice.
#[derive(Clone, Copy)]
pub(crate) struct Preface<'a> {
    /// This project's own words.
    pub(crate) words: Words,
    /// The value of From, in pieces.
    pub(crate) sender: (&'a [u8], &'a [u8], &'a [u8]),
    /// The value of Subject.
    pub(crate) subject: &'a [u8],
    /// The charset of the part for people.
    pub(crate) charset: &'a [u8],
    /// Whether the part for people has a byte above 127.
    pub(crate) eight_bit: bool,
    /// The text of the template, if there is one.
    pub(crate) text: Option<&'a [u8]>,
    /// The wording by which each outcome is explained.
    pub(crate) explained: Wording,
}

impl<'a> Preface<'a> {
    /// The preface of a letter's notice.
    pub(crate) fn of(site: &'a Site, letter: &Letter) -> Preface<'a>
        ensures { IsPreface result site.now letter.now }
    {
        let words = Words::of(letter);
        match site.templates().of(letter) {
            Some(template) => Preface::from_template(template, words),
            None => Preface::own(site, words, letter.terms().wording()),
        }
    }

    /// The preface of a template.
    fn from_template(template: &'a Template, words: Words) -> Preface<'a>
        ensures { (host : List ℕ) (wording : Wording)
            → IsPrefaceOf result host (words_in words) wording (Some template.now) }
    {
        Preface {
            words,
            sender: (template.sender(), b"", b""),
            subject: template.subject(),
            charset: template.charset(),
            eight_bit: template.has_eight_bit_text(),
            text: Some(template.text()),
            explained: Wording::ByService,
        }
    }

    /// This project's own preface.
    fn own(site: &'a Site, words: Words, wording: Wording) -> Preface<'a>
        ensures { IsPrefaceOf result site.now.host (words_in words) wording None }
    {
        Preface {
            words,
            sender: (b"Mail Delivery System <MAILER-DAEMON@", site.host(), b">"),
            subject: words.subject,
            charset: b"us-ascii",
            eight_bit: false,
            text: None,
            explained: wording,
        }
    }
}

/// Whether a notice is an 8bit mail, which begins and returns lines in this way.
pub(crate) fn is_eight_bit(preface: Preface<'_>, returned: ReturnedText<'_>) -> bool
    ensures { result ≡ (preface.entry.eight_bit || returned.entry.eight_bit) }
{
    preface.eight_bit || returned.eight_bit
}
