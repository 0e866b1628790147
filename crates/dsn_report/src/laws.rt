//! Laws of the notice of every letter, stated as contracts of functions that change nothing. They
//! read their arguments, since the invariant of a type is known only of a value that is read.
ghost use Rattle.std.specs.Prelude.{◌≡◌, false, All, IfSome, IsTrue};
ghost use Rattle.std.specs.List.{list_all};
ghost use Rattle.dsn_outcome.specs.Outcome.{IsLegalOutcome};
ghost use Rattle.dsn_text.specs.Optional.{is_none_or};
ghost use Rattle.dsn_text.specs.Text.{is_envelope_id};
ghost use Rattle.dsn_report.specs.Boundary.{returned_lines, returns_message};
ghost use Rattle.dsn_report.specs.Data.{ReceivesData, ReceivesNotice, ReceivesNotices};
ghost use Rattle.dsn_report.specs.Grammar.{EmptyLogLaw, ReportsOutcomes};
ghost use Rattle.dsn_report.specs.LegalLines.{HasLegalLines, is_legal_line};
ghost use Rattle.dsn_report.specs.Multipart.{DividesIntoParts};
ghost use Rattle.dsn_report.specs.Notice.{foreign_lines, is_eight_bit, notice_of};
ghost use Rattle.dsn_report.specs.Site.{AreTemplates, IsSite};
ghost use Rattle.dsn_report.specs.Template.{IsTemplate};
ghost use Rattle.dsn_report.specs.WellFormed.{IsWellFormed};

use crate::site::Site;
use crate::template::Template;
use crate::templates::Templates;
use dsn_outcome::Letter;

/// The receiver of a letter's mail transaction gets the notice once it removes the added dots.
pub fn dots_law(site: &Site, letter: &Letter)
    ensures { ReceivesNotice site.now letter.now }
{
    well_formed_law(site, letter);
}

/// The receiver of a letter's mail data gets the notice once it removes the added dots.
pub fn data_law(site: &Site, letter: &Letter)
    ensures { ReceivesData site.now letter.now }
{
    well_formed_law(site, letter);
}

/// The receiver of a whole outbox gets the notice of each of its letters, in order, and nothing
/// else.
pub fn outbox_law(site: &Site, letters: &[Letter])
    ensures { ReceivesNotices site.now letters.now }
{
    legal_site(site);
    well_formed_letters(site, letters);
}

/// A reader that divides a notice at its boundary gets its parts, with nothing before and nothing
/// after them.
pub fn division_law(site: &Site, letter: &Letter)
    ensures { DividesIntoParts site.now letter.now }
{
    well_formed_law(site, letter);
}

/// The second part of a notice, as a mail program finds it in the bytes, is a delivery status. It
/// has one group for each outcome.
pub fn grammar_law(site: &Site, letter: &Letter)
    ensures { ReportsOutcomes site.now letter.now }
{
    well_formed_law(site, letter);
}

/// A report without outcomes is not a delivery status, since the grammar requires a recipient's
/// group.
pub fn empty_log_law()
    ensures { EmptyLogLaw }
{}

/// A notice is lines that end with CRLF. Each has at most 998 bytes, none of them NUL, CR or LF. If
/// no line of its template and no returned line has a byte above 127, no line of the notice has
/// one, so it can be in a 7bit mail. All lines consist of tabs and printable bytes, except those of
/// its template and of a message that is returned whole.
pub fn lines_law(site: &Site, letter: &Letter)
    ensures lines { HasLegalLines (notice_of site.now letter.now)
        (is_eight_bit site.now letter.now) (foreign_lines site.now letter.now) }
    ensures header { returns_message letter.now.draft ≡ false
        → IsTrue (list_all is_legal_line (returned_lines letter.now.draft)) }
{
    well_formed_law(site, letter);
}

/// Every site and every letter is well formed: each text is legal, and each moment has a date.
pub fn well_formed_law(site: &Site, letter: &Letter)
    ensures { IsWellFormed site.now letter.now }
{
    legal_site(site);
    letter.key().id.bytes();
    letter.moment().seconds();
    letter.serial();
    letter.arrival().seconds();
    letter.return_path().bytes();
    letter.header().bytes();
    letter.terms().extensions();
    legal_envelope_id(letter);
    legal_outcomes(letter);
}

/// Each of these letters is well formed.
fn well_formed_letters(site: &Site, letters: &[Letter])
    ensures { All (IsWellFormed site.now) letters.now }
{
    for letter in letters {
        well_formed_law(site, letter);
    }
}

/// The host name and each template of a site are legal.
fn legal_site(site: &Site)
    ensures { IsSite site.now }
{
    site.host();
    legal_templates(site.templates());
}

/// Each template is legal.
fn legal_templates(templates: &Templates)
    ensures { AreTemplates templates.now }
{
    legal_template(&templates.failure);
    legal_template(&templates.delay);
    legal_template(&templates.success);
    legal_template(&templates.verify);
}

/// The template, if there is one, is legal.
fn legal_template(template: &Option<Template>)
    ensures { IfSome template.now IsTemplate }
{
    if let Some(template) = template {
        template.charset();
    }
}

/// The envelope id of a letter, if there is one, is valid.
fn legal_envelope_id(letter: &Letter)
    ensures { IsTrue (is_none_or is_envelope_id letter.now.draft.envelope_id) }
{
    if let Some(id) = letter.envelope_id() {
        id.bytes();
    }
}

/// Each outcome of a letter is legal.
fn legal_outcomes(letter: &Letter)
    ensures { All IsLegalOutcome letter.now.outcomes }
{
    for outcome in letter.outcomes() {
        outcome.service();
    }
}
