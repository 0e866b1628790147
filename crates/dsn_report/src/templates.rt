//! The templates of a site.
ghost use Rattle.std.specs.Prelude.{◌≡◌};
ghost use Rattle.std.specs.Option.{option_copied};
ghost use Rattle.dsn_outcome.specs.declared.wording.Wording.TheVariants.{ByOutcome};
ghost use Rattle.dsn_text.specs.declared.service.Service.TheVariants.{Trace};
ghost use Rattle.dsn_report.specs.Notice.{template_by, template_of};
ghost use Rattle.dsn_report.specs.Site.{no_templates};

use crate::notice_wording::all_arrived;
use crate::template::Template;
use dsn_outcome::{Letter, Service, Wording};
use std::marker::Model;

/// The templates of a site. A notice without a template has this project's own words.
#[derive(Debug, Drop)]
pub struct Templates {
    /// About mail that could not be delivered.
    pub failure: Option<Template>,
    /// About mail that is still being tried.
    pub delay: Option<Template>,
    /// About a requested report, if the message arrived at all recipients.
    pub success: Option<Template>,
    /// About another requested report.
    pub verify: Option<Template>,
}

impl Model for Templates {
    ghost use Rattle.dsn_report.specs.Site.{Templates};

    ghost Value = { Templates };

    ghost view = { λ t. record {
      failure = t.failure;
      delay = t.delay;
      success = t.success;
      verify = t.verify;
    } };
}

impl Templates {
    /// No template.
    pub fn none() -> Templates
        ensures { result ≡ no_templates }
    {
        Templates {
            failure: None,
            delay: None,
            success: None,
            verify: None,
        }
    }

    /// The template of a letter's notice, if there is one.
    #[tactic(auto, unfolding(crate::specs::Notice::template_of))]
    pub(crate) fn of(&self, letter: &Letter) -> Option<&Template>
        ensures { option_copied result ≡ template_of self.now letter.now }
    {
        match (letter.terms().wording(), letter.key().service) {
            (_, Service::Bounce) => self.failure.as_ref(),
            (_, Service::Defer) => self.delay.as_ref(),
            (Wording::ByService, Service::Trace) => self.verify.as_ref(),
            (Wording::ByOutcome, Service::Trace) => self.of_trace(all_arrived(letter)),
        }
    }

    /// The template of a trace, which depends on whether the message arrived at all recipients.
    fn of_trace(&self, arrived: bool) -> Option<&Template>
        ensures { option_copied result
            ≡ template_by self.now ByOutcome Trace arrived }
    {
        if arrived {
            self.success.as_ref()
        } else {
            self.verify.as_ref()
        }
    }
}
