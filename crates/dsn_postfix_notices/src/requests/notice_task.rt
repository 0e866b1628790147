//! A request for notices that is carried out on the log of one service.
ghost use Rattle.std.specs.Prelude.{◌≡◌};
ghost use Rattle.dsn_postfix_notices.specs.requests.PostmasterCopies.{is_copied};

use crate::requests::postmaster_copies::is_copied;
use crate::requests::request_terms::RequestTerms;
use crate::requests::service_settings::ServiceSettings;
use dsn_postfix::{NoticeRequest, PostfixRequest};
use dsn_report::Site;
use dsn_text::Service;
use std::marker::Model;

/// A request for notices, and the terms on which it is carried out.
#[derive(Debug, Drop)]
pub(super) struct NoticeTask<'a> {
    /// The terms on which it is carried out.
    pub(super) terms: &'a RequestTerms<'a>,
    pub(super) request: &'a PostfixRequest<'a>,
    /// The part of the request that describes the message.
    pub(super) notice: &'a NoticeRequest<'a>,
}

impl<'a> Model for NoticeTask<'a> {
    ghost use Rattle.dsn_postfix_notices.specs.requests.Task.{Task};

    ghost Value = { Task };

    ghost view = { λ task. record {
      terms = task.terms.now;
      request = task.request.now;
      notice = task.notice.now;
    } };
}

impl<'a> NoticeTask<'a> {
    /// The service to which the request is addressed.
    pub(super) fn service(&self) -> Service
        ensures { result ≡ self.now.terms.service }
    {
        let terms: &RequestTerms<'_> = self.terms;
        terms.service
    }

    /// Whether the postmaster gets a copy of the notices.
    pub(super) fn is_copied(&self) -> bool
        ensures { result ≡ is_copied self.now.terms.settings self.now.request }
    {
        let terms: &RequestTerms<'_> = self.terms;
        is_copied(terms.settings, self.request)
    }

    /// Whether its notices refer to the message.
    pub(super) fn is_threaded(&self) -> bool
        ensures { result ≡ self.now.terms.settings.threaded }
    {
        let terms: &RequestTerms<'_> = self.terms;
        let settings: &ServiceSettings<'_> = terms.settings;
        settings.threaded
    }

    /// The mail system.
    pub(super) fn site(&self) -> &'a Site
        ensures { result.now ≡ self.now.terms.settings.site }
    {
        let terms: &RequestTerms<'a> = self.terms;
        let settings: &ServiceSettings<'a> = terms.settings;
        settings.site
    }
}
