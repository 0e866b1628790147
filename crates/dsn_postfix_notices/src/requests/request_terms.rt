//! The terms on which a request is answered.
use crate::requests::service_settings::ServiceSettings;
use dsn_text::{Service, Stamp};
use std::marker::Model;

/// All that the answer to a request depends on, besides what it asks and what lies outside.
#[derive(Debug, Drop)]
pub struct RequestTerms<'a> {
    /// The settings of the mail system that its notices depend on.
    pub settings: &'a ServiceSettings<'a>,
    /// The service to which the request is addressed.
    pub service: Service,
    /// The moment at which its letters are made.
    pub moment: Stamp,
    /// The serial of the letter of a request about one recipient alone, which has no log. It is a
    /// part of the letter's Message-ID. The serials of other requests are made of their logs.
    pub first_serial: u64,
}

impl<'a> Model for RequestTerms<'a> {
    ghost use Rattle.dsn_postfix_notices.specs.requests.Task.{Terms};

    ghost Value = { Terms };

    ghost view = { λ terms. record {
      settings = terms.settings.now;
      service = terms.service;
      moment = terms.moment;
      serial = terms.first_serial;
    } };
}
