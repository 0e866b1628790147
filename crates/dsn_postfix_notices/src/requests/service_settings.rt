//! The settings of the mail system that notices depend on.
use crate::requests::postmaster_copies::PostmasterCopies;
use dsn_report::Site;
use std::marker::Model;

/// The settings of the mail system that a request's notices depend on.
#[derive(Debug, Drop)]
pub struct ServiceSettings<'a> {
    /// The mail system that notices come from.
    pub site: &'a Site,
    /// The sender of notices about notices (Postfix's `double_bounce_sender`, with its domain).
    pub double_bounce: &'a [u8],
    /// For how many seconds after a message's arrival delivery is tried (`maximal_queue_lifetime`).
    pub lifetime: u32,
    /// The size in bytes up to which a message is returned whole (`bounce_size_limit`).
    pub size_limit: u32,
    /// The notices of which the postmaster gets a copy: Postfix's own service makes these.
    pub copies: PostmasterCopies,
    /// Whether a notice refers to the Message-ID of its message (`enable_threaded_bounces`).
    pub threaded: bool,
}

impl<'a> Model for ServiceSettings<'a> {
    ghost use Rattle.dsn_postfix_notices.specs.requests.Task.{SettingsSaid};

    ghost Value = { SettingsSaid };

    ghost view = { λ settings. record {
      site = settings.site.now;
      double_bounce = settings.double_bounce.now;
      lifetime = settings.lifetime;
      size_limit = settings.size_limit;
      copies = settings.copies;
      threaded = settings.threaded;
    } };
}
