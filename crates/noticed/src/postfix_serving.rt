//! What a run of `postfix` serves.
use crate::postfix_values::PostfixValues;
use dsn_postfix::QueueName;
use dsn_postfix_notices::ServiceSettings;
use dsn_postfix_queue::PostfixSetup;
use dsn_report::Site;
use dsn_smtp::ServerAddress;
use dsn_text::MtaName;

/// The arguments of `postfix`.
#[derive(Drop)]
pub(crate) struct PostfixServing {
    /// Postfix's queue folder.
    pub(crate) folder: String,
    /// The site that the host names.
    pub(crate) site: Site,
    /// The client's name in EHLO to the mail server that takes the notices.
    pub(crate) client: MtaName,
    /// The address to which notices are submitted.
    pub(crate) hand_in: ServerAddress,
    /// The values that options change.
    pub(crate) values: PostfixValues,
    /// Whether the sockets are inherited.
    pub(crate) inherits: bool,
}

impl PostfixServing {
    /// The setup of the Postfix, whose hashed queues have these names, with the mail server for its
    /// notices.
    pub(crate) fn place<'a>(&'a self, hashed: &'a [QueueName<'a>]) -> PostfixSetup<'a> {
        PostfixSetup {
            queues: self.values.queue_folder(&self.folder, hashed),
            hand_in: &self.hand_in,
            host: &self.client,
        }
    }

    /// The settings that notices depend on.
    pub(crate) fn settings(&self) -> ServiceSettings<'_> {
        self.values.settings(&self.site)
    }
}
