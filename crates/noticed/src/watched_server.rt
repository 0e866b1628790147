//! The mail server of a run under a watch, which hears why a connection wasn't made.
use dsn_smtp::{Connect, HandInFault, MailConnection, MailServer};
use noticed_lib::Watch;

/// A mail server whose watch hears of each connection that failed.
#[derive(Drop)]
pub(crate) struct WatchedServer<'a, H> {
    pub(crate) server: MailServer<'a>,
    pub(crate) watch: &'a H,
}

impl<H: Watch> Connect<MailConnection> for WatchedServer<'_, H> {
    ghost gives = { λ _ _ _. Unit {0} };

    fn connect(&mut self) -> Result<MailConnection, HandInFault> {
        let connected = self.server.connect();
        if let Some(error) = self.server.unconnected.take() {
            self.watch.server_unreached(&error);
        }
        connected
    }
}
