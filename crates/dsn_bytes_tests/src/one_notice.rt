//! The first example of docs/embedding.md, word for word (tests/examples.py), as a test.
use crate::assert_same::same;
use dsn_outcome::{
    Chain, Draft, DraftParts, Key, Letter, Outcome, Parts, QueueId, Service, Stamp, Types,
};
use dsn_report::{Site, notice};
use std::alloc::Global;
use std::test::Fail;

/// The notice to ann@example.com of a recipient that was refused.
fn notice_for_ann(alloc: Global) -> Result<Vec<u8>, Fail> {
    let parts = Parts {
        recipient: b"bob@example.org",
        original: b"",
        action: 1, // failed
        status: b"5.1.1",
        mta: b"",
        diagnostic: b"",
        reason: b"",
        last_attempt: None,
        retry_until: None,
        types: Types::usual(),
        extensions: b"",
    };
    let service = Service::Bounce;
    let mut log = Chain::new();
    log.push(Outcome::new(alloc, service, parts)?);
    let moment = Stamp::new(1_700_000_000).ok_or("the moment")?;
    let arrival = Stamp::new(1_699_996_400).ok_or("the arrival")?;
    let parts = DraftParts::usual(b"ann@example.com", b"", b"");
    let draft = Draft::read(alloc, moment, arrival, parts)?;
    let id = QueueId::new(b"A1B2C3").ok_or("the queue id")?;
    let letter = Letter::seal(Key { service, id }, draft, log, 0);
    let site = Site::new(alloc, b"mx.example.net")?;
    Ok(notice(alloc, &site, &letter)?)
}

#[test]
fn one_notice(rt: HostRuntime) -> Result<(), Fail> {
    let text = notice_for_ann(rt.alloc())?;
    let sent = dsn_fakes::ONE_NOTICE
        .strip_suffix(b".\r\nQUIT\r\n")
        .ok_or("the end")?;
    same(&rt, sent.ends_with(&text), true);
    Ok(())
}
