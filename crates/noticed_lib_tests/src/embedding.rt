//! The whole example of docs/embedding.md, word for word (tests/examples.py), as a test.
use crate::assert_same::same;
use dsn_frame::encode_request;
use dsn_outcome::{
    Body, Draft, DraftParts, Key, Outcome, Parts, Plain, QueueId, Returned, Service, Stamp, Types,
    Wording,
};
use noticed_lib::{BatchEnd, Limits, Site, batch};
use std::alloc::Global;
use std::test::Fail;

/// The message that this is about, in the log of its bounces.
fn message() -> Result<Key, Fail> {
    Ok(Key {
        service: Service::Bounce,
        id: QueueId::new(b"A1B2C3").ok_or("the queue id")?,
    })
}

/// The frame of a first request: a recipient of the message has failed.
fn append(alloc: Global) -> Result<Vec<u8>, Fail> {
    let key = message()?;
    let parts = Parts {
        recipient: b"bob@example.org",
        original: b"",
        action: 1, // failed
        status: b"5.1.1",
        mta: b"",
        diagnostic: b"",
        reason: b"",
        last_attempt: None,
        retry_until: None,
        types: Types::usual(),
        extensions: b"",
    };
    let outcome = Outcome::new(alloc, key.service, parts)?;
    Ok(encode_request(alloc, 0, &Body::Append(key.id, outcome))?)
}

/// The frame of a second one: a notice of the log, which is to have one outcome, goes to
/// ann@example.com.
fn flush(alloc: Global) -> Result<Vec<u8>, Fail> {
    let moment = Stamp::new(1_700_000_000).ok_or("the moment")?;
    let arrival = Stamp::new(1_699_996_400).ok_or("the arrival")?;
    let parts = DraftParts {
        return_path: b"ann@example.com",
        envelope_id: b"",
        header: b"",
        expected: Some(1),
        returned: Some(Returned::Header),
        wording: Some(Wording::ByService),
        extensions: b"",
    };
    let draft = Draft::read(alloc, moment, arrival, parts)?;
    Ok(encode_request(alloc, 1, &Body::Flush(message()?, draft))?)
}

/// The outbox and the notes of a run over both frames; an error if the run isn't whole.
fn notice_for_ann(alloc: Global) -> Result<(Vec<u8>, Vec<u8>), Fail> {
    let mut frames = append(alloc)?;
    frames.extend_from_slice(&flush(alloc)?)?;
    let mut input = Plain::new(frames.as_slice());
    let mut notes = Plain::new(Vec::new(alloc));
    let outbox = Plain::new(Vec::new(alloc));
    let site = Site::new(alloc, b"mx.example.net")?;
    let limits = Limits::new(4_096, 1_000, 1_000_000).ok_or("the limits")?;
    let end = batch(alloc, &limits, site, &mut input, outbox, &mut notes);
    let BatchEnd { outbox, status, .. } = end;
    if status != 0 {
        return Err("a run that isn't whole".into());
    }
    Ok((outbox.into_inner(), notes.into_inner()))
}

#[test]
fn embedded(rt: HostRuntime) -> Result<(), Fail> {
    let (outbox, notes) = notice_for_ann(rt.alloc())?;
    same(&rt, outbox.as_slice(), dsn_fakes::ONE_NOTICE);
    same(
        &rt,
        notes.as_slice(),
        b"0 logged 0\n1 sealed 1\n".as_slice(),
    );
    Ok(())
}
