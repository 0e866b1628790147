//! Whole texts over devices that transfer them in pieces, and that fail at each byte.
use super::{ALWAYS, held, reader, writer};
use crate::assert_same::same;
use dsn_device::{Broken, Drain, Plain, Source, Stream, fill, send};
use dsn_fakes::{PieceConnection, PieceReader, PieceWriter};
use std::alloc::AllocGlobal;
use std::os::unix::net::UnixStream;
use std::process::Abort;
use std::test::Fail;

const TEXT: &[u8] = b"MAIL FROM:<>";

/// Sends a text.
fn sent<D: Drain>(drain: &mut D, text: &[u8]) -> Result<(), Broken> {
    send(drain, text)
}

/// Fills a buffer.
fn filled<S: Source>(source: &mut S, buffer: &mut [u8]) -> Result<usize, Broken> {
    fill(source, buffer)
}

/// The text is sent, or isn't, to a writer that fails once and takes these bytes.
fn expect_sent(
    rt: &(impl AllocGlobal + Abort),
    (most, room): (usize, usize),
    is_sent: bool,
    taken: &[u8],
) {
    let mut drain = writer(rt.alloc(), most, room);
    let found = sent(&mut drain, TEXT).is_ok();
    same(rt, (most, room, found), (most, room, is_sent));
    same(rt, held(drain).as_slice(), taken);
}

#[test]
fn front_is_sent_up_to_the_failure(rt: HostRuntime) {
    for most in 1..TEXT.len() + 1 {
        for room in 0..TEXT.len() + 1 {
            expect_sent(&rt, (most, room), room == TEXT.len(), &TEXT[..room]);
        }
    }
    // a write that takes nothing is a failure
    expect_sent(&rt, (0, TEXT.len()), false, b"");
}

#[test]
fn empty_text_makes_no_write(rt: HostRuntime) {
    let mut drain = writer(rt.alloc(), 1, 0);
    same(&rt, sent(&mut drain, b""), Ok(()));
    same(&rt, sent(&mut drain, b"."), Err(Broken));
}

/// Filling eight bytes from a reader that is interrupted once, after `good` calls, has this result.
fn expect_filled(
    rt: &impl Abort,
    input: &[u8],
    (most, good): (usize, usize),
    want: Result<usize, Broken>,
) -> [u8; 8] {
    let mut buffer = [0; 8];
    let found = filled(&mut reader(input, most, good), &mut buffer);
    same(rt, (input, most, good, found), (input, most, good, want));
    buffer
}

#[test]
fn buffer_is_filled_or_the_end_is_reached(rt: HostRuntime) {
    for most in 1..10 {
        let filled = expect_filled(&rt, TEXT, (most, ALWAYS), Ok(8));
        same(&rt, filled, *b"MAIL FRO");
        let filled = expect_filled(&rt, b"QUIT", (most, ALWAYS), Ok(4));
        same(&rt, filled, *b"QUIT\0\0\0\0");
    }
}

#[test]
fn interrupted_read_is_a_failure(rt: HostRuntime) {
    // a full buffer needs no further read
    for good in 0..9 {
        let want = if good < 8 { Err(Broken) } else { Ok(8) };
        expect_filled(&rt, TEXT, (1, good), want);
    }
    // the end is read once
    for good in 0..6 {
        let want = if good < 5 { Err(Broken) } else { Ok(4) };
        expect_filled(&rt, b"QUIT", (1, good), want);
    }
    // an empty buffer needs no read
    same(&rt, filled(&mut reader(TEXT, 1, 0), &mut []), Ok(0));
}

/// Sends the text and fills eight bytes over one device.
fn exchanged<S: Stream>(stream: &mut S) -> (Result<(), Broken>, Result<usize, Broken>, [u8; 8]) {
    let mut buffer = [0; 8];
    let sent = send(stream, TEXT);
    let filled = fill(stream, &mut buffer);
    (sent, filled, buffer)
}

#[test]
fn socket_is_a_stream(rt: HostRuntime) -> Result<(), Fail> {
    let (near, far) = UnixStream::pair(&rt)?;
    let mut near = Plain::new(near);
    let mut far = Plain::new(far);
    same(&rt, sent(&mut far, b"250 OK\r\n"), Ok(()));
    same(&rt, exchanged(&mut near), (Ok(()), Ok(8), *b"250 OK\r\n"));
    drop(near);
    let mut buffer = [0; 16];
    same(&rt, filled(&mut far, &mut buffer), Ok(TEXT.len()));
    same(&rt, &buffer[..12], TEXT);
    Ok(())
}

/// A connection whose peer sent a reply and takes the text, and whose fifth read is interrupted.
fn connection(rt: &impl AllocGlobal) -> Plain<PieceConnection<'static>> {
    let input = PieceReader {
        rest: b"250 OK\r\n",
        most: 3,
        good: 4,
    };
    let output = PieceWriter {
        held: Vec::new(rt.alloc()),
        most: 5,
        room: TEXT.len(),
    };
    Plain::new(PieceConnection { input, output })
}

#[test]
fn connection_fails_both_ways(rt: HostRuntime) {
    let mut stream = connection(&rt);
    same(&rt, exchanged(&mut stream), (Ok(()), Ok(8), *b"250 OK\r\n"));
    same(&rt, sent(&mut stream, b"."), Err(Broken));
    same(&rt, filled(&mut stream, &mut [0; 8]), Ok(0));
    same(&rt, filled(&mut stream, &mut [0; 8]), Err(Broken));
    same(&rt, stream.into_inner().output.held.as_slice(), TEXT);
}
