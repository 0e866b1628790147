//! Whole texts over devices that write and read them in pieces.
ghost use Rattle.std.specs.Prelude.{◌≡◌, ◌<◌, length, take, IfOk, OnOk, OnErr, is_err};
ghost use Rattle.std.specs.Io.{ReadsAtMost};
ghost use Rattle.std.specs.Io.KnownBytes.{Appends, Consumes, IsAtEnd, Keeps};
ghost use Rattle.dsn_device.specs.Failures.{counted};
ghost use Rattle.dsn_device.specs.Throughout.{StandsStill};
ghost use Rattle.dsn_device.specs.Transfer.{AppendsFront, AppendsPart, ConsumesFewer};

use crate::broken::Broken;
use crate::drain::Drain;
use crate::source::Source;

/// Writes the whole text. Stops at the drain's first failure and returns it: then a front of the
/// text is written, but not all of it. An empty text makes no write.
pub fn send<D: Drain>(drain: &mut D, text: &[u8]) -> Result<(), Broken>
    ensures sent { OnOk result (Appends (D.contents drain.old) (D.contents drain.new) text.now) }
    ensures front { OnErr result
        (AppendsFront (D.contents drain.old) (D.contents drain.new) text.now) }
    ensures part { OnErr result
        (AppendsPart (D.contents drain.old) (D.contents drain.new) text.now) }
    ensures unread { Keeps (D.left drain.old) (D.left drain.new) }
    ensures count { D.failures drain.new ≡ counted (is_err result) (D.failures drain.old) }
    ensures no_flush { D.flushes drain.new ≡ D.flushes drain.old }
    ensures marked { D.marked drain.new ≡ D.marked drain.old }
    ensures no_moment { StandsStill (D.moment drain.old) (D.moment drain.new)
        (D.left_since drain.old) (D.left_since drain.new) }
    ensures surely { D.flushes_surely drain.old → D.flushes_surely drain.new }
    ensures steady { D.steady drain.old
        → D.steady drain.new × (D.failures drain.new ≡ D.failures drain.old) }
{
    let mut unsent = text;
    while !unsent.is_empty() {
        let taken = drain.write(unsent)?;
        // Without this check, a drain that takes no byte would be called for ever. std's
        // `write_all` isn't used, since it retries an interrupted call.
        if taken == 0 {
            return Err(Broken);
        }
        unsent = &unsent[taken..];
    }
    Ok(())
}

/// Reads until the buffer is full or the input ends. Returns how many bytes it read, which are at
/// the buffer's front. Stops at the source's first failure and returns it: then the bytes read
/// before are lost. An empty buffer makes no read.
pub fn fill<S: Source>(source: &mut S, buffer: &mut [u8]) -> Result<usize, Broken>
    ensures bound { ReadsAtMost result buffer.new }
    ensures bytes { IfOk result (λ n.
        Consumes (S.remaining source.old) (S.remaining source.new) (take n buffer.new)) }
    ensures end { IfOk result (λ n.
        n < length buffer.new → IsAtEnd (S.remaining source.new)) }
    ensures lost { OnErr result
        (ConsumesFewer (S.remaining source.old) (S.remaining source.new) (length buffer.new)) }
    ensures held { Keeps (S.holds source.old) (S.holds source.new) }
    ensures no_flush { S.flushes source.new ≡ S.flushes source.old }
    ensures unflushed { S.unflushed source.new ≡ S.unflushed source.old }
    ensures count { S.failures source.new ≡ counted (is_err result) (S.failures source.old) }
    ensures steady { S.steady source.old
        → S.steady source.new × (S.failures source.new ≡ S.failures source.old) }
{
    let mut filled = 0;
    while filled < buffer.len() {
        // std's `read_exact` isn't used, since it retries an interrupted call.
        let count = source.read(&mut buffer[filled..])?;
        if count == 0 {
            return Ok(filled);
        }
        filled += count;
    }
    Ok(filled)
}
