//! Devices that are both read from and written to, such as connections.
ghost use Rattle.std.specs.Prelude.{◌≡◌, ◌↔◌};

use crate::drain::Drain;
use crate::source::Source;

/// A source and a drain in one device. Failures of reads and of writes have one count. A read
/// changes no written bytes and is no flush, and a write changes no bytes that are still to be
/// read.
pub trait Stream: Source + Drain {
    ghost one_count: { (s : Self) → Self.Drain.failures s ≡ Self.Source.failures s };

    ghost one_flush_count: { (s : Self) → Self.Drain.flushes s ≡ Self.Source.flushes s };

    ghost one_unflushed: { (s : Self) → Self.Drain.unflushed s ≡ Self.Source.unflushed s };

    ghost one_promise: { (s : Self) → Self.Drain.steady s ↔ Self.Source.steady s };

    ghost held_is_written: { (s : Self) → Self.holds s ≡ Self.contents s };

    ghost left_is_unread: { (s : Self) → Self.left s ≡ Self.remaining s };
}
