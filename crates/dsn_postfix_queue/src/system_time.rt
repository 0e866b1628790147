//! The times of the system's clock and of its files, as moments of a notice.
ghost use Rattle.std.specs.Prelude.{◌/◌, ◌<◌, ◌≡◌, MatchOption};
ghost use Rattle.std.specs.Time.{system_time_nanos};
ghost use Rattle.dsn_text.specs.Stamp.{last_moment};

use dsn_text::Stamp;
use std::time::SystemTime;

/// The second in which a time lies. Returns `None` if no date can have it.
pub fn stamp_of(time: SystemTime) -> Option<Stamp>
    ensures { MatchOption result (last_moment < system_time_nanos time / 1_000_000_000)
        (λ stamp. stamp ≡ system_time_nanos time / 1_000_000_000) }
{
    match time.duration_since(SystemTime::UNIX_EPOCH) {
        Ok(since) => Stamp::new(since.as_secs()),
        Err(_) => None,
    }
}
