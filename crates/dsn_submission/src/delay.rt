//! How long something waits for its next attempt.
ghost use Rattle.std.specs.Prelude.{◌≡◌};
ghost use Rattle.dsn_submission.specs.Waiting.{delay, later};

/// The longest exponent below. 2 to its power, in seconds, is more than any `u32` in milliseconds.
const MOST_DOUBLINGS: u64 = 31;

/// How long to wait after `failures` earlier failures, in milliseconds: one second doubled as often,
/// and at most `longest`.
pub(crate) fn delay(longest: u32, failures: u64) -> u64
    ensures { result ≡ delay longest failures }
{
    let doublings = failures.min(MOST_DOUBLINGS);
    u64::from(longest).min(1_000 << doublings)
}

/// The moment that is `wait` after `now`, or the last moment that is counted.
pub(crate) fn later(now: u64, wait: u64) -> u64
    ensures { result ≡ later now wait }
{
    now.saturating_add(wait)
}
