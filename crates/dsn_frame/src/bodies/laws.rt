//! Laws of the format. Each is the contract of a function that does nothing.
ghost use Rattle.std.specs.Prelude.{ℕ, List};
ghost use Rattle.dsn_frame.specs.bodies.Laws.{IsBytes, IsSomeRequest, IsNotRefused, IsOneRequest};

/// Each body either encodes exactly one request or is refused.
pub fn bodies_are_requests_or_refused()
    ensures some { (bytes : List ℕ) → IsBytes bytes → IsSomeRequest bytes }
    ensures accepted { (bytes : List ℕ) → IsNotRefused bytes }
    ensures one { (bytes : List ℕ) → IsOneRequest bytes }
{}
