//! Laws of frames and of sessions. Each is the contract of a function that does nothing.
//! Implements noticed-protocol(5).
ghost use Rattle.std.specs.Prelude.{ℕ, List};
ghost use Rattle.dsn_frame.specs.bodies.Laws.{IsBytes};
ghost use Rattle.dsn_frame.specs.Laws.{HasFrames, HasOneReading};
ghost use Rattle.dsn_frame.specs.Session.{Medium};
ghost use Rattle.dsn_frame.specs.SessionLaws.{HasOneSession, HasSomeSession, LeavesOneRest, TakesItsFrames};
ghost use Rattle.dsn_frame.specs.WholeInput.{IsTakenWhole};

/// Each input has exactly one list of whole frames, and exactly one end.
pub fn inputs_are_frames_and_an_end()
    ensures some { (input : List ℕ) → IsBytes input → HasFrames input }
    ensures one { (input : List ℕ) → HasOneReading input }
{}

/// The frames of a session are the first frames of its source's bytes. They are all of them if it
/// ended without a fault, or with 11 (too long), 12 (empty) or 13 (cut short). Then the session
/// ended as the bytes do.
pub fn sessions_take_the_frames_of_their_bytes()
    ensures { (bytes : List ℕ) → TakesItsFrames bytes }
{}

/// A session is a function of its source's bytes and of the number of earlier requests, except for
/// its replies. The same holds for the bytes that it leaves, if they are known. The law is about
/// sessions that met none of four events from outside the bytes. They are want of memory (9), a
/// failed read (14), an unwritten answer (33 in notes, 35 on a connection), and a daemon that gave
/// up (41).
///
/// There is such a session over all bytes, whatever the replies are, if the earlier requests are
/// within the limit.
pub fn sessions_are_functions_of_their_bytes()
    ensures some { (medium : Medium) (limit before : ℕ) (bytes : List ℕ) → IsBytes bytes
        → HasSomeSession medium limit before bytes }
    ensures one { (medium : Medium) (limit before : ℕ) (bytes : List ℕ)
        → HasOneSession medium limit before bytes }
    ensures rest { (medium : Medium) (limit before : ℕ) (bytes : List ℕ)
        → LeavesOneRest medium limit before bytes }
{}

/// No request is refused without cause if a source's bytes are requests, numbered in turn from 0,
/// and no more of them than may still be accepted.
///
/// Such a session has only faults from outside: 9 (want of memory), 14 (a failed read), 33 or 35
/// (an unwritten answer). On a connection it may also have 41 (the daemon gave up). It refuses
/// bodies only with 9. If it has no fault, it takes all frames. If all answers are replies and it
/// didn't end with 41, the bodies asked are those of the frames it took.
pub fn requests_in_turn_are_taken()
    ensures { (bytes : List ℕ) → IsTakenWhole bytes }
{}
