//! A law of sends, the contract of a function that does nothing.
ghost use Rattle.std.specs.Prelude.{List};
ghost use Rattle.dsn_frame.specs.declared.bodies.spoken.Spoken.{Spoken};
ghost use Rattle.noticed_lib.specs.client.SendLaws.{SeesAnswers, SeesSession};

/// A send is a session, seen from the client's side. If the daemon has the answers of a session to
/// say, the client notes them in order. It meets no fault of theirs (11 to 13 of an answer's frame,
/// 21 to 24, 34, 46). It notes all of them if no more comes (48), and if the send ends well.
pub fn sends_are_sessions_of_a_client()
    ensures answers { (given : List Spoken) → SeesAnswers given }
    ensures session { (given : List Spoken) → SeesSession given }
{}
