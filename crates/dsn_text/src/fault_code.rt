//! The numbers of all faults, each once (noticed-protocol(5)). The function `code()` of
//! an error type returns them.
//!
//! - 1 to 10 and 15 to 30 refuse a request's body.
//! - 11 to 14 are faults of a frame.
//! - 31 to 35 are faults of the outbox, the notes, an answer and a connection.
//! - 41 to 45 are faults of a crew, 46 to 48 of a session, and 51 of a site.
//! - 61 is a fault of a socket, and 71 to 77 are faults of a journal.
//!
//! The contracts have a list of their own, the module FaultCode. So a wrong number in one list
//! breaks a contract, instead of being wrong everywhere alike.

/// The final recipient is not a valid address.
pub const BAD_RECIPIENT: u32 = 1;
/// The original recipient is neither empty nor a valid address.
pub const BAD_ORIGINAL: u32 = 2;
/// The action is unknown, or the service's log doesn't take it.
pub const BAD_ACTION: u32 = 3;
/// The status is not a valid status code.
pub const BAD_STATUS: u32 = 4;
/// The class of the status does not fit the action.
pub const STATUS_CLASS: u32 = 5;
/// The remote system's name is neither empty nor a valid name.
pub const BAD_MTA: u32 = 6;
/// The diagnostic is too long.
pub const LONG_DIAGNOSTIC: u32 = 7;
/// The reason is too long.
pub const LONG_REASON: u32 = 8;
/// Memory was refused, except for a crew: see [`CREW_REFUSED`].
pub const NO_MEMORY: u32 = 9;
/// A recipient that isn't delayed has a time until which delivery is retried.
pub const RETRY_UNTIL: u32 = 10;

/// The type of the final recipient is neither empty nor a valid type name.
pub const RECIPIENT_TYPE: u32 = 15;
/// The type of the original recipient is malformed, or is given without an original recipient.
pub const ORIGINAL_TYPE: u32 = 16;
/// The type of the diagnostic is malformed, or is given without a diagnostic.
pub const DIAGNOSTIC_TYPE: u32 = 17;
/// The byte that says what the header field holds means neither header nor message.
pub const RETURNED: u32 = 18;
/// The wording of a notice is unknown.
pub const WORDING: u32 = 19;
/// The extension fields are malformed.
pub const EXTENSION: u32 = 20;

/// A frame is longer than the limit.
pub const FRAME_TOO_LONG: u32 = 11;
/// A frame has the length 0.
pub const FRAME_EMPTY: u32 = 12;
/// The input ends within a frame.
pub const CUT_SHORT: u32 = 13;
/// A read failed.
pub const READ_FAILED: u32 = 14;

/// The version of a body is unknown.
pub const VERSION: u32 = 21;
/// The kind of a body, or of an answer's reply, is unknown.
pub const KIND: u32 = 22;
/// A body ends before its last field does.
pub const SHORT: u32 = 23;
/// Bytes follow a body's last field.
pub const EXTRA: u32 = 24;
/// The service is unknown.
pub const SERVICE: u32 = 25;
/// The queue id is malformed.
pub const QUEUE_ID: u32 = 26;
/// A moment is after the year 9999.
pub const MOMENT: u32 = 27;
/// The returned header is too long.
pub const LONG_HEADER: u32 = 28;
/// The return path is neither empty nor a valid address.
pub const RETURN_PATH: u32 = 29;
/// The envelope id is neither empty nor valid.
pub const ENVELOPE_ID: u32 = 30;

/// The outbox could not be written.
pub const OUTBOX_WRITE: u32 = 31;
/// The outbox had failed before.
pub const OUTBOX_FAILED: u32 = 32;
/// A line of the notes could not be written.
pub const NOTES_WRITE: u32 = 33;
/// The value of an answer is malformed.
pub const ANSWER_VALUE: u32 = 34;
/// An answer or a frame could not be written to a connection.
pub const CONNECTION_WRITE: u32 = 35;

/// The other end of a lane is gone, since the daemon gave up.
pub const LANE_LOST: u32 = 41;
/// Memory or a thread of a crew was refused.
pub const CREW_REFUSED: u32 = 42;
/// The number of agents is not 1 to 16.
pub const AGENT_COUNT: u32 = 43;
/// An agent's requests are used up.
pub const USED_UP: u32 = 44;
/// A request could not be kept, so the daemon gave up.
pub const NOT_KEPT: u32 = 45;

/// The number of a frame is not the next one.
pub const OUT_OF_TURN: u32 = 46;
/// A session has a frame over its limit.
pub const TOO_MANY_FRAMES: u32 = 47;
/// No answer came: the daemon's bytes ended before the first byte of an answer.
pub const UNANSWERED: u32 = 48;

/// The name of the host is malformed.
pub const BAD_HOST: u32 = 51;

/// A socket could not be bound, connected or removed, or an accept failed.
pub const SOCKET: u32 = 61;

/// A journal has no room for the records.
pub const JOURNAL_FULL: u32 = 71;
/// A file of a journal could not be opened, read, written or synced.
pub const JOURNAL_FAILED: u32 = 72;
/// A file has no record, and it isn't a new file.
pub const JOURNAL_FOREIGN: u32 = 73;
/// A journal is of another version, or was kept under other limits.
pub const JOURNAL_HEADER: u32 = 74;
/// A record is damaged.
pub const JOURNAL_DAMAGED: u32 = 75;
/// A mark counts more letters than the journal has sealed.
pub const MARK_AHEAD: u32 = 76;
/// A mark counts fewer letters than the journal's base.
pub const MARK_BEHIND: u32 = 77;
