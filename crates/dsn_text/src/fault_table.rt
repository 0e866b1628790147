//! The words of each number of a fault or a refusal. Each line that names a fault has them, and
//! `noticed help faults` lists them.
ghost use Rattle.std.specs.Prelude.{◌≡◌, ◌≤◌, length, map};
ghost use Rattle.dsn_text.specs.FaultWords.{fault_words, words_of_code, longest_fault_words};

use crate::fault_code;

/// Each number with its words, in ascending order.
pub const FAULT_WORDS: [(u32, &str); 52] = [
    (
        fault_code::BAD_RECIPIENT,
        "the final recipient is not an address",
    ),
    (
        fault_code::BAD_ORIGINAL,
        "the original recipient is neither empty nor an address",
    ),
    (
        fault_code::BAD_ACTION,
        "the action is unknown, or the service's log takes none of it",
    ),
    (fault_code::BAD_STATUS, "the status is not a status code"),
    (
        fault_code::STATUS_CLASS,
        "the class of the status does not fit the action",
    ),
    (
        fault_code::BAD_MTA,
        "the remote system's name is neither empty nor a name",
    ),
    (fault_code::LONG_DIAGNOSTIC, "the diagnostic is too long"),
    (fault_code::LONG_REASON, "the reason is too long"),
    (fault_code::NO_MEMORY, "memory was refused"),
    (
        fault_code::RETRY_UNTIL,
        "a time until which delivery is retried, for a recipient that is not delayed",
    ),
    (
        fault_code::FRAME_TOO_LONG,
        "a frame is longer than a frame may be",
    ),
    (fault_code::FRAME_EMPTY, "a frame has length 0"),
    (fault_code::CUT_SHORT, "the input ends within a frame"),
    (fault_code::READ_FAILED, "a read failed"),
    (
        fault_code::RECIPIENT_TYPE,
        "the type of the final recipient is neither empty nor the name of a type",
    ),
    (
        fault_code::ORIGINAL_TYPE,
        "the type of the original recipient is malformed, or there is no original recipient",
    ),
    (
        fault_code::DIAGNOSTIC_TYPE,
        "the type of the diagnostic is malformed, or there is no diagnostic",
    ),
    (
        fault_code::RETURNED,
        "it is unknown whether the header field holds the header or the message",
    ),
    (fault_code::WORDING, "the wording of a notice is unknown"),
    (fault_code::EXTENSION, "the extension fields are malformed"),
    (fault_code::VERSION, "the version of a request is unknown"),
    (
        fault_code::KIND,
        "the kind of a request, or of an answer's reply, is unknown",
    ),
    (fault_code::SHORT, "a request ends before its fields do"),
    (
        fault_code::EXTRA,
        "bytes follow the last field of a request",
    ),
    (fault_code::SERVICE, "the service is unknown"),
    (fault_code::QUEUE_ID, "the queue id is malformed"),
    (fault_code::MOMENT, "a moment is after the year 9999"),
    (fault_code::LONG_HEADER, "the returned header is too long"),
    (
        fault_code::RETURN_PATH,
        "the return path is neither empty nor an address",
    ),
    (
        fault_code::ENVELOPE_ID,
        "the envelope id is neither empty nor valid",
    ),
    (fault_code::OUTBOX_WRITE, "the outbox could not be written"),
    (fault_code::OUTBOX_FAILED, "the outbox had failed before"),
    (
        fault_code::NOTES_WRITE,
        "a line of the notes could not be written",
    ),
    (
        fault_code::ANSWER_VALUE,
        "an answer has a field with an invalid value",
    ),
    (
        fault_code::CONNECTION_WRITE,
        "an answer or a frame could not be written to a connection",
    ),
    (
        fault_code::LANE_LOST,
        "the daemon gave up: one of its threads ended too early",
    ),
    (
        fault_code::CREW_REFUSED,
        "memory or a thread for the daemon was refused",
    ),
    (fault_code::AGENT_COUNT, "there are not 1 to 16 agents"),
    (fault_code::USED_UP, "an agent's requests are used up"),
    (
        fault_code::NOT_KEPT,
        "a request could not be kept, so the daemon gave up",
    ),
    (
        fault_code::OUT_OF_TURN,
        "the number of a frame is out of turn",
    ),
    (
        fault_code::TOO_MANY_FRAMES,
        "there are more frames than a session may have",
    ),
    (
        fault_code::UNANSWERED,
        "the connection ended before an answer began",
    ),
    (fault_code::BAD_HOST, "the name of the host is malformed"),
    (
        fault_code::SOCKET,
        "a socket could not be bound, connected or removed, or an accept failed",
    ),
    (fault_code::JOURNAL_FULL, "a journal has no room"),
    (
        fault_code::JOURNAL_FAILED,
        "a file of a journal could not be opened, read, written or synced",
    ),
    (
        fault_code::JOURNAL_FOREIGN,
        "a file of a journal has no record, and is not a new one",
    ),
    (
        fault_code::JOURNAL_HEADER,
        "a journal is of another version, or was made under other limits",
    ),
    (
        fault_code::JOURNAL_DAMAGED,
        "a record of a journal is damaged, or a byte behind its records was lost",
    ),
    (
        fault_code::MARK_AHEAD,
        "the marks count more letters than the journal has",
    ),
    (
        fault_code::MARK_BEHIND,
        "the marks count fewer letters than the journal begins with",
    ),
];

/// Returns the words of a number; the empty text if it is none of a fault or a refusal.
pub fn fault_words(code: u32) -> &'static str
    ensures same { result.now ≡ fault_words code }
    ensures short { length result.now ≤ longest_fault_words }
{
    words_of_code(&FAULT_WORDS, code)
}

/// Returns the words of a number in a table; the empty text if the table doesn't have it.
fn words_of_code(table: &[(u32, &'static str)], code: u32) -> &'static str
    ensures { result.now ≡ words_of_code (map (λ entry. (entry.0, entry.1.now)) table.entry.now) code }
{
    let mut rest = table;
    while let [entry, others @ ..] = rest {
        if entry.0 == code {
            return entry.1;
        }
        rest = others;
    }
    ""
}
