//! A daemon's status as metrics, in the text format of Prometheus.
use std::alloc::{AllocError, Global};
use std::fmt::Write;

/// What may go up and down: the name of its line in a status, its name as a metric, and its help.
const GAUGES: [(&str, &str, &str); 12] = [
    (
        "started_seconds",
        "noticed_start_time_seconds",
        "When the run began, since 1970.",
    ),
    (
        "uptime_seconds",
        "noticed_uptime_seconds",
        "For how long it runs.",
    ),
    (
        "agents",
        "noticed_agents",
        "How many clients are served at once.",
    ),
    (
        "agents_busy",
        "noticed_agents_busy",
        "Agents that have a client.",
    ),
    (
        "clients_waiting",
        "noticed_clients_waiting",
        "Clients that wait for an agent.",
    ),
    (
        "keys_limit",
        "noticed_keys_limit",
        "How many keys may be held.",
    ),
    ("keys_held", "noticed_keys_held", "Keys that are held."),
    (
        "keys_open",
        "noticed_keys_open",
        "Held keys with an open log.",
    ),
    (
        "keys_closed",
        "noticed_keys_closed",
        "Held keys with a closed log.",
    ),
    (
        "journal_used",
        "noticed_journal_used_bytes",
        "Bytes of the journal that have records.",
    ),
    (
        "journal_size",
        "noticed_journal_size_bytes",
        "Bytes that the journal has.",
    ),
    (
        "notices_waiting",
        "noticed_notices_waiting",
        "Notices that wait for the mail server.",
    ),
];

/// What only goes up, in the same form.
const COUNTERS: [(&str, &str, &str); 7] = [
    (
        "keys_released",
        "noticed_keys_released_total",
        "Closed keys that made room for others.",
    ),
    (
        "connections",
        "noticed_connections_total",
        "Connections accepted.",
    ),
    (
        "cut_off",
        "noticed_clients_cut_off_total",
        "Clients cut off.",
    ),
    (
        "notices_sealed",
        "noticed_notices_sealed_total",
        "Notices sealed.",
    ),
    (
        "notices_written",
        "noticed_notices_written_total",
        "Notices written.",
    ),
    (
        "notices_accepted",
        "noticed_notices_accepted_total",
        "Notices that the mail server accepted.",
    ),
    (
        "notices_refused",
        "noticed_notices_refused_total",
        "Notices that the mail server refused for good.",
    ),
];

/// Counts by a label: the beginning of the names of their lines, the metric, its label, and its help.
const LABELLED: [(&str, &str, &str, &str); 2] = [
    (
        "requests_",
        "noticed_requests_total",
        "kind",
        "Requests about logs, by what they ask.",
    ),
    (
        "answered_",
        "noticed_answers_total",
        "reply",
        "Requests by their answers.",
    ),
];

/// The metrics of a status. A count that it doesn't have is left out.
pub(crate) fn metrics_of(alloc: Global, text: &str) -> Result<String, AllocError> {
    let mut shown = String::new(alloc);
    for (line, name, help) in GAUGES.iter() {
        add_metric(&mut shown, name, "gauge", help, value_in(text, line))?;
    }
    for (line, name, help) in COUNTERS.iter() {
        add_metric(&mut shown, name, "counter", help, value_in(text, line))?;
    }
    for (beginning, name, label, help) in LABELLED.iter() {
        add_head(&mut shown, name, "counter", help)?;
        add_labelled(&mut shown, text, beginning, name, label)?;
    }
    Ok(shown)
}

/// Adds a metric, if it has a value.
fn add_metric(
    shown: &mut String,
    name: &str,
    kind: &str,
    help: &str,
    value: Option<&str>,
) -> Result<(), AllocError> {
    let Some(value) = value else {
        return Ok(());
    };
    add_head(shown, name, kind, help)?;
    writeln!(shown, "{name} {value}")
}

/// Adds what is said of a metric.
fn add_head(shown: &mut String, name: &str, kind: &str, help: &str) -> Result<(), AllocError> {
    writeln!(shown, "# HELP {name} {help}")?;
    writeln!(shown, "# TYPE {name} {kind}")
}

/// Adds the count of each line whose name has this beginning. The rest of the name is its label.
fn add_labelled(
    shown: &mut String,
    text: &str,
    beginning: &str,
    name: &str,
    label: &str,
) -> Result<(), AllocError> {
    for line in text.lines() {
        if let Some(named) = line.strip_prefix(beginning) {
            if let Some((value, count)) = named.split_once(' ') {
                writeln!(shown, "{name}{{{label}=\"{value}\"}} {count}")?;
            }
        }
    }
    Ok(())
}

/// The value of the line of this name, if there is one.
pub(crate) fn value_in<'a>(text: &'a str, name: &str) -> Option<&'a str> {
    for line in text.lines() {
        if let Some((its, value)) = line.split_once(' ') {
            if its == name {
                return Some(value);
            }
        }
    }
    None
}
