//! What Prometheus is told.

use crate::counts::Direction;
use crate::moments::Moments;
use crate::parts::{Part, put_parts};
use crate::times::put_seconds;
use rs_page_parts::histogram::{BOUNDS, Histogram};
use rs_page_parts::tables::{Rib, Tables};
use std::alloc::AllocError;

/// A number that is told of each member.
#[derive(Clone, Copy)]
pub enum Metric {
    Up,
    Since,
    Received,
    Refused,
    Sent,
    Faulted,
    PassedOver,
    UpdatesReceived,
    UpdatesSent,
    BytesReceived,
    BytesSent,
    Waiting,
}

impl Metric {
    /// The metric of this number, from 0.
    pub fn of(number: u64) -> Option<Metric> {
        match number {
            0 => Some(Metric::Up),
            1 => Some(Metric::Since),
            2 => Some(Metric::Received),
            3 => Some(Metric::Refused),
            4 => Some(Metric::Sent),
            5 => Some(Metric::Faulted),
            6 => Some(Metric::PassedOver),
            7 => Some(Metric::UpdatesReceived),
            8 => Some(Metric::UpdatesSent),
            9 => Some(Metric::BytesReceived),
            10 => Some(Metric::BytesSent),
            11 => Some(Metric::Waiting),
            _ => None,
        }
    }

    /// What stands above the samples; `PassedOver` goes on with the samples of `Faulted`.
    fn head(self) -> &'static [u8] {
        match self {
            Metric::Up =>
                b"# HELP rs_member_up Whether the member's session is Established.\n# TYPE rs_member_up gauge\n",
            Metric::Since =>
                b"# HELP rs_member_changed_timestamp_seconds When its session came up or ended.\n# TYPE rs_member_changed_timestamp_seconds gauge\n",
            Metric::Received =>
                b"# HELP rs_member_received_prefixes The prefixes of its Adj-RIB-In.\n# TYPE rs_member_received_prefixes gauge\n",
            Metric::Refused =>
                b"# HELP rs_member_refused_prefixes The prefixes of its Adj-RIB-In that its import list drops.\n# TYPE rs_member_refused_prefixes gauge\n",
            Metric::Sent =>
                b"# HELP rs_member_sent_prefixes The prefixes of its Loc-RIB.\n# TYPE rs_member_sent_prefixes gauge\n",
            Metric::Faulted =>
                b"# HELP rs_member_faulted_updates_total UPDATEs at fault: routes withdrawn or attributes discarded for a fault (RFC 7606), or routes in MP_REACH_NLRI passed over.\n# TYPE rs_member_faulted_updates_total counter\n",
            Metric::PassedOver => b"",
            Metric::UpdatesReceived =>
                b"# HELP rs_member_received_updates_total The UPDATEs that it sent.\n# TYPE rs_member_received_updates_total counter\n",
            Metric::UpdatesSent =>
                b"# HELP rs_member_sent_updates_total The UPDATEs that were sent to it.\n# TYPE rs_member_sent_updates_total counter\n",
            Metric::BytesReceived =>
                b"# HELP rs_member_received_bytes_total The octets that its sessions were given.\n# TYPE rs_member_received_bytes_total counter\n",
            Metric::BytesSent =>
                b"# HELP rs_member_sent_bytes_total The octets that its connections took.\n# TYPE rs_member_sent_bytes_total counter\n",
            Metric::Waiting =>
                b"# HELP rs_member_waiting_prefixes The prefixes that wait to be sent to it.\n# TYPE rs_member_waiting_prefixes gauge\n",
        }
    }

    fn name(self) -> &'static [u8] {
        match self {
            Metric::Up => b"rs_member_up",
            Metric::Since => b"rs_member_changed_timestamp_seconds",
            Metric::Received => b"rs_member_received_prefixes",
            Metric::Refused => b"rs_member_refused_prefixes",
            Metric::Sent => b"rs_member_sent_prefixes",
            Metric::Faulted | Metric::PassedOver => b"rs_member_faulted_updates_total",
            Metric::UpdatesReceived => b"rs_member_received_updates_total",
            Metric::UpdatesSent => b"rs_member_sent_updates_total",
            Metric::BytesReceived => b"rs_member_received_bytes_total",
            Metric::BytesSent => b"rs_member_sent_bytes_total",
            Metric::Waiting => b"rs_member_waiting_prefixes",
        }
    }

    /// What is labelled beside the member.
    fn label(self) -> &'static [u8] {
        match self {
            Metric::Faulted => b"\",outcome=\"withdrawn_or_discarded\"} ",
            Metric::PassedOver => b"\",outcome=\"passed_over\"} ",
            _ => b"\"} ",
        }
    }

    fn value<T: Tables>(self, tables: &T, moments: &Moments<'_>, client: usize) -> u64 {
        if client >= tables.config().clients() {
            return 0;
        }
        match self {
            Metric::Up => u64::from(tables.is_established(client)),
            Metric::Since => moments.time(moments.change(client)),
            Metric::Received => tables.count(Rib::Received, client) as u64,
            Metric::Refused => tables.dropped(client) as u64,
            Metric::Sent => tables.count(Rib::Sent, client) as u64,
            Metric::Faulted => tables.faults(client).at_fault,
            Metric::PassedOver => tables.faults(client).passed_over,
            Metric::UpdatesReceived => moments.traffic(Direction::Heard, client).updates(),
            Metric::UpdatesSent => moments.traffic(Direction::Sent, client).updates(),
            Metric::BytesReceived => moments.traffic(Direction::Heard, client).octets(),
            Metric::BytesSent => moments.traffic(Direction::Sent, client).octets(),
            Metric::Waiting => tables.waiting(client) as u64,
        }
    }

    /// Puts what stands above the samples.
    pub fn put_head(self, text: &mut Vec<u8>) -> Result<(), AllocError> {
        text.extend_from_slice(self.head())
    }

    /// Puts the sample of a member.
    pub fn put_sample<T: Tables>(
        self,
        text: &mut Vec<u8>,
        tables: &T,
        moments: &Moments<'_>,
        client: usize,
    ) -> Result<(), AllocError> {
        let config = tables.config();
        if client >= config.clients() {
            return Ok(());
        }
        let parts = [
            Part::Plain(self.name()),
            Part::Plain(b"{member=\""),
            Part::Json(config.name(client).as_bytes()),
            Part::Plain(self.label()),
            Part::Number(self.value(tables, moments, client)),
            Part::Plain(b"\n"),
        ];
        put_parts(text, &parts)
    }
}

/// How many members have a session.
pub(crate) fn established<T: Tables>(tables: &T) -> u64 {
    let mut count = 0_u64;
    for client in 0..tables.config().clients() {
        if tables.is_established(client) {
            count = count.saturating_add(1);
        }
    }
    count
}

/// Puts what a metric of the server is, and of which type.
fn put_type<'a>(
    text: &mut Vec<u8>,
    name: &'a [u8],
    help: &'a [u8],
    metric_type: &'a [u8],
) -> Result<(), AllocError> {
    let parts = [
        Part::Plain(b"# HELP "),
        Part::Plain(name),
        Part::Plain(b" "),
        Part::Plain(help),
        Part::Plain(b"\n# TYPE "),
        Part::Plain(name),
        Part::Plain(b" "),
        Part::Plain(metric_type),
        Part::Plain(b"\n"),
    ];
    put_parts(text, &parts)
}

/// Puts a sample of the server: its name, with what it is labelled, and its value.
fn put_value(text: &mut Vec<u8>, name: &[u8], value: u64) -> Result<(), AllocError> {
    let parts = [
        Part::Plain(name),
        Part::Plain(b" "),
        Part::Number(value),
        Part::Plain(b"\n"),
    ];
    put_parts(text, &parts)
}

/// Puts a metric of the server that rises and falls.
fn put_gauge(text: &mut Vec<u8>, name: &[u8], help: &[u8], value: u64) -> Result<(), AllocError> {
    put_type(text, name, help, b"gauge")?;
    put_value(text, name, value)
}

/// Puts one that only rises.
fn put_counter(text: &mut Vec<u8>, name: &[u8], help: &[u8], value: u64) -> Result<(), AllocError> {
    put_type(text, name, help, b"counter")?;
    put_value(text, name, value)
}

/// Puts how many turns took at most so long, a text of seconds.
fn put_bucket(text: &mut Vec<u8>, bound: &str, count: u64) -> Result<(), AllocError> {
    text.extend_from_slice(b"rs_turn_duration_seconds_bucket{le=\"")?;
    text.extend_from_slice(bound.as_bytes())?;
    put_value(text, b"\"}", count)
}

/// Puts how long turns took: how many within each bound, and all.
fn put_turns(text: &mut Vec<u8>, turns: &Histogram) -> Result<(), AllocError> {
    put_type(
        text,
        b"rs_turn_duration_seconds",
        b"How long turns took.",
        b"histogram",
    )?;
    for (at, (_, bound)) in BOUNDS.iter().enumerate() {
        put_bucket(text, bound, turns.within(at.saturating_add(1)))?;
    }
    let all = turns.within(usize::MAX);
    put_bucket(text, "+Inf", all)?;
    text.extend_from_slice(b"rs_turn_duration_seconds_sum ")?;
    put_seconds(text, turns.sum())?;
    text.extend_from_slice(b"\n")?;
    put_value(text, b"rs_turn_duration_seconds_count", all)
}

/// Puts how large the tables are of what members announced.
fn put_routes<T: Tables>(text: &mut Vec<u8>, tables: &T) -> Result<(), AllocError> {
    put_gauge(
        text,
        b"rs_prefix_rows",
        b"The rows of the table of prefixes, used or free.",
        tables.rows() as u64,
    )?;
    put_gauge(
        text,
        b"rs_prefixes",
        b"The prefixes that have routes.",
        tables.prefixes() as u64,
    )?;
    put_gauge(
        text,
        b"rs_attribute_sets",
        b"The sets of attributes of these routes, equal ones as one.",
        tables.attribute_sets() as u64,
    )
}

/// Puts the metrics of the server.
pub fn put_server<T: Tables>(
    text: &mut Vec<u8>,
    tables: &T,
    moments: &Moments<'_>,
) -> Result<(), AllocError> {
    put_gauge(
        text,
        b"rs_up_seconds",
        b"The seconds since the start.",
        moments.now,
    )?;
    put_gauge(
        text,
        b"rs_members",
        b"The members.",
        tables.config().clients() as u64,
    )?;
    put_gauge(
        text,
        b"rs_members_established",
        b"The members whose session is Established.",
        established(tables),
    )?;
    put_routes(text, tables)?;
    put_counter(
        text,
        b"rs_memory_refused_total",
        b"How often memory was refused for a member.",
        moments.changes.counts.refusals(),
    )?;
    put_counter(
        text,
        b"rs_stranger_connections_total",
        b"Connections that were no member's and were closed.",
        moments.changes.counts.strangers(),
    )?;
    put_turns(text, moments.changes.counts.turns())
}
