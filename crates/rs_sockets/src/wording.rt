//! Reports in words, as they stand on standard error.

use crate::names::Names;
use crate::stamps::Stamp;
use rs_attrs::Mode;
use rs_core::{Ending, Notice};
use rs_octets::Notification;
use rs_open::{Limit, Short};
use rs_reports::communications::communication_in;
use rs_reports::offers::Offered;
use rs_reports::reports::{Holder, Report};
use rs_streams::printer::Printer;
use rs_streams::streams::Stream;
use std::fmt;
use std::net::Ipv4Addr;

/// How a NOTIFICATION of this error code and subcode is called.
#[derive(Drop)]
struct Called(u8, u8);

impl fmt::Display for Called {
    fn fmt<W: fmt::Write>(&self, f: &mut fmt::Formatter<W>) -> fmt::Result {
        match Notification::named(self.0, self.1) {
            Some(name) => write!(f, "{name}"),
            None => write!(f, "error {}, {}", self.0, self.1),
        }
    }
}

/// Octets in hexadecimal, after a word.
#[derive(Drop)]
struct Data<'a>(&'a [u8]);

impl fmt::Display for Data<'_> {
    fn fmt<W: fmt::Write>(&self, f: &mut fmt::Formatter<W>) -> fmt::Result {
        if !self.0.is_empty() {
            f.write_str(", data ")?;
        }
        for octet in self.0 {
            write!(f, "{octet:02x}")?;
        }
        Ok(())
    }
}

/// What a NOTIFICATION of this error code and subcode says beside them: a text, or its data.
#[derive(Drop)]
struct Said<'a>(u8, u8, &'a [u8]);

impl fmt::Display for Said<'_> {
    fn fmt<W: fmt::Write>(&self, f: &mut fmt::Formatter<W>) -> fmt::Result {
        let Said(code, sub, data) = *self;
        match communication_in(code, sub, data) {
            Some(it) => {
                write!(f, ", {:?}", it.text)?;
                f.write_str(if it.is_whole { "" } else { " and more" })
            }
            None => fmt::Display::fmt(&Data(data), f),
        }
    }
}

/// A NOTIFICATION with its data, and whether it was sent or heard.
#[derive(Drop)]
struct Noted<'a> {
    way: &'static str,
    code: u8,
    sub: u8,
    data: &'a [u8],
}

impl fmt::Display for Noted<'_> {
    fn fmt<W: fmt::Write>(&self, f: &mut fmt::Formatter<W>) -> fmt::Result {
        let Noted {
            way,
            code,
            sub,
            data,
        } = *self;
        write!(
            f,
            "NOTIFICATION {way}: {}{}",
            Called(code, sub),
            Said(code, sub, data)
        )
    }
}

/// What a session ended with.
fn sent(note: &Short) -> Option<Noted<'_>> {
    let Short::Note {
        code,
        sub,
        extra,
        count,
    } = note
    else {
        return None;
    };
    Some(Noted {
        way: "sent",
        code: *code,
        sub: *sub,
        data: extra.get(..usize::from(*count)).unwrap_or(extra),
    })
}

fn heard(notice: &Notice) -> Noted<'_> {
    Noted {
        way: "heard",
        code: notice.code,
        sub: notice.sub,
        data: notice.data.get(..notice.count).unwrap_or(&notice.data),
    }
}

/// What was offered by an OPEN that was refused by a NOTIFICATION of this subcode, and what it should
/// have been (RFC 4271, 6.2).
#[derive(Drop)]
struct Refused<'a>(u8, &'a Offered, u32);

impl fmt::Display for Refused<'_> {
    fn fmt<W: fmt::Write>(&self, f: &mut fmt::Formatter<W>) -> fmt::Result {
        let Refused(sub, offered, number) = *self;
        match sub {
            1 => write!(f, ": {}, not 4", offered.version),
            2 => write!(f, ": {}, not {number}", offered.number),
            3 => write!(f, ": {}", Ipv4Addr::from(offered.identifier)),
            6 => write!(f, ": {}", offered.hold),
            _ => Ok(()),
        }
    }
}

/// The error code of a fault of an OPEN (RFC 4271, 4.5).
const OPEN_FAULT: u8 = 2;

/// The subcode by which an OPEN was refused.
fn refused_by(ending: &Option<Ending>) -> Option<u8> {
    match ending {
        Some(Ending::Said(Short::Note { code, sub, .. })) if *code == OPEN_FAULT => Some(*sub),
        _ => None,
    }
}

/// The data of a NOTIFICATION by which the operator ended a session: that is the only sense in which the server
/// says Administrative Shutdown (RFC 4486, 4).
fn shut_down(note: &Short) -> Option<&[u8]> {
    let name = Notification::AdministrativeShutdown;
    match sent(note) {
        Some(said) if said.code == name.code() && said.sub == name.sub() => Some(said.data),
        _ => None,
    }
}

/// How the operator ended a session, by the data of the NOTIFICATION.
#[derive(Drop)]
struct ShutDown<'a>(&'a [u8]);

impl fmt::Display for ShutDown<'_> {
    fn fmt<W: fmt::Write>(&self, f: &mut fmt::Formatter<W>) -> fmt::Result {
        let name = Notification::AdministrativeShutdown;
        write!(
            f,
            "session ended by the operator: {name}{}",
            Said(name.code(), name.sub(), self.0)
        )
    }
}

/// Why a session ended.
#[derive(Drop)]
struct Why<'a>(&'a Option<Ending>);

impl fmt::Display for Why<'_> {
    fn fmt<W: fmt::Write>(&self, f: &mut fmt::Formatter<W>) -> fmt::Result {
        match self.0 {
            Some(Ending::Said(note)) => match (shut_down(note), sent(note)) {
                (Some(data), _) => write!(f, "{}", ShutDown(data)),
                (None, Some(noted)) => write!(f, "{noted}"),
                (None, None) => write!(f, "a message was sent"),
            },
            Some(Ending::HoldTimer) => write!(
                f,
                "NOTIFICATION sent: {}",
                Notification::HoldTimerExpired
            ),
            Some(Ending::Heard(notice)) => write!(f, "{}", heard(notice)),
            None | Some(Ending::Lost) => write!(f, "the connection was lost"),
            Some(Ending::Memory) => write!(f, "memory was refused"),
        }
    }
}

fn mode_text(mode: Mode) -> &'static str {
    match mode {
        Mode::Two => "two-octet",
        Mode::Four => "four-octet",
    }
}

/// How a client is spoken to.
#[derive(Drop)]
struct Agreed(Mode, Limit, u16);

impl fmt::Display for Agreed {
    fn fmt<W: fmt::Write>(&self, f: &mut fmt::Formatter<W>) -> fmt::Result {
        write!(
            f,
            "{} AS numbers, messages of up to {} octets, Hold Time {}",
            mode_text(self.0),
            self.1.octets(),
            self.2
        )
    }
}

fn holder_text(holder: Holder) -> &'static str {
    match holder {
        Holder::Session => "its session is up",
        Holder::Connection => "its session is not up yet",
        Holder::Nothing => "its session has ended since",
    }
}

/// The words for one, or those for several.
fn one_or_several(count: u64, one: &'static str, several: &'static str) -> &'static str {
    if count == 1 { one } else { several }
}

/// So many connections that were closed, and the address that the first came from.
#[derive(Drop)]
struct Closed(u64, u32);

impl fmt::Display for Closed {
    fn fmt<W: fmt::Write>(&self, f: &mut fmt::Formatter<W>) -> fmt::Result {
        let which = one_or_several(self.0, "connection", "connections");
        write!(
            f,
            "{} {which} from {} closed",
            self.0,
            Ipv4Addr::from(self.1)
        )
    }
}

/// A report in words, with the names of the clients: a line of the log but for its second.
#[derive(Drop)]
pub struct Worded<'a>(pub &'a Report, pub &'a Names);

impl fmt::Display for Worded<'_> {
    fn fmt<W: fmt::Write>(&self, f: &mut fmt::Formatter<W>) -> fmt::Result {
        let Worded(report, names) = *self;
        match report {
            Report::Strangers { address, count } => {
                let which = one_or_several(
                    *count,
                    "connection of a stranger,",
                    "connections of strangers, the first",
                );
                write!(f, "{count} {which} from {}", Ipv4Addr::from(*address))
            }
            Report::Up {
                client,
                mode,
                limit,
                hold,
            } => {
                let (name, number) = (names.name(*client), names.number(*client));
                write!(
                    f,
                    "{name} up: AS {number}, {}",
                    Agreed(*mode, *limit, *hold)
                )
            }
            Report::Down {
                client,
                ending,
                offered,
            } => {
                write!(f, "{} down: {}", names.name(*client), Why(ending))?;
                match (refused_by(ending), offered) {
                    (Some(sub), Some(offered)) => {
                        write!(f, "{}", Refused(sub, offered, names.number(*client)))
                    }
                    _ => Ok(()),
                }
            }
            Report::Busy {
                client,
                address,
                count,
                holder,
            } => {
                write!(
                    f,
                    "{} busy: {}, {}",
                    names.name(*client),
                    Closed(*count, *address),
                    holder_text(*holder)
                )
            }
            Report::KeptOut {
                client,
                address,
                count,
            } => {
                let closed = Closed(*count, *address);
                write!(f, "{} disabled: {closed}", names.name(*client))
            }
            Report::Enabled { client } => {
                write!(f, "{} enabled by the operator", names.name(*client))
            }
            Report::Faulted {
                client,
                count,
                last,
            } => {
                let which = one_or_several(*count, "UPDATE at fault", "UPDATEs at fault, the last");
                write!(f, "{}: {count} {which}: {last}", names.name(*client))
            }
            Report::PassedOver { client } => {
                let name = names.name(*client);
                write!(f, "{name}: routes in MP_REACH_NLRI (14) are passed over")
            }
            Report::Rules(Ok(())) => write!(f, "rules accepted"),
            Report::Rules(Err(fault)) => write!(f, "rules refused: {fault}"),
            Report::File(fault) => {
                let (path, colon) = names.before(fault);
                write!(f, "rules refused: {path}{colon}{fault}")
            }
            Report::LeftOut { client, count } => {
                let reports = one_or_several(*count, "report", "reports");
                write!(f, "{}: {count} {reports} left out", names.name(*client))
            }
        }
    }
}

impl Worded<'_> {
    /// Prints the report as a line, after a stamp.
    pub fn print<S: Stream>(&self, output: &mut Printer<S>, stamp: Stamp) {
        output.print(format_args!("{stamp} {self}"));
    }
}
