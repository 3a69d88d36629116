//! How the server begins to listen, or why it can't.

use crate::listeners::Listeners;
use mio::net::TcpListener;
use mio::{Events, Interest, Poll, Token};
use rs_streams::printer::Printer;
use rs_streams::streams::Descriptor;
use std::alloc::{AllocError, Global};
use std::net::{Ipv4Addr, Net, SocketAddr, SocketAddrV4};
use std::{fmt, io};

/// The tokens of listeners lie above those of connections.
pub(crate) const FIRST_LISTENER: usize = 1 << 32;

/// Why the server can't listen: at this address, or before any was tried.
#[derive(Clone, Copy, Debug, Drop)]
pub struct ListenFault {
    pub address: Option<SocketAddrV4>,
    pub error: io::Error,
}

impl ListenFault {
    /// A fault at this address.
    fn at(address: (u32, u16), error: io::Error) -> ListenFault {
        ListenFault {
            address: Some(SocketAddrV4::new(Ipv4Addr::from(address.0), address.1)),
            error,
        }
    }
}

impl From<io::Error> for ListenFault {
    fn from(error: io::Error) -> ListenFault {
        ListenFault {
            address: None,
            error,
        }
    }
}

impl From<AllocError> for ListenFault {
    fn from(error: AllocError) -> ListenFault {
        ListenFault {
            address: None,
            error: error.into(),
        }
    }
}

impl fmt::Display for ListenFault {
    fn fmt<W: fmt::Write>(&self, f: &mut fmt::Formatter<W>) -> fmt::Result {
        match self.address {
            Some(address) => write!(f, "{address}: {}", self.error),
            None => write!(f, "{}", self.error),
        }
    }
}

/// Listens at an address and says so, a line. The poll knows the listener by its place.
fn open_listener<R: Net>(
    rt: &R,
    poll: &Poll,
    output: &mut Printer<Descriptor>,
    place: usize,
    address: (u32, u16),
) -> io::Result<TcpListener> {
    let address = SocketAddrV4::new(Ipv4Addr::from(address.0), address.1);
    let mut listener = TcpListener::bind(rt, SocketAddr::V4(address))?;
    let token = Token(FIRST_LISTENER.saturating_add(place));
    poll.registry()
        .register(&mut listener, token, Interest::READABLE)?;
    output.print(format_args!("listening {address}"));
    Ok(listener)
}

/// Listens at these addresses.
fn open_listeners<R: Net>(
    rt: &R,
    poll: &Poll,
    output: &mut Printer<Descriptor>,
    listeners: &mut Listeners,
    addresses: &[(u32, u16)],
) -> Result<(), ListenFault> {
    for (place, address) in addresses.iter().enumerate() {
        match open_listener(rt, poll, output, place, *address) {
            Ok(listener) => listeners.add(listener)?,
            Err(error) => return Err(ListenFault::at(*address, error)),
        }
    }
    Ok(())
}

/// Listeners under a poll, and standard output, where it was said of each.
pub(crate) struct Listening {
    pub(crate) poll: Poll,
    pub(crate) events: Events,
    pub(crate) listeners: Listeners,
    pub(crate) output: Printer<Descriptor>,
}

impl Listening {
    /// Listens at these addresses and says so, a line each.
    pub(crate) fn open<R: Net>(
        rt: &R,
        alloc: Global,
        addresses: &[(u32, u16)],
    ) -> Result<Listening, ListenFault> {
        let events = Events::with_capacity(alloc, 1024)?;
        let mut output = Printer::new(alloc, Descriptor::stdout())?;
        let poll = Poll::new(rt)?;
        let mut listeners = Listeners::new(alloc);
        open_listeners(rt, &poll, &mut output, &mut listeners, addresses)?;
        Ok(Listening {
            poll,
            events,
            listeners,
            output,
        })
    }
}
