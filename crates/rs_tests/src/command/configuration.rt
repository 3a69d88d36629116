//! What the reader of the files of the configuration answers where memory is refused, and what is printed of it. What it
//! answers to files is played: by `tools/plays/commands.py`.

use super::{Streams, is_printed};
use crate::common::equals;
use rs_start::Status;
use rs_start::configuration::{
    ConfigurationFault, Configured, Unconfigured, read_configuration_from,
};
use rs_texts::{Text, read_on};
use std::io;
use std::io::ErrorKind;

/// Two members.
const GOOD: &str = "as = 64500\nidentifier = \"192.0.2.1\"\n\
[[client]]\nname = \"a\"\nas = 64496\nlisten = \"127.0.0.1:17901\"\npeer = \"192.0.2.11\"\n\
[[client]]\nname = \"b\"\nas = 64497\nlisten = \"127.0.0.1:17902\"\npeer = \"192.0.2.12\"\n";

/// What comes of a configuration: how many clients it has, or its fault and which file can't be read.
type Read = Result<usize, (ConfigurationFault, Option<usize>)>;

/// What was read, but for its texts.
fn read_of(read: Result<Configured, Unconfigured>) -> Read {
    match read {
        Ok(it) => Ok(it.config.clients()),
        Err(it) => Err((it.fault, it.unread.map(|(place, _)| place))),
    }
}

/// A text that can't be read, in this way, or these octets.
#[derive(Drop)]
enum Told<'a> {
    Fails(ErrorKind),
    Octets(&'a [u8]),
}

impl Text for Told<'_> {
    fn put_behind(&self, front: &mut Vec<u8>) -> io::Result<bool> {
        match self {
            Told::Fails(kind) => Err((*kind).into()),
            Told::Octets(octets) => {
                let mut left: &[u8] = octets;
                read_on(front, &mut left)
            }
        }
    }
}

/// Of a good text and one that fails in some way this is answered.
#[test]
fn want_of_memory_is_no_fault_of_the_file(rt: HostRuntime) {
    let memory = (ConfigurationFault::Memory, None);
    let unreadable = (ConfigurationFault::Unreadable, Some(1));
    for (kind, fault) in [
        (ErrorKind::OutOfMemory, memory),
        (ErrorKind::PermissionDenied, unreadable),
    ] {
        let texts = [Told::Octets(GOOD.as_bytes()), Told::Fails(kind)];
        let read = read_of(read_configuration_from(rt.alloc(), &texts));
        equals(&rt, read, Err(fault));
    }
}

/// Memory that is refused is told by this line, and this is the status to end with.
#[test]
fn want_of_memory_is_reported(rt: HostRuntime) {
    let streams = Streams::new(rt.alloc());
    let status = ConfigurationFault::Memory.report(&streams);
    equals(&rt, status, Status::Failed);
    is_printed(&rt, &streams, "", "out of memory\n");
}
