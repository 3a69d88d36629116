//! The messages that a session says by itself, and how long a message may be.

ghost use Rattle.std.specs.Prelude.{◌≡◌, IfSome, IfNone};
ghost use Rattle.rs_octets.specs.declared.notification.Notification.{Notification};
ghost use Rattle.rs_open.specs.Notes.{note_of, IsNameOf, HasData, shutdown_note, shutdown_data, text_octets, limit_octets};
ghost use Rattle.rs_open.specs.Notes as notes;

use crate::shutdown::ShutdownText;
use rs_octets::{Notification, longest_message};

/// A message that a session says: any but an UPDATE.
#[derive(Clone, Copy, Debug, PartialEq, Eq)]
pub enum Short {
    /// The server's OPEN.
    Open,
    Keepalive,
    /// A NOTIFICATION with its error code, its subcode and the first `count` octets of `extra` as its
    /// data (RFC 4271, 4.5).
    Note {
        code: u8,
        sub: u8,
        extra: [u8; 129],
        count: u8,
    },
}

impl Short {
    /// A NOTIFICATION without data.
    pub fn note(code: u8, sub: u8) -> Short
        ensures { result ≡ notes.note code sub }
    {
        Short::Note {
            code,
            sub,
            extra: [0; 129],
            count: 0,
        }
    }

    /// The NOTIFICATION of this name, without data.
    pub fn of(name: Notification) -> Short
        ensures { result ≡ note_of name }
    {
        Short::note(name.code(), name.sub())
    }

    /// The name of a message that is a NOTIFICATION, where it has one.
    pub fn name(&self) -> Option<Notification>
        ensures some { IfSome result (IsNameOf self.now) }
        ensures none { IfNone result ((name : Notification) → IsNameOf self.now name → ⊥) }
    {
        match self {
            Short::Note { code, sub, .. } => Notification::named(*code, *sub),
            Short::Open | Short::Keepalive => None,
        }
    }

    /// A NOTIFICATION with one octet of data.
    pub fn note_1(code: u8, sub: u8, a: u8) -> Short
        ensures { result ≡ notes.note_1 code sub a }
    {
        let mut extra = [0; 129];
        extra[0] = a;
        Short::Note {
            code,
            sub,
            extra,
            count: 1,
        }
    }

    /// A NOTIFICATION with two octets of data.
    pub fn note_2(code: u8, sub: u8, a: u8, b: u8) -> Short
        ensures { result ≡ notes.note_2 code sub a b }
    {
        let mut extra = [0; 129];
        extra[..2].copy_from_slice(&[a, b]);
        Short::Note {
            code,
            sub,
            extra,
            count: 2,
        }
    }

    /// The NOTIFICATION of a session that the operator ends (RFC 4486, 4), with this text behind its
    /// length as its data (RFC 9003, 2), or without data where there is no text.
    pub fn shutdown(text: ShutdownText) -> Short
        ensures note { result ≡ shutdown_note text }
        ensures data { HasData result (shutdown_data (text_octets text)) }
    {
        let name = Notification::AdministrativeShutdown;
        let length = text.count.min(128);
        let mut extra = [0; 129];
        extra[0] = length;
        extra[1..].copy_from_slice(&text.octets);
        Short::Note {
            code: name.code(),
            sub: name.sub(),
            extra,
            count: if length == 0 { 0 } else { length + 1 },
        }
    }
}

/// How long a message to a peer may be.
#[derive(Clone, Copy, Debug, PartialEq, Eq)]
pub enum Limit {
    /// 4,096 octets (RFC 4271, 4.1).
    Short,
    /// 65,535 octets (RFC 8654, 4).
    Long,
}

impl Limit {
    /// The limit in octets.
    pub fn octets(self) -> usize
        ensures { result ≡ limit_octets self }
    {
        match self {
            Limit::Short => usize::from(longest_message(false)),
            Limit::Long => usize::from(longest_message(true)),
        }
    }
}
