//! What can be wrong with a configuration, and where.

mod line;

ghost use Rattle.std.specs.Prelude.{◌≡◌, ◌≤◌, length};
ghost use Rattle.rs_octets.specs.Writes.{Writes};
ghost use Rattle.rs_policy.specs.Keys.{key_text};
ghost use Rattle.rs_policy.specs.FaultTexts.{fault_text, rules_fault_text};

use crate::faults::line::Line;
use rs_octets::put;
use std::alloc::{AllocError, AllocFailed};
use std::error::Error;
use std::fmt;

/// A key of a configuration.
#[derive(Clone, Copy, Debug, PartialEq, Eq)]
pub enum Key {
    As,
    Identifier,
    Hold,
    Default,
    Extended,
    Refresh,
    Multiprotocol,
    Client,
    List,
    Rules,
    Name,
    Listen,
    Peer,
    Limit,
    Import,
    Export,
    Prefixes,
    Ases,
    Prefix,
    Min,
    Max,
    PrefixIn,
    From,
    PathHas,
    PathLonger,
    PathIn,
    OriginAs,
    OriginIn,
    FirstAsIsPeer,
    Community,
    LargeCommunity,
    NextHopIsPeer,
    Action,
    Preference,
    Strip,
    StripLarge,
    Use,
    /// Any key that its table hasn't.
    Other,
}

impl Key {
    /// The key as a configuration spells it.
    pub fn text(self) -> &'static str
        ensures { result.now ≡ key_text self }
    {
        match self {
            Key::As => "as",
            Key::Identifier => "identifier",
            Key::Hold => "hold",
            Key::Default => "default",
            Key::Extended => "extended",
            Key::Refresh => "refresh",
            Key::Multiprotocol => "multiprotocol",
            Key::Client => "client",
            Key::List => "list",
            Key::Rules => "rules",
            Key::Name => "name",
            Key::Listen => "listen",
            Key::Peer => "peer",
            Key::Limit => "limit",
            Key::Import => "import",
            Key::Export => "export",
            Key::Prefixes => "prefixes",
            Key::Ases => "ases",
            Key::Prefix => "prefix",
            Key::Min => "min",
            Key::Max => "max",
            Key::PrefixIn => "prefix_in",
            Key::From => "from",
            Key::PathHas => "path_has",
            Key::PathLonger => "path_longer",
            Key::PathIn => "path_in",
            Key::OriginAs => "origin_as",
            Key::OriginIn => "origin_in",
            Key::FirstAsIsPeer => "first_as_is_peer",
            Key::Community => "community",
            Key::LargeCommunity => "large_community",
            Key::NextHopIsPeer => "next_hop_is_peer",
            Key::Action => "action",
            Key::Preference => "preference",
            Key::Strip => "strip",
            Key::StripLarge => "strip_large",
            Key::Use => "use",
            Key::Other => "?",
        }
    }
}

/// A list of rules: of a client, or one that others use.
#[derive(Clone, Copy, Debug, PartialEq, Eq)]
pub enum List {
    /// The rules for the routes that the client sends.
    Import,
    /// The rules for the routes that it is sent.
    Export,
    /// Rules that lists of clients use.
    Shared,
}

/// A table of a configuration. All are counted from 1.
#[derive(Clone, Copy, Debug, PartialEq, Eq)]
pub enum Table {
    Top,
    /// The table of a client.
    Client(usize),
    /// Rules that lists of clients use.
    Rules(usize),
    /// A rule of a list of rules, which is a client's or the rules of this number.
    Rule(usize, List, usize),
    /// A list that rules name.
    List(usize),
    /// Of such a list an entry of the array at the key.
    Entry(usize, usize),
}

/// A place in a configuration.
#[derive(Clone, Copy, Debug, PartialEq, Eq)]
pub struct Place {
    pub table: Table,
    pub key: Key,
}

/// What is wrong with a configuration: the first fault, in the order of the handbook.
#[derive(Clone, Copy, Debug, PartialEq, Eq)]
pub enum ConfigFault {
    /// The text is no TOML document.
    Syntax,
    /// A key that has to be there isn't, or there is no client.
    Missing(Place),
    /// A value is of a wrong kind or out of its range, or the key isn't known there.
    BadValue(Place),
    /// The client, counted from 1, has the name or the pair of `listen` and `peer` of an earlier one.
    Twice(usize),
    /// The list, counted from 1, has the name of an earlier one.
    TwiceList(usize),
    /// The rules, counted from 1, have the name of earlier ones.
    TwiceRules(usize),
    /// An array is too long.
    TooMany(Place),
    /// Memory was refused.
    OutOfMemory,
}

impl fmt::Display for ConfigFault {
    fn fmt<W: fmt::Write>(&self, f: &mut fmt::Formatter<W>) -> fmt::Result {
        self.line().fmt(f)
    }
}

impl Error for ConfigFault {}

impl From<AllocError> for ConfigFault {
    ghost use Rattle.std.specs.Prelude.{◌≡◌};
    ghost use Rattle.rs_policy.specs.declared.faults.ConfigFault.TheVariants.{OutOfMemory};

    ghost from_gives = { λ _ e. e ≡ OutOfMemory };

    fn from(_error: AllocError) -> ConfigFault {
        ConfigFault::OutOfMemory
    }
}

impl<T: Drop> From<AllocFailed<T>> for ConfigFault {
    ghost use Rattle.std.specs.Prelude.{◌≡◌};
    ghost use Rattle.rs_policy.specs.declared.faults.ConfigFault.TheVariants.{OutOfMemory};

    ghost from_gives = { λ _ e. e ≡ OutOfMemory };

    fn from(_error: AllocFailed<T>) -> ConfigFault {
        ConfigFault::OutOfMemory
    }
}

impl ConfigFault {
    /// Writes the fault's text, and answers its length.
    pub fn write(&self, out: &mut [u8; 96]) -> usize
        ensures within { result ≤ 96 }
        ensures length { result ≡ length (fault_text self.now) }
        ensures octets { Writes 0 (fault_text self.now) out.old out.new }
    {
        let line = self.line();
        put(out, 0, line.octets())
    }

    #[tactic(auto, unfolding(crate::specs::FaultTexts::fault_text))]
    pub(crate) fn line(&self) -> Line
        ensures { result ≡ fault_text self.now }
    {
        match self {
            ConfigFault::Syntax => Line::of(b"syntax"),
            ConfigFault::Missing(place) => Line::of(b"missing ").with_place(place),
            ConfigFault::BadValue(place) => Line::of(b"bad value ").with_place(place),
            ConfigFault::Twice(client) => Line::of(b"twice ").with_client(*client),
            ConfigFault::TwiceList(list) => Line::of(b"twice ").with_named_list(*list),
            ConfigFault::TwiceRules(rules) => Line::of(b"twice ").with_shared(*rules),
            ConfigFault::TooMany(place) => Line::of(b"too many ").with_place(place),
            ConfigFault::OutOfMemory => Line::of(b"out of memory"),
        }
    }
}

/// Why other rules are refused while the server runs: the first cause, in this order.
#[derive(Clone, Copy, Debug, PartialEq, Eq)]
pub enum RulesFault {
    /// The octets aren't UTF-8.
    Unreadable,
    /// The text is no configuration.
    Config(ConfigFault),
    /// The first place that differs and can't while the server runs.
    Fixed(Place),
}

impl fmt::Display for RulesFault {
    fn fmt<W: fmt::Write>(&self, f: &mut fmt::Formatter<W>) -> fmt::Result {
        self.line().fmt(f)
    }
}

impl Error for RulesFault {}

impl RulesFault {
    /// Writes the fault's text, and answers its length.
    pub fn write(&self, out: &mut [u8; 96]) -> usize
        ensures within { result ≤ 96 }
        ensures length { result ≡ length (rules_fault_text self.now) }
        ensures octets { Writes 0 (rules_fault_text self.now) out.old out.new }
    {
        let line = self.line();
        put(out, 0, line.octets())
    }

    #[tactic(auto, unfolding(crate::specs::FaultTexts::rules_fault_text))]
    fn line(&self) -> Line
        ensures { result ≡ rules_fault_text self.now }
    {
        match self {
            RulesFault::Unreadable => Line::of(b"unreadable"),
            RulesFault::Config(fault) => fault.line(),
            RulesFault::Fixed(place) => Line::of(b"fixed ").with_place(place),
        }
    }
}
