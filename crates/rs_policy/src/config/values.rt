//! The value at a key of a table: how it is read, and what is wrong with it.

ghost use Rattle.std.specs.Prelude.{◌≡◌, Option, option_map, option_and_then};
ghost use Rattle.toml.specs.Data.{Data, get, as_str, as_bool};
ghost use Rattle.toml.specs.View.{view};
ghost use Rattle.rs_policy.specs.Keys.{key_text};
ghost use Rattle.rs_policy.specs.Texts.{address_of, endpoint_of, prefix_of, community_of, large_community_of, pattern_of, large_pattern_of};
ghost use Rattle.rs_policy.specs.Values.{as_entry, integer_in, hold_seconds, prefix_entry, text_as, address, identifier, disposition_of, name_of, nothing, required_at, optional_at, maybe_at};

use crate::config::texts;
use crate::faults::{ConfigFault, Key, Place};
use crate::rules::{CommunityTest, Disposition, LargeCommunityTest, Range};
use rs_attrs::{CommunityPattern, LargeCommunityPattern};
use rs_octets::{Prefix, is_refused_hold};
use toml::value::Value;

/// A kind of value that a key may have.
pub(crate) trait Kind {
    type Out;

    ghost reads: { Self → Data → Option Self.Out };

    /// What the value is, where it is of this kind.
    fn read(&self, value: &Value) -> Option<Self::Out>
        ensures { result ≡ reads self.now (view value.now) };
}

/// Integers from `low` to `high`.
#[derive(Clone, Copy)]
pub(crate) struct Integer {
    pub(crate) low: u32,
    pub(crate) high: u32,
}

impl Kind for Integer {
    type Out = u32;

    ghost reads = { λ k. integer_in k.low k.high };

    fn read(&self, value: &Value) -> Option<u32> {
        match value.as_integer() {
            Some(number) if i64::from(self.low) <= number && number <= i64::from(self.high) => {
                Some(number.unsigned_abs() as u32)
            }
            _ => None,
        }
    }
}

/// AS numbers and limits.
pub(crate) const POSITIVE: Integer = Integer {
    low: 1,
    high: 4_294_967_295,
};

/// Numbers of 32 bits.
pub(crate) const ANY: Integer = Integer {
    low: 0,
    high: 4_294_967_295,
};

/// Lengths of prefixes, from `low` on.
#[derive(Clone, Copy)]
pub(crate) struct Length {
    pub(crate) low: u8,
}

impl Kind for Length {
    type Out = u8;

    ghost reads = { λ k. integer_in k.low 32 };

    fn read(&self, value: &Value) -> Option<u8> {
        let length = Integer {
            low: u32::from(self.low),
            high: 32,
        };
        match length.read(value) {
            None => None,
            Some(length) => Some(length as u8),
        }
    }
}

/// No value is right.
#[derive(Clone, Copy)]
pub(crate) struct Nothing;

impl Kind for Nothing {
    type Out = u32;

    ghost reads = { λ k. nothing };

    fn read(&self, _value: &Value) -> Option<u32> {
        None
    }
}

/// Seconds, other than 1 and 2.
#[derive(Clone, Copy)]
pub(crate) struct HoldTime;

impl Kind for HoldTime {
    type Out = u16;

    ghost reads = { λ k. hold_seconds };

    fn read(&self, value: &Value) -> Option<u16> {
        let seconds = Integer {
            low: 0,
            high: 65535,
        };
        let seconds = seconds.read(value)? as u16;
        if is_refused_hold(seconds) {
            None
        } else {
            Some(seconds)
        }
    }
}

#[derive(Clone, Copy)]
pub(crate) struct Flag;

impl Kind for Flag {
    type Out = bool;

    ghost reads = { λ k. as_bool };

    fn read(&self, value: &Value) -> Option<bool> {
        value.as_bool()
    }
}

#[derive(Clone, Copy)]
pub(crate) struct Address;

impl Kind for Address {
    type Out = u32;

    ghost reads = { λ k. address };

    fn read(&self, value: &Value) -> Option<u32> {
        texts::address(value.as_str()?.as_bytes())
    }
}

/// Addresses other than 0.0.0.0.
#[derive(Clone, Copy)]
pub(crate) struct Identifier;

impl Kind for Identifier {
    type Out = u32;

    ghost reads = { λ k. identifier };

    fn read(&self, value: &Value) -> Option<u32> {
        match Address.read(value) {
            None | Some(0) => None,
            Some(identifier) => Some(identifier),
        }
    }
}

/// An address and a port.
#[derive(Clone, Copy)]
pub(crate) struct Endpoint;

impl Kind for Endpoint {
    type Out = (u32, u16);

    ghost reads = { λ k. text_as endpoint_of };

    fn read(&self, value: &Value) -> Option<(u32, u16)> {
        texts::endpoint(value.as_str()?.as_bytes())
    }
}

#[derive(Clone, Copy)]
pub(crate) struct PrefixText;

impl Kind for PrefixText {
    type Out = Prefix;

    ghost reads = { λ k. text_as prefix_of };

    fn read(&self, value: &Value) -> Option<Prefix> {
        texts::prefix(value.as_str()?.as_bytes())
    }
}

/// An entry of `prefixes`: a prefix, or one with a range operator.
#[derive(Clone, Copy)]
pub(crate) struct PrefixEntry;

impl Kind for PrefixEntry {
    type Out = Range;

    ghost reads = { λ k. prefix_entry };

    fn read(&self, value: &Value) -> Option<Range> {
        texts::prefix_range(value.as_str()?.as_bytes())
    }
}

/// An entry of `ases`: an AS number, or those from one to another.
#[derive(Clone, Copy)]
pub(crate) struct AsEntry;

impl Kind for AsEntry {
    type Out = (u32, u32);

    ghost reads = { λ k. as_entry };

    fn read(&self, value: &Value) -> Option<(u32, u32)> {
        match ANY.read(value) {
            Some(number) => Some((number, number)),
            None => texts::as_range(value.as_str()?.as_bytes()),
        }
    }
}

/// A community that a rule tests.
#[derive(Clone, Copy)]
pub(crate) struct CommunityText {
    /// Whether a part may be `peer`.
    pub(crate) peer: bool,
}

impl Kind for CommunityText {
    type Out = CommunityTest;

    ghost reads = { λ k. text_as (community_of k.peer) };

    fn read(&self, value: &Value) -> Option<CommunityTest> {
        texts::community(value.as_str()?.as_bytes(), self.peer)
    }
}

/// A large community that a rule tests.
#[derive(Clone, Copy)]
pub(crate) struct LargeCommunityText {
    /// Whether a part may be `peer`.
    pub(crate) peer: bool,
}

impl Kind for LargeCommunityText {
    type Out = LargeCommunityTest;

    ghost reads = { λ k. text_as (large_community_of k.peer) };

    fn read(&self, value: &Value) -> Option<LargeCommunityTest> {
        texts::large_community(value.as_str()?.as_bytes(), self.peer)
    }
}

/// Communities that a rule takes away.
#[derive(Clone, Copy)]
pub(crate) struct PatternText;

impl Kind for PatternText {
    type Out = CommunityPattern;

    ghost reads = { λ k. text_as pattern_of };

    fn read(&self, value: &Value) -> Option<CommunityPattern> {
        texts::pattern(value.as_str()?.as_bytes())
    }
}

/// Large communities that a rule takes away.
#[derive(Clone, Copy)]
pub(crate) struct LargePatternText;

impl Kind for LargePatternText {
    type Out = LargeCommunityPattern;

    ghost reads = { λ k. text_as large_pattern_of };

    fn read(&self, value: &Value) -> Option<LargeCommunityPattern> {
        texts::large_pattern(value.as_str()?.as_bytes())
    }
}

/// "pass" or "drop".
#[derive(Clone, Copy)]
pub(crate) struct PassOrDrop;

impl Kind for PassOrDrop {
    type Out = Disposition;

    ghost reads = { λ k. text_as disposition_of };

    fn read(&self, value: &Value) -> Option<Disposition> {
        match value.as_str()? {
            "pass" => Some(Disposition::Pass),
            "drop" => Some(Disposition::Drop),
            _ => None,
        }
    }
}

/// What a table has at a key.
pub(crate) fn find(table: &Value, key: Key) -> Option<&Value>
    ensures { option_map (λ v. view v.now) result ≡ get (key_text key) (view table.now) }
{
    table.get(key.text())
}

/// The value at a key that has to be there.
#[tactic(auto, unfolding(crate::specs::Values::required_at))]
pub(crate) fn required<K: Kind + Drop>(
    table: &Value,
    here: Place,
    key: Key,
    kind: K,
) -> Result<K::Out, ConfigFault>
    ensures { result ≡ required_at (K.reads kind) here key (view table.now) }
{
    let place = Place { key, ..here };
    match find(table, key) {
        None => Err(ConfigFault::Missing(place)),
        Some(value) => kind.read(value).ok_or(ConfigFault::BadValue(place)),
    }
}

/// The value at a key that may be left out, and is this other one then.
#[tactic(auto, unfolding(crate::specs::Values::optional_at))]
pub(crate) fn optional<K: Kind + Drop>(
    table: &Value,
    here: Place,
    key: Key,
    kind: K,
    other: K::Out,
) -> Result<K::Out, ConfigFault>
where
    K::Out: Drop,
    ensures { result ≡ optional_at (K.reads kind) other here key (view table.now) }
{
    match find(table, key) {
        None => Ok(other),
        Some(value) => kind
            .read(value)
            .ok_or(ConfigFault::BadValue(Place { key, ..here })),
    }
}

/// The value at a key that may be left out.
#[tactic(auto, unfolding(crate::specs::Values::optional_at))]
pub(crate) fn maybe<K: Kind + Drop>(
    table: &Value,
    here: Place,
    key: Key,
    kind: K,
) -> Result<Option<K::Out>, ConfigFault>
    ensures { result ≡ maybe_at (K.reads kind) here key (view table.now) }
{
    match find(table, key) {
        None => Ok(None),
        Some(value) => match kind.read(value) {
            None => Err(ConfigFault::BadValue(Place { key, ..here })),
            Some(read) => Ok(Some(read)),
        },
    }
}
