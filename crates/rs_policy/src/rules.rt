//! Rules as values.

pub(crate) mod alike;
pub(crate) mod asked;
mod matching;
pub(crate) mod noting;
mod offer;
pub(crate) mod reasons;
pub(crate) mod receivers;
pub(crate) mod verdict;

ghost use Rattle.std.specs.Prelude.{◌≡◌, true, []};
ghost use Rattle.rs_policy.specs.Configuration.{written_out};
ghost use Rattle.rs_policy.specs.Patterns.{number_for, number_for_any, is_peer, pattern_for, pattern_for_any, large_pattern_for, large_pattern_for_any, names_peer, large_names_peer, tests_name_peer};
ghost use Rattle.rs_policy.specs.Verdicts.{named_by, takes_all};

use crate::config::shared_rules::SharedRules;
use rs_attrs::{CommunityPattern, LargeCommunityPattern};
use rs_octets::Prefix;
use std::marker::Model;

/// Whether a route is passed on or dropped.
#[derive(Clone, Copy)]
pub(crate) enum Disposition {
    Pass,
    Drop,
}

/// A part of a community that a rule tests.
#[derive(Clone, Copy)]
pub(crate) enum Part {
    Number(u32),
    /// Any number.
    Any,
    /// The AS number of the client to which the route goes.
    Peer,
}

/// Which communities (RFC 1997) a rule asks for: the first and the last 16 bits.
#[derive(Clone, Copy)]
pub(crate) struct CommunityTest {
    pub(crate) high: Part,
    pub(crate) low: Part,
}

/// Which large communities (RFC 8092) a rule asks for: the Global Administrator and the local data.
#[derive(Clone, Copy)]
pub(crate) struct LargeCommunityTest {
    pub(crate) global: Part,
    pub(crate) first: Part,
    pub(crate) second: Part,
}

impl Part {
    /// The number that it has to be, on the way to a client with this AS number.
    fn number_for(self, to_as: u32) -> Option<u32>
        ensures { result ≡ number_for to_as self }
    {
        match self {
            Part::Number(number) => Some(number),
            Part::Any => None,
            Part::Peer => Some(to_as),
        }
    }

    /// The number that it has to be, whoever the receiver is.
    fn number_for_any(self) -> Option<u32>
        ensures { result ≡ number_for_any self }
    {
        match self {
            Part::Number(number) => Some(number),
            Part::Any | Part::Peer => None,
        }
    }

    fn is_peer(self) -> bool
        ensures { result ≡ is_peer self }
    {
        matches!(self, Part::Peer)
    }
}

impl CommunityTest {
    /// What it asks for on the way to a client with this AS number.
    pub(crate) fn pattern_for(self, to_as: u32) -> CommunityPattern
        ensures { result ≡ pattern_for to_as self }
    {
        CommunityPattern {
            high: self.high.number_for(to_as),
            low: self.low.number_for(to_as),
        }
    }

    /// What it asks for, whoever the receiver is.
    pub(crate) fn pattern_for_any(self) -> CommunityPattern
        ensures { result ≡ pattern_for_any self }
    {
        CommunityPattern {
            high: self.high.number_for_any(),
            low: self.low.number_for_any(),
        }
    }

    pub(crate) fn names_peer(self) -> bool
        ensures { result ≡ names_peer self }
    {
        self.high.is_peer() || self.low.is_peer()
    }
}

impl LargeCommunityTest {
    /// What it asks for on the way to a client with this AS number.
    pub(crate) fn pattern_for(self, to_as: u32) -> LargeCommunityPattern
        ensures { result ≡ large_pattern_for to_as self }
    {
        LargeCommunityPattern {
            global: self.global.number_for(to_as),
            first: self.first.number_for(to_as),
            second: self.second.number_for(to_as),
        }
    }

    /// What it asks for, whoever the receiver is.
    pub(crate) fn pattern_for_any(self) -> LargeCommunityPattern
        ensures { result ≡ large_pattern_for_any self }
    {
        LargeCommunityPattern {
            global: self.global.number_for_any(),
            first: self.first.number_for_any(),
            second: self.second.number_for_any(),
        }
    }

    pub(crate) fn names_peer(self) -> bool
        ensures { result ≡ large_names_peer self }
    {
        self.global.is_peer() || self.first.is_peer() || self.second.is_peer()
    }
}

/// Patterns of communities or of large communities.
#[derive(Drop)]
pub(crate) struct Patterns<P> {
    patterns: Vec<P>,
}

impl<P> Model for Patterns<P> {
    ghost use Rattle.std.specs.Prelude.{List};

    ghost Value = { List P };

    ghost view = { λ p. p.patterns.items };
}

impl<P> Patterns<P> {
    pub(crate) fn of(patterns: Vec<P>) -> Patterns<P>
        ensures { result ≡ patterns.items }
    {
        Patterns { patterns }
    }

    fn as_slice(&self) -> &[P]
        ensures { result.now ≡ self.now }
    {
        &self.patterns
    }
}

/// Which communities, or which large communities, a rule takes away.
#[derive(Drop)]
pub(crate) enum Stripping<P> {
    Named(Patterns<P>),
    All,
}

impl<P> Stripping<P> {
    /// The patterns of those that are taken away, where not all are.
    pub(crate) fn named(&self) -> &[P]
        ensures { result.now ≡ named_by self.now }
    {
        match self {
            Stripping::Named(patterns) => patterns.as_slice(),
            Stripping::All => &[],
        }
    }

    pub(crate) fn takes_all(&self) -> bool
        ensures { result ≡ takes_all self.now }
    {
        matches!(self, Stripping::All)
    }
}

/// What a rule does with a route that it matches.
#[derive(Drop)]
pub(crate) enum Action {
    Drop,
    Pass(Option<u32>, Stripping<CommunityPattern>, Stripping<LargeCommunityPattern>),
}

/// The routes within a prefix whose lengths are from `min` to `max`.
#[derive(Clone, Copy)]
pub(crate) struct Range {
    pub(crate) prefix: Prefix,
    pub(crate) min: u8,
    pub(crate) max: u8,
}

/// What a rule asks of the prefix, the sender and the attributes of a route.
#[derive(Clone, Copy)]
pub(crate) struct Tests {
    /// The place of a list with prefixes, from 0.
    pub(crate) prefix_in: Option<usize>,
    /// The place of the sender, from 0.
    pub(crate) from: Option<usize>,
    pub(crate) path_has: Option<u32>,
    pub(crate) path_longer: Option<u32>,
    /// The place of a list with AS numbers, from 0.
    pub(crate) path_in: Option<usize>,
    pub(crate) origin_as: Option<u32>,
    /// The place of a list with AS numbers, from 0.
    pub(crate) origin_in: Option<usize>,
    pub(crate) first_as_is_peer: Option<bool>,
    pub(crate) community: Option<CommunityTest>,
    pub(crate) large_community: Option<LargeCommunityTest>,
    pub(crate) next_hop_is_peer: Option<bool>,
}

impl Tests {
    /// Whether a part of one is `peer`.
    #[tactic(auto, unfolding(crate::specs::Patterns::tests_name_peer))]
    pub(crate) fn name_peer(&self) -> bool
        ensures { result ≡ tests_name_peer self.now }
    {
        if let Some(test) = self.community
            && test.names_peer()
        {
            return true;
        }
        match self.large_community {
            None => false,
            Some(test) => test.names_peer(),
        }
    }
}

/// A rule: it matches the routes of its range where all of its tests hold.
#[derive(Drop)]
pub(crate) struct Rule {
    pub(crate) range: Option<Range>,
    pub(crate) tests: Tests,
    pub(crate) action: Action,
}

/// What stands at a place of a client's list.
#[derive(Drop)]
pub(crate) enum Item {
    Own(Rule),
    /// The rules of this place, from 0, stand here.
    Use(usize),
}

/// The rules of a client's list, those that it uses written out.
#[derive(Drop)]
pub(crate) struct Rules<'a> {
    items: &'a [Item],
    shared: &'a [SharedRules],
}

impl<'a> Model for Rules<'a> {
    ghost use Rattle.std.specs.Prelude.{List};
    ghost use Rattle.rs_policy.specs.declared.rules.Rule.{Rule};
    ghost use Rattle.rs_policy.specs.Configuration.{written_out};

    ghost Value = { List Rule };

    ghost view = { λ r. written_out r.shared.now r.items.now };
}

impl<'a> Rules<'a> {
    pub(crate) fn of(items: &'a [Item], shared: &'a [SharedRules]) -> Rules<'a>
        ensures { result ≡ written_out shared.now items.now }
    {
        Rules { items, shared }
    }

    /// The places of the list, and the rules that they use.
    pub(crate) fn parts(&self) -> (&'a [Item], &'a [SharedRules])
        ensures { self.now ≡ written_out result.1.now result.0.now }
    {
        (self.items, self.shared)
    }

    pub(crate) fn is_empty(&self) -> bool
        ensures { result ≡ true → self.now ≡ [] }
    {
        self.items.is_empty()
    }
}
