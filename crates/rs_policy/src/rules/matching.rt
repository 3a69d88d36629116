//! Which routes a rule matches.

ghost use Rattle.std.specs.Prelude.{◌≡◌, ◌≤◌, List, false, not, IsTrue};
ghost use Rattle.std.specs.List.{list_any};
ghost use Rattle.rs_attrs.specs.Getters.{path_of};
ghost use Rattle.rs_policy.specs.Verdicts.{attributes_match, front, has_as, has_prefix, in_range, matches, next_hop_is_peer, origin_as_is, origin_in, path_in, path_matches, first_as, first_as_is_peer, has_community, has_large_community};
ghost use Rattle.rs_policy.specs.Configuration.{NamedList, list_at};
ghost use Rattle.rs_policy.specs.Judged.{offered};

use crate::config::named_lists::NamedList;
use crate::rules::offer::Offer;
use crate::rules::{CommunityTest, LargeCommunityTest, Range, Rule, Tests};
use rs_attrs::{Attrs, PathSegment};
use rs_octets::Prefix;

#[inline(always)]
fn front(len: u8, bits: u32) -> u64
    requires { len ≤ 32 }
    ensures { result ≡ front len bits }
{
    u64::from(bits) >> (32 - len)
}

/// Whether a prefix is in a range, in two shifts and a few comparisons: import lists ask it of each route for many ranges.
#[inline(always)]
fn is_in_range(range: &Range, prefix: &Prefix) -> bool
    ensures { result ≡ in_range range.now prefix.now }
{
    let len = prefix.len();
    let outer = range.prefix;
    if outer.len() > len || front(outer.len(), prefix.bits()) != front(outer.len(), outer.bits()) {
        return false;
    }
    range.min <= len && len <= range.max
}

fn next_hop_is_peer(offer: &Offer<'_, '_>) -> bool
    ensures { result ≡ next_hop_is_peer (offered offer.now) }
{
    match offer.attrs.next_hop() {
        None => false,
        Some(address) => address == offer.peer,
    }
}

fn origin_as_is(number: u32, offer: &Offer<'_, '_>) -> bool
    ensures { result ≡ origin_as_is number (offered offer.now) }
{
    match offer.attrs.origin_as() {
        None => false,
        Some(origin) => origin == number,
    }
}

fn is_in_list(lists: &[NamedList], list: usize, prefix: &Prefix) -> bool
    ensures { result ≡ has_prefix (list_at lists.now list) prefix.now }
{
    match lists.get(list) {
        None => false,
        Some(list) => list.has_prefix(prefix),
    }
}

fn as_is_in(lists: &[NamedList], list: usize, number: u32) -> bool
    ensures { result ≡ has_as (list_at lists.now list) number }
{
    match lists.get(list) {
        None => false,
        Some(list) => list.has_as(number),
    }
}

fn origin_is_in(lists: &[NamedList], list: usize, offer: &Offer<'_, '_>) -> bool
    ensures { result ≡ origin_in (list_at lists.now list) (offered offer.now) }
{
    match offer.attrs.origin_as() {
        None => false,
        Some(origin) => as_is_in(lists, list, origin),
    }
}

/// Whether an AS number of the segment is in the list.
fn segment_is_in(lists: &[NamedList], list: usize, segment: &PathSegment<'_>) -> bool
    ensures { result ≡ list_any (has_as (list_at lists.now list)) segment.now.numbers }
{
    segment
        .numbers()
        .any(|number| as_is_in(lists, list, number))
}

fn path_is_in(lists: &[NamedList], list: usize, offer: &Offer<'_, '_>) -> bool
    ensures { result ≡ path_in (list_at lists.now list) (offered offer.now) }
{
    offer
        .attrs
        .path()
        .any(|segment| segment_is_in(lists, list, &segment))
}

/// The leftmost AS number of AS_PATH (RFC 4271, 6.3).
fn first_as(attrs: &Attrs) -> Option<u32>
    ensures { result ≡ first_as (path_of attrs.now) }
{
    attrs.path().next()?.numbers().next()
}

fn first_as_is_peer(offer: &Offer<'_, '_>) -> bool
    ensures { result ≡ first_as_is_peer (offered offer.now) }
{
    match first_as(offer.attrs) {
        None => false,
        Some(number) => number == offer.peer_as,
    }
}

/// The tests of AS_PATH but for its end.
fn path_matches(lists: &[NamedList], tests: &Tests, offer: &Offer<'_, '_>) -> bool
    ensures { result ≡ path_matches lists.now tests.now (offered offer.now) }
{
    if let Some(number) = tests.path_has
        && !offer.attrs.path_has(number)
    {
        return false;
    }
    if let Some(list) = tests.path_in
        && !path_is_in(lists, list, offer)
    {
        return false;
    }
    if let Some(length) = tests.path_longer
        && offer.attrs.path_len() <= length as usize
    {
        return false;
    }
    if let Some(wanted) = tests.first_as_is_peer
        && first_as_is_peer(offer) != wanted
    {
        return false;
    }
    true
}

/// Whether a community is as a test asks. It walks over them, and so stays a call of its own.
#[inline(never)]
fn has_community(test: CommunityTest, offer: &Offer<'_, '_>) -> bool
    ensures { result ≡ has_community test (offered offer.now) }
{
    let pattern = test.pattern_for(offer.to_as);
    offer.tags.has_community_like(&pattern)
}

/// The same of large communities.
#[inline(never)]
fn has_large_community(test: LargeCommunityTest, offer: &Offer<'_, '_>) -> bool
    ensures { result ≡ has_large_community test (offered offer.now) }
{
    let pattern = test.pattern_for(offer.to_as);
    offer.tags.has_large_community_like(&pattern)
}

/// The tests that walk communities and paths.
#[tactic(auto, unfolding(crate::specs::Verdicts::attributes_match))]
fn attributes_match(lists: &[NamedList], tests: &Tests, offer: &Offer<'_, '_>) -> bool
    ensures { result ≡ attributes_match lists.now tests.now (offered offer.now) }
{
    if let Some(test) = tests.community
        && !has_community(test, offer)
    {
        return false;
    }
    if let Some(test) = tests.large_community
        && !has_large_community(test, offer)
    {
        return false;
    }
    if let Some(number) = tests.origin_as
        && !origin_as_is(number, offer)
    {
        return false;
    }
    if let Some(list) = tests.origin_in
        && !origin_is_in(lists, list, offer)
    {
        return false;
    }
    path_matches(lists, tests, offer)
}

/// Whether no community is as a test asks. Mostly it is told with no call and without looking at one: there is none at all, or
/// none of its first part.
#[inline(always)]
fn lacks_community(test: CommunityTest, offer: &Offer<'_, '_>) -> bool
    ensures { result ≡ not (has_community test (offered offer.now)) }
{
    if offer.lacks_communities {
        return true;
    }
    let pattern = test.pattern_for(offer.to_as);
    offer.tags.lacks_community_like(&pattern) || !has_community(test, offer)
}

/// The same of large communities.
#[inline(always)]
fn lacks_large_community(test: LargeCommunityTest, offer: &Offer<'_, '_>) -> bool
    ensures { result ≡ not (has_large_community test (offered offer.now)) }
{
    if offer.lacks_large {
        return true;
    }
    let pattern = test.pattern_for(offer.to_as);
    offer.tags.lacks_large_community_like(&pattern) || !has_large_community(test, offer)
}

/// Whether a rule asks for a range in which the prefix isn't, or for a community that the route hasn't: most rules of an exchange
/// end here. It makes a call only where communities have to be looked at.
#[inline(always)]
fn is_passed_over(rule: &Rule, offer: &Offer<'_, '_>) -> bool
    ensures { IsTrue result → (lists : List NamedList) → matches lists rule.now (offered offer.now) ≡ false }
{
    if let Some(range) = &rule.range
        && !is_in_range(range, offer.prefix)
    {
        return true;
    }
    if let Some(test) = rule.tests.community
        && lacks_community(test, offer)
    {
        return true;
    }
    if let Some(test) = rule.tests.large_community
        && lacks_large_community(test, offer)
    {
        return true;
    }
    false
}

/// Whether a rule matches a route: all of its tests hold.
#[inline(always)]
pub(super) fn matches(lists: &[NamedList], rule: &Rule, offer: &Offer<'_, '_>) -> bool
    ensures { result ≡ matches lists.now rule.now (offered offer.now) }
{
    if is_passed_over(rule, offer) {
        return false;
    }
    all_hold(lists, rule, offer)
}

/// Whether all tests of a rule hold, those that walk the attributes last. Few rules come here, so what passes others over is asked
/// once more. It stays a call of its own, so that its caller's loop makes none for most rules.
#[inline(never)]
#[tactic(auto, unfolding(crate::specs::Verdicts::matches))]
fn all_hold(lists: &[NamedList], rule: &Rule, offer: &Offer<'_, '_>) -> bool
    ensures { result ≡ matches lists.now rule.now (offered offer.now) }
{
    let tests = &rule.tests;
    if let Some(range) = &rule.range
        && !is_in_range(range, offer.prefix)
    {
        return false;
    }
    if let Some(list) = tests.prefix_in
        && !is_in_list(lists, list, offer.prefix)
    {
        return false;
    }
    if let Some(from) = tests.from
        && from != offer.from
    {
        return false;
    }
    if let Some(wanted) = tests.next_hop_is_peer
        && next_hop_is_peer(offer) != wanted
    {
        return false;
    }
    attributes_match(lists, tests, offer)
}
