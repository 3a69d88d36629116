//! What becomes of the routes for a prefix on their way to a member (RFC 4271, 9.1; RFC 7947, 2.3).

ghost use Rattle.std.specs.Prelude.{◌≡◌, ◌<◌, ◌==◌, ◌++◌, List, find, length, map, option_map, position, IfOk, IfSome, OnOk};
ghost use Rattle.std.specs.List.{cons_option};
ghost use Rattle.rs_decision.specs.Best.{HasDistinctPlaces};
ghost use Rattle.rs_decision.specs.declared.rank.Rank.{Rank};
ghost use Rattle.rs_page_parts.specs.Holders.{holding};
ghost use Rattle.rs_pages.specs.Candidates.{by_rank, has_server_as, is_too_long, next_candidate, next_holder, outcome_of, rank_to, rank_with, ranks_to, rising_from, sent_outcome};
ghost use Rattle.rs_pages.specs.Counting.{AreBefore};

use rs_attrs::stripped;
use rs_decision::{Rank, Step, lost_by};
use rs_octets::Prefix;
use rs_outlet::Speech;
use rs_packer::fits;
use rs_page_parts::tables::Holder;
use rs_policy::{Config, Fate, judge};
use std::alloc::{AllocError, Global};

/// To which member a route for which prefix is to go, and how that member is spoken to while it is Established.
#[derive(Clone, Copy)]
pub(crate) struct Question<'a> {
    pub(crate) config: &'a Config,
    pub(crate) to: usize,
    pub(crate) speech: Option<Speech>,
    pub(crate) prefix: Prefix,
}

/// What becomes of a route.
#[derive(Clone, Copy)]
pub(crate) enum Outcome {
    /// It is the member's own.
    Own,
    /// Its AS_PATH has the server's AS.
    ServerAs,
    /// The rules drop it.
    Dropped,
    /// Another is better, by this step of the choice.
    Lost(Step),
    /// It is the best.
    Chosen,
    /// It is the best, and does not fit into a message to the member: nothing is sent.
    TooLong,
}

/// The first of those who hold a prefix from a member on.
pub(crate) fn next_holder<'a>(
    config: &Config,
    holders: &[Holder<'a>],
    from: usize,
) -> Option<Holder<'a>>
    ensures value { option_map holding result ≡ next_holder config.now (map holding holders.now) from }
    ensures within { IfSome result (λ h. h.member < length config.now.clients) }
    ensures bound { IfSome result (λ h. h.member < usize.MAX) }
{
    for holder in holders {
        if from <= holder.member && holder.member < config.clients() {
            return Some(*holder);
        }
    }
    None
}

/// The same, where the question is of a member.
pub(crate) fn next_candidate<'a>(
    question: &Question<'_>,
    holders: &[Holder<'a>],
    from: usize,
) -> Option<Holder<'a>>
    ensures value { option_map holding result ≡ next_candidate question.now.config.now question.now.to (map holding holders.now) from }
    ensures within { IfSome result (λ h. h.member < length question.now.config.now.clients) }
    ensures bound { IfSome result (λ h. h.member < usize.MAX) }
    ensures to { IfSome result (λ h. question.now.to < length question.now.config.now.clients) }
{
    if question.to < question.config.clients() {
        next_holder(question.config, holders, from)
    } else {
        None
    }
}

/// Its AS_PATH has the server's AS.
fn has_server_as(config: &Config, holder: &Holder<'_>) -> bool
    ensures { result ≡ has_server_as config.now (holding holder.now) }
{
    holder.attrs.path_has(config.server_as())
}

/// What the choice looks at in a route.
pub(crate) fn rank_with(config: &Config, holder: &Holder<'_>, preference: u32) -> Rank
    requires { holder.now.member < length config.now.clients }
    ensures { result ≡ rank_with config.now (holding holder.now) preference }
{
    let attrs = &**holder.attrs;
    Rank {
        preference,
        path_len: attrs.path_len(),
        origin: attrs.origin().unwrap_or(0),
        med: attrs.med(),
        neighbour: config.client_as(holder.member),
        identifier: holder.identifier,
        address: config.peer(holder.member),
        place: holder.member,
    }
}

/// The rank of a route, where it is a candidate.
fn rank_to(question: &Question<'_>, holder: &Holder<'_>) -> Option<Rank>
    ensures value { result ≡ rank_to question.now.config.now question.now.to question.now.prefix (holding holder.now) }
    ensures bound { IfSome result (λ rank. rank.place < usize.MAX) }
{
    let config = question.config;
    let from = holder.member;
    if from >= config.clients() || question.to >= config.clients() {
        return None;
    }
    if from == question.to || has_server_as(config, holder) {
        return None;
    }
    match judge(config, from, question.to, &question.prefix, holder.attrs) {
        Fate::Drop => None,
        Fate::Pass { preference, .. } => Some(rank_with(config, holder, preference)),
    }
}

/// Puts a rank behind the others, if there is one and its place is not before the next; answers the next place.
pub(crate) fn push_rising(
    ranks: &mut Vec<Rank>,
    next: usize,
    rank: Option<Rank>,
) -> Result<usize, AllocError>
    requires distinct { HasDistinctPlaces ranks.old.items }
    requires before { AreBefore next ranks.old.items }
    requires bound { IfSome rank (λ r. r.place < usize.MAX) }
    ensures distinct { OnOk result (HasDistinctPlaces ranks.new.items) }
    ensures before { IfOk result (λ behind. AreBefore behind ranks.new.items) }
    ensures whole { IfOk result (λ behind. (rest : List Rank) → ranks.new.items ++ rising_from behind rest ≡ ranks.old.items ++ rising_from next (cons_option rank rest)) }
{
    let Some(rank) = rank else {
        return Ok(next);
    };
    if rank.place < next {
        return Ok(next);
    }
    ranks.push(rank)?;
    Ok(rank.place + 1)
}

/// The ranks of all candidates.
pub(crate) fn ranks_to(
    alloc: Global,
    question: &Question<'_>,
    holders: &[Holder<'_>],
) -> Result<Vec<Rank>, AllocError>
    ensures value { IfOk result (λ ranks. ranks.items ≡ ranks_to question.now.config.now question.now.to question.now.prefix (map holding holders.now)) }
    ensures distinct { IfOk result (λ ranks. HasDistinctPlaces ranks.items) }
{
    let mut ranks = Vec::new(alloc);
    let mut next = 0;
    for holder in holders {
        next = push_rising(&mut ranks, next, rank_to(question, holder))?;
    }
    Ok(ranks)
}

/// Where the rank of a member stands.
fn place_among(ranks: &[Rank], member: usize) -> Option<usize>
    ensures within { IfSome result (λ i. i < length ranks.now) }
    ensures place { result ≡ position (λ rank. rank.place == member) ranks.now }
{
    ranks.iter().position(|rank| rank.place == member)
}

/// What becomes of a candidate that has the rank of this member, if any has.
fn outcome_by_rank(ranks: &[Rank], member: usize) -> Outcome
    requires { HasDistinctPlaces ranks.now }
    ensures { result ≡ by_rank ranks.now (find (λ rank. rank.place == member) ranks.now) }
{
    match place_among(ranks, member) {
        None => Outcome::Dropped,
        Some(place) => match lost_by(ranks, place) {
            None => Outcome::Chosen,
            Some(step) => Outcome::Lost(step),
        },
    }
}

/// What becomes of a route, by the ranks of all candidates.
fn outcome_of(question: &Question<'_>, ranks: &[Rank], holder: &Holder<'_>) -> Outcome
    requires { HasDistinctPlaces ranks.now }
    ensures { result ≡ outcome_of question.now.config.now question.now.to ranks.now (holding holder.now) }
{
    if holder.member == question.to {
        return Outcome::Own;
    }
    if has_server_as(question.config, holder) {
        return Outcome::ServerAs;
    }
    outcome_by_rank(ranks, holder.member)
}

/// A route, as the rules pass it on, does not fit into a message to the member (RFC 4271, 4.1; RFC 8654, 4).
fn is_too_long(
    alloc: Global,
    question: &Question<'_>,
    holder: &Holder<'_>,
) -> Result<bool, AllocError>
    requires from { holder.now.member < length question.now.config.now.clients }
    requires to { question.now.to < length question.now.config.now.clients }
    ensures { IfOk result (λ long. long ≡ is_too_long question.now.config.now question.now.to question.now.speech question.now.prefix (holding holder.now)) }
{
    let Some(speech) = question.speech else {
        return Ok(false);
    };
    let (from, to) = (holder.member, question.to);
    match judge(question.config, from, to, &question.prefix, holder.attrs) {
        Fate::Drop => Ok(false),
        Fate::Pass { strip, .. } => {
            let rest = stripped(alloc, holder.attrs, &strip)?;
            let most = speech.limit.octets();
            Ok(!fits(&rest, speech.mode, &question.prefix, most))
        }
    }
}

/// What becomes of a route on its way into a message, by the ranks of all candidates.
pub(crate) fn sent_outcome(
    alloc: Global,
    question: &Question<'_>,
    ranks: &[Rank],
    holder: &Holder<'_>,
) -> Result<Outcome, AllocError>
    requires distinct { HasDistinctPlaces ranks.now }
    requires from { holder.now.member < length question.now.config.now.clients }
    requires to { question.now.to < length question.now.config.now.clients }
    ensures { IfOk result (λ outcome. outcome ≡ sent_outcome question.now.config.now question.now.to question.now.speech question.now.prefix ranks.now (holding holder.now)) }
{
    let outcome = outcome_of(question, ranks, holder);
    match outcome {
        Outcome::Own | Outcome::ServerAs | Outcome::Dropped | Outcome::Lost(_) | Outcome::TooLong =>
            Ok(outcome),
        Outcome::Chosen => {
            if is_too_long(alloc, question, holder)? {
                Ok(Outcome::TooLong)
            } else {
                Ok(Outcome::Chosen)
            }
        }
    }
}
