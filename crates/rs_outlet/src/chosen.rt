//! Whose route is the best for a client at a prefix (RFC 4271, 9.1.2; RFC 7947, 2.3): of the candidates among its holders, or
//! as it was chosen for another client before, where that is this one's choice too.

ghost use Rattle.std.specs.Prelude.{◌≡◌, ◌<◌, ℕ, IsTrue, length, map, Some, None, IfOk, OnOk, All, IfSome, option_map};
ghost use Rattle.std.specs.Arc.{arc_value};
ghost use Rattle.rs_adjin.specs.AdjIns.{client_count, held_of, number_of, ListsHolders};
ghost use Rattle.rs_policy.specs.Noted.{note_of_import};
ghost use Rattle.rs_decision.specs.Best.{HasDistinctPlaces};
ghost use Rattle.rs_decision.specs.Choice.{best_of};
ghost use Rattle.rs_outlet.specs.Decided.Due.{rank_of, rank_to, ranks_among};
ghost use Rattle.rs_outlet.specs.Decided.HeldBy.{held_by, AreOfOneServer};
ghost use Rattle.rs_octets.specs.Prefixes.{Prefix};
ghost use Rattle.rs_outlet.specs.Decided.Choices.{AreChoices, AreJudgedAlike, IsAloneOfItsAs, chosen, without};

use crate::choices::{Choice, Choices};
use crate::deciding::{Draft, Sources, fate, is_kept_back};
use rs_adjin::{Holder, Holders};
use rs_decision::{Rank, best};
use rs_octets::Prefix;
use rs_policy::{Fate, judges_alike};
use std::alloc::AllocError;

fn rank(sources: &Sources<'_>, holder: &Holder<'_>, preference: u32) -> Rank
    requires known { holder.now.client < length sources.now.config.now.clients }
    requires count { client_count sources.now.ins.now ≡ length sources.now.config.now.clients }
    ensures { result ≡ rank_of (held_by sources.now) holder.now.client (arc_value holder.now.attrs.now) preference }
{
    let config = sources.config;
    let attrs = &**holder.attrs;
    Rank {
        preference,
        path_len: attrs.path_len(),
        origin: attrs.origin().unwrap_or(0),
        med: attrs.med(),
        neighbour: config.client_as(holder.client),
        identifier: sources.ins.identifier(holder.client),
        address: config.peer(holder.client),
        place: holder.client,
    }
}

/// The rank of a holder's route, where it is a candidate for the client.
fn rank_to(sources: &Sources<'_>, prefix: &Prefix, holder: &Holder<'_>) -> Option<Rank>
    requires client { sources.now.client < length sources.now.config.now.clients }
    requires known { holder.now.client < length sources.now.config.now.clients }
    requires count { client_count sources.now.ins.now ≡ length sources.now.config.now.clients }
    requires noted { holder.now.note ≡ note_of_import sources.now.config.now holder.now.client prefix.now (arc_value holder.now.attrs.now) }
    ensures { result ≡ rank_to (held_by sources.now) sources.now.client prefix.now (holder.now.client, arc_value holder.now.attrs.now) }
{
    if is_kept_back(sources, holder) {
        return None;
    }
    match fate(sources, prefix, holder) {
        Fate::Drop => None,
        Fate::Pass { preference, .. } => Some(rank(sources, holder, preference)),
    }
}

/// Lists the ranks of the candidates among the routes of these holders.
fn rank_all(
    sources: &Sources<'_>,
    prefix: &Prefix,
    holders: Holders<'_>,
    ranks: &mut Vec<Rank>,
) -> Result<(), AllocError>
    requires client { sources.now.client < length sources.now.config.now.clients }
    requires known { All (λ h. h.0.0 < length sources.now.config.now.clients) holders }
    requires count { client_count sources.now.ins.now ≡ length sources.now.config.now.clients }
    requires noted { All (λ h. h.1 ≡ note_of_import sources.now.config.now h.0.0 prefix.now h.0.1) holders }
    ensures { OnOk result (ranks.new.items ≡ ranks_among (held_by sources.now) sources.now.client prefix.now (map (λ h. h.0) holders.entry)) }
{
    ranks.clear();
    for holder in holders {
        if let Some(rank) = rank_to(sources, prefix, &holder) {
            ranks.push(rank)?;
        }
    }
    Ok(())
}

/// Whose rank is the best of these, if there is one.
fn best_place(ranks: &[Rank]) -> Option<usize>
    requires { HasDistinctPlaces ranks.now }
    ensures { result ≡ option_map (λ rank. rank.place) (best_of ranks.now) }
{
    let Some(index) = best(ranks) else {
        return None;
    };
    match ranks.get(index) {
        None => None,
        Some(rank) => Some(rank.place),
    }
}

/// Whose route is the best of the candidates among those of these holders, if there is one.
fn choose(
    sources: &Sources<'_>,
    prefix: &Prefix,
    holders: Holders<'_>,
    ranks: &mut Vec<Rank>,
) -> Result<Option<usize>, AllocError>
    requires holders { ListsHolders sources.now.ins.now prefix.now (map (λ h. h.0) holders) }
    requires server { AreOfOneServer sources.now }
    requires notes { All (λ h. h.1 ≡ note_of_import sources.now.config.now h.0.0 prefix.now h.0.1) holders }
    ensures chosen { IfOk result (λ place. place ≡ chosen (held_by sources.now) sources.now.client prefix.now) }
    ensures ranks { OnOk result (ranks.new.items ≡ ranks_among (held_by sources.now) sources.now.client prefix.now (map (λ h. h.0) holders.entry)) }
{
    rank_all(sources, prefix, holders, ranks)?;
    Ok(best_place(ranks))
}

/// Whether none but the client is of its AS among these holders, so that MULTI_EXIT_DISC of its own route tells against none
/// of the others (RFC 4271, 9.1.2.2 c).
fn is_alone_of_its_as(sources: &Sources<'_>, holders: Holders<'_>) -> bool
    requires client { sources.now.client < length sources.now.config.now.clients }
    requires known { All (λ h. h.0.0 < length sources.now.config.now.clients) holders }
    ensures { IsTrue result → IsAloneOfItsAs (held_by sources.now) sources.now.client (map (λ h. h.0) holders.entry) }
{
    let own = sources.config.client_as(sources.client);
    for holder in holders {
        if holder.client != sources.client && sources.config.client_as(holder.client) == own {
            return false;
        }
    }
    true
}

/// Whether the client has no route for the prefix of a number.
pub(crate) fn is_absent(sources: &Sources<'_>, number: u32) -> bool
    ensures { IsTrue result → (p : Prefix) → number_of sources.now.ins.now p ≡ Some number → held_of sources.now.ins.now sources.now.client p ≡ None }
{
    sources.ins.noted_at(sources.client, number).is_none()
}

/// Whether the client has the choice of those that are judged alike and have no route for the prefix: it has none either, or
/// another's route was chosen, and nothing depends on its own.
fn has_choice_of_others(
    sources: &Sources<'_>,
    number: u32,
    prefix: &Prefix,
    place: Option<usize>,
) -> bool
    requires number { number_of sources.now.ins.now prefix.now ≡ Some number }
    requires server { AreOfOneServer sources.now }
    ensures { IsTrue result → (other : ℕ) → AreJudgedAlike (held_by sources.now) other sources.now.client → held_of sources.now.ins.now other prefix.now ≡ None → chosen (held_by sources.now) other prefix.now ≡ place → chosen (held_by sources.now) sources.now.client prefix.now ≡ place }
{
    let holders = sources.ins.at_number(number);
    if is_absent(sources, number) {
        return true;
    }
    match place {
        Some(best) if best != sources.client => is_alone_of_its_as(sources, holders),
        _ => false,
    }
}

/// Keeps the ranks of other clients than this one.
fn keep_others(ranks: &mut Vec<Rank>, client: usize)
    ensures { ranks.new.items ≡ without client ranks.old.items }
{
    ranks.retain(|rank| rank.place != client);
}

/// Whose route is the best of these without that of the best one.
fn choose_next(ranks: &mut Vec<Rank>, place: Option<usize>) -> Option<usize>
    requires { HasDistinctPlaces ranks.old.items }
    ensures { (best : ℕ) → place ≡ Some best → result ≡ option_map (λ rank. rank.place) (best_of (without best ranks.old.items)) }
{
    let place = place?;
    keep_others(ranks, place);
    best_place(ranks)
}

/// Whose route is the best for the client by a choice that was made for another before, if that tells.
fn chosen_before(
    sources: &Sources<'_>,
    number: u32,
    prefix: &Prefix,
    choices: &mut Choices,
) -> Option<Option<usize>>
    requires number { number_of sources.now.ins.now prefix.now ≡ Some number }
    requires server { AreOfOneServer sources.now }
    requires choices { AreChoices (held_by sources.now) sources.now.ins.now choices.old.kept.items }
    ensures chosen { IfSome result (λ place. place ≡ chosen (held_by sources.now) sources.now.client prefix.now) }
    ensures kept { choices.new.kept.items ≡ choices.old.kept.items }
{
    let Some(choice) = choices.find(number) else {
        return None;
    };
    if !judges_alike(sources.config, choice.client, sources.client) {
        return None;
    }
    if choice.place == Some(sources.client) {
        return Some(choice.next);
    }
    if has_choice_of_others(sources, number, prefix, choice.place) {
        Some(choice.place)
    } else {
        None
    }
}

/// Whose route is the best, found once for all clients that are decided alike: those whose export lists use the same rules,
/// which don't name the receiver, or have none. It is kept where the client has no route for the prefix itself, with the choice
/// of the client whose route it is.
pub(crate) fn choose_once(
    sources: &Sources<'_>,
    number: u32,
    prefix: &Prefix,
    holders: Holders<'_>,
    draft: &mut Draft<'_>,
) -> Result<Option<usize>, AllocError>
    requires number { number_of sources.now.ins.now prefix.now ≡ Some number }
    requires holders { ListsHolders sources.now.ins.now prefix.now (map (λ h. h.0) holders) }
    requires server { AreOfOneServer sources.now }
    requires notes { All (λ h. h.1 ≡ note_of_import sources.now.config.now h.0.0 prefix.now h.0.1) holders }
    requires choices { AreChoices (held_by sources.now) sources.now.ins.now draft.old.choices.kept.items }
    ensures chosen { IfOk result (λ place. place ≡ chosen (held_by sources.now) sources.now.client prefix.now) }
    ensures choices { OnOk result (AreChoices (held_by sources.now) sources.now.ins.now draft.new.choices.kept.items) }
    ensures memo { draft.new.memo ≡ draft.old.memo }
{
    if !judges_alike(sources.config, sources.client, sources.client) {
        return choose(sources, prefix, holders, &mut draft.ranks);
    }
    if let Some(place) = chosen_before(sources, number, prefix, &mut draft.choices) {
        return Ok(place);
    }
    let place = choose(sources, prefix, holders, &mut draft.ranks)?;
    if is_absent(sources, number) {
        let next = choose_next(&mut draft.ranks, place);
        draft.choices.keep(Choice {
            number,
            client: sources.client,
            place,
            next,
        });
    }
    Ok(place)
}
