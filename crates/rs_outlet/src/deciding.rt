//! What is due to a client at one prefix (RFC 4271, 9.1; RFC 7947, 2.3).

ghost use Rattle.std.specs.Prelude.{◌≡◌, ◌<◌, [], length, map, Some, None, IfOk, OnOk, All, option_map};
ghost use Rattle.std.specs.Arc.{arc_value};
ghost use Rattle.rs_attrs.specs.Stripping.{stripped_of, taken_by};
ghost use Rattle.rs_adjin.specs.AdjIns.{number_of, ListsHolders};
ghost use Rattle.rs_policy.specs.Judged.{judged};
ghost use Rattle.rs_policy.specs.Noted.{note_of_import};
ghost use Rattle.rs_policy.specs.Verdicts.{verdict};
ghost use Rattle.rs_outlet.specs.Decided.Due.{passed_on, if_fits, due_to};
ghost use Rattle.rs_outlet.specs.Decided.HeldBy.{held_by, AreOfOneServer};
ghost use Rattle.rs_outlet.specs.Decided.Choices.{AreChoices};
ghost use Rattle.rs_outlet.specs.Decided.Memo.{IsMemo};
ghost use Rattle.rs_outlet.specs.Decided.Passing.{attributes_passed, due_alone, is_kept_back, passed_fitting};

use crate::answers::Speech;
use crate::choices::Choices;
use crate::chosen::choose_once;
use crate::memo::{Judged, recall};
use crate::stripped::Stripped;
use rs_adjin::{AdjIns, Holder, Holders};
use rs_attrs::{AskedTags, Attrs, Strip, attributes_are_legal};
use rs_decision::Rank;
use rs_octets::Prefix;
use rs_packer::fits;
use rs_policy::{Config, Fate, Verdict, is_plain_note, judge_noted};
use std::alloc::{AllocError, Global};
use std::mem;
use std::sync::Arc;

/// The tables and the rules by which a client's routes are decided.
#[derive(Clone, Copy)]
pub(crate) struct Sources<'a> {
    pub(crate) ins: &'a AdjIns,
    pub(crate) config: &'a Config,
    pub(crate) client: usize,
    /// The client's export rules judge routes with the same attributes and note alike.
    pub(crate) alike: bool,
    /// What its senders' import lists pass plainly the client has as it is, where it has none of the communities that these ask for.
    pub(crate) asked: Option<AskedTags>,
    /// The communities by which its export rules name the receiver: where a route has none of them, it doesn't count who that is.
    pub(crate) receivers: AskedTags,
}

/// What one decision of a turn leaves to the next: room for ranks, what became of the last route, and choices that serve
/// other clients too.
#[derive(Drop)]
pub(crate) struct Draft<'a> {
    pub(crate) ranks: Vec<Rank>,
    pub(crate) memo: Option<Judged<'a>>,
    pub(crate) choices: Choices,
}

impl<'a> Draft<'a> {
    /// Begins with the choices that were kept, which are gone where they were.
    pub(crate) fn from_choices(alloc: Global, choices: &mut Choices) -> Draft<'a>
        ensures made { result.choices.kept.items ≡ choices.old.kept.items }
        ensures memo { result.memo ≡ None }
        ensures none { choices.new.kept.items ≡ [] }
    {
        choices.begin();
        Draft {
            ranks: Vec::new(alloc),
            memo: None,
            choices: mem::replace(choices, Choices::new(alloc)),
        }
    }

    /// The choices that it leaves.
    pub(crate) fn into_choices(self) -> Choices
        ensures { result ≡ self.entry.choices }
    {
        let Draft { choices, .. } = self;
        choices
    }
}

/// A route as it is passed on: as its sender announced it, or without what the rules take out of it.
#[derive(Drop)]
pub(crate) enum Passed<'a> {
    Whole(&'a Arc<Attrs>),
    Stripped(Arc<Attrs>),
}

impl Passed<'_> {
    /// What is passed on.
    pub(crate) fn attrs(&self) -> &Arc<Attrs>
        ensures { arc_value result.now ≡ attributes_passed self.now }
    {
        match self {
            Passed::Whole(attrs) => attrs,
            Passed::Stripped(attrs) => attrs,
        }
    }

    /// What is passed on, as an owner more of it.
    pub(crate) fn own(self) -> Result<Arc<Attrs>, AllocError>
        ensures { IfOk result (λ attrs. arc_value attrs ≡ attributes_passed self.entry) }
    {
        match self {
            Passed::Whole(attrs) => attrs.clone(),
            Passed::Stripped(attrs) => Ok(attrs),
        }
    }
}

/// The same once more, which shares what is passed on.
pub(crate) fn copied<'a>(passed: &Option<Passed<'a>>) -> Result<Option<Passed<'a>>, AllocError>
    ensures { IfOk result (λ copy. option_map attributes_passed copy ≡ option_map attributes_passed passed.now) }
{
    match passed {
        None => Ok(None),
        Some(Passed::Whole(attrs)) => Ok(Some(Passed::Whole(attrs))),
        Some(Passed::Stripped(attrs)) => Ok(Some(Passed::Stripped(attrs.clone()?))),
    }
}

/// Whether a route is kept from the client before any rule: it is its own, or has the server's AS in
/// its path.
pub(crate) fn is_kept_back(sources: &Sources<'_>, holder: &Holder<'_>) -> bool
    ensures { result ≡ is_kept_back (held_by sources.now) sources.now.client (holder.now.client, arc_value holder.now.attrs.now) }
{
    holder.client == sources.client || holder.attrs.path_has(sources.config.server_as())
}

/// What the rules make of a holder's route on its way to the client.
pub(crate) fn fate<'a>(sources: &Sources<'a>, prefix: &Prefix, holder: &Holder<'_>) -> Verdict<'a>
    requires client { sources.now.client < length sources.now.config.now.clients }
    requires known { holder.now.client < length sources.now.config.now.clients }
    requires noted { holder.now.note ≡ note_of_import sources.now.config.now holder.now.client prefix.now (arc_value holder.now.attrs.now) }
    ensures { judged result ≡ verdict sources.now.config.now holder.now.client sources.now.client prefix.now (arc_value holder.now.attrs.now) }
{
    judge_noted(
        sources.config,
        holder.client,
        sources.client,
        prefix,
        holder.attrs,
        holder.note,
    )
}

/// The route for the prefix of a number without what these patterns take out of it, if that is something.
fn strip_from<'a>(
    number: u32,
    whole: &'a Arc<Attrs>,
    strip: &Strip<'_>,
    stripped: &mut Stripped,
) -> Result<Passed<'a>, AllocError>
    ensures { IfOk result (λ passed. attributes_passed passed ≡ stripped_of (taken_by strip.now) (arc_value whole.now)) }
{
    if strip.changes(whole) {
        Ok(Passed::Stripped(stripped.rest_of(number, whole, strip)?))
    } else {
        Ok(Passed::Whole(whole))
    }
}

/// The route as the rules pass it on.
fn pass_by_rules<'a>(
    sources: &Sources<'a>,
    number: u32,
    prefix: &Prefix,
    holder: &Holder<'a>,
    stripped: &mut Stripped,
) -> Result<Option<Passed<'a>>, AllocError>
    requires client { sources.now.client < length sources.now.config.now.clients }
    requires known { holder.now.client < length sources.now.config.now.clients }
    requires noted { holder.now.note ≡ note_of_import sources.now.config.now holder.now.client prefix.now (arc_value holder.now.attrs.now) }
    ensures { IfOk result (λ passed. option_map attributes_passed passed ≡ passed_on (arc_value holder.now.attrs.now) (verdict sources.now.config.now holder.now.client sources.now.client prefix.now (arc_value holder.now.attrs.now))) }
{
    match fate(sources, prefix, holder) {
        Fate::Drop => Ok(None),
        Fate::Pass { strip, .. } => Ok(Some(strip_from(number, holder.attrs, &strip, stripped)?)),
    }
}

/// The route as it is passed on. The client's export rules aren't asked where each asks for a community and it has none of
/// these; and where they ask for no prefix, once of routes that one UPDATE announced, which are decided one after the other.
fn pass_on<'a>(
    sources: &Sources<'a>,
    number: u32,
    prefix: &Prefix,
    holder: &Holder<'a>,
    memo: &mut Option<Judged<'a>>,
    stripped: &mut Stripped,
) -> Result<Option<Passed<'a>>, AllocError>
    requires server { AreOfOneServer sources.now }
    requires known { holder.now.client < length sources.now.config.now.clients }
    requires noted { holder.now.note ≡ note_of_import sources.now.config.now holder.now.client prefix.now (arc_value holder.now.attrs.now) }
    requires memo { IsMemo sources.now.config.now sources.now.client memo.old }
    ensures passed { IfOk result (λ passed. option_map attributes_passed passed ≡ passed_on (arc_value holder.now.attrs.now) (verdict sources.now.config.now holder.now.client sources.now.client prefix.now (arc_value holder.now.attrs.now))) }
    ensures memo { IsMemo sources.now.config.now sources.now.client memo.new }
{
    if let Some(asked) = &sources.asked
        && is_plain_note(holder.note)
        && holder.attrs.lacks(asked)
    {
        // for the prover: where no pattern takes anything out, they stay as they are
        attributes_are_legal(holder.attrs);
        return Ok(Some(Passed::Whole(holder.attrs)));
    }
    if let Some(passed) = recall(memo, holder) {
        return copied(passed);
    }
    let passed = pass_by_rules(sources, number, prefix, holder, stripped)?;
    if sources.alike {
        *memo = Some(Judged::of(holder, &passed)?);
    }
    Ok(passed)
}

/// The route, where it fits into a message to the client that announces this prefix alone.
fn if_fits<'a>(speech: Speech, prefix: &Prefix, passed: Passed<'a>) -> Option<Passed<'a>>
    ensures { option_map attributes_passed result ≡ if_fits speech prefix.now (attributes_passed passed.entry) }
{
    if fits(passed.attrs(), speech.mode, prefix, speech.limit.octets()) {
        Some(passed)
    } else {
        None
    }
}

/// The route as it is passed on, where it fits.
fn pass_fitting<'a>(
    sources: &Sources<'a>,
    speech: Speech,
    number: u32,
    prefix: &Prefix,
    holder: &Holder<'a>,
    memo: &mut Option<Judged<'a>>,
    stripped: &mut Stripped,
) -> Result<Option<Passed<'a>>, AllocError>
    requires server { AreOfOneServer sources.now }
    requires known { holder.now.client < length sources.now.config.now.clients }
    requires noted { holder.now.note ≡ note_of_import sources.now.config.now holder.now.client prefix.now (arc_value holder.now.attrs.now) }
    requires memo { IsMemo sources.now.config.now sources.now.client memo.old }
    ensures due { IfOk result (λ due. option_map attributes_passed due ≡ passed_fitting (held_by sources.now) sources.now.client speech prefix.now (holder.now.client, arc_value holder.now.attrs.now)) }
    ensures memo { IsMemo sources.now.config.now sources.now.client memo.new }
{
    match pass_on(sources, number, prefix, holder, memo, stripped)? {
        None => Ok(None),
        Some(passed) => Ok(if_fits(speech, prefix, passed)),
    }
}

/// What is due where one client alone holds the prefix: nothing is compared.
fn decide_alone<'a>(
    sources: &Sources<'a>,
    speech: Speech,
    number: u32,
    prefix: &Prefix,
    holder: &Holder<'a>,
    memo: &mut Option<Judged<'a>>,
    stripped: &mut Stripped,
) -> Result<Option<Passed<'a>>, AllocError>
    requires server { AreOfOneServer sources.now }
    requires known { holder.now.client < length sources.now.config.now.clients }
    requires noted { holder.now.note ≡ note_of_import sources.now.config.now holder.now.client prefix.now (arc_value holder.now.attrs.now) }
    requires memo { IsMemo sources.now.config.now sources.now.client memo.old }
    ensures due { IfOk result (λ due. option_map attributes_passed due ≡ due_alone (held_by sources.now) sources.now.client speech prefix.now (holder.now.client, arc_value holder.now.attrs.now)) }
    ensures memo { IsMemo sources.now.config.now sources.now.client memo.new }
{
    if is_kept_back(sources, holder) {
        return Ok(None);
    }
    pass_fitting(sources, speech, number, prefix, holder, memo, stripped)
}

/// What is due where these clients hold the prefix: the best of the candidates, whose route is looked up, and the
/// client's export list asked of it.
fn decide_among<'a>(
    sources: &Sources<'a>,
    speech: Speech,
    number: u32,
    prefix: &Prefix,
    holders: Holders<'a>,
    draft: &mut Draft<'a>,
) -> Result<Option<Passed<'a>>, AllocError>
    requires number { number_of sources.now.ins.now prefix.now ≡ Some number }
    requires holders { ListsHolders sources.now.ins.now prefix.now (map (λ h. h.0) holders) }
    requires server { AreOfOneServer sources.now }
    requires notes { All (λ h. h.1 ≡ note_of_import sources.now.config.now h.0.0 prefix.now h.0.1) holders }
    requires choices { AreChoices (held_by sources.now) sources.now.ins.now draft.old.choices.kept.items }
    requires memo { IsMemo sources.now.config.now sources.now.client draft.old.memo }
    ensures due { IfOk result (λ due. option_map attributes_passed due ≡ due_to (held_by sources.now) sources.now.client speech prefix.now) }
    ensures choices { OnOk result (AreChoices (held_by sources.now) sources.now.ins.now draft.new.choices.kept.items) }
    ensures memo { OnOk result (IsMemo sources.now.config.now sources.now.client draft.new.memo) }
{
    let Some(place) = choose_once(sources, number, prefix, holders, draft)? else {
        return Ok(None);
    };
    let Some(holder) = sources.ins.noted_at(place, number) else {
        return Ok(None);
    };
    pass_fitting(
        sources,
        speech,
        number,
        prefix,
        &holder,
        &mut draft.memo,
        &mut draft.choices.stripped,
    )
}

/// What is due to the client at a prefix that these clients hold: the best of the candidates, as it is passed on, where it
/// fits.
pub(crate) fn decide<'a>(
    sources: &Sources<'a>,
    speech: Speech,
    number: u32,
    prefix: &Prefix,
    mut holders: Holders<'a>,
    draft: &mut Draft<'a>,
) -> Result<Option<Passed<'a>>, AllocError>
    requires number { number_of sources.now.ins.now prefix.now ≡ Some number }
    requires holders { ListsHolders sources.now.ins.now prefix.now (map (λ h. h.0) holders) }
    requires notes { All (λ h. h.1 ≡ note_of_import sources.now.config.now h.0.0 prefix.now h.0.1) holders }
    requires server { AreOfOneServer sources.now }
    requires choices { AreChoices (held_by sources.now) sources.now.ins.now draft.old.choices.kept.items }
    requires memo { IsMemo sources.now.config.now sources.now.client draft.old.memo }
    ensures due { IfOk result (λ due. option_map attributes_passed due ≡ due_to (held_by sources.now) sources.now.client speech prefix.now) }
    ensures choices { OnOk result (AreChoices (held_by sources.now) sources.now.ins.now draft.new.choices.kept.items) }
    ensures memo { OnOk result (IsMemo sources.now.config.now sources.now.client draft.new.memo) }
{
    if holders.is_empty() {
        return Ok(None);
    }
    if holders.len() != 1 {
        return decide_among(sources, speech, number, prefix, holders, draft);
    }
    match holders.next() {
        None => Ok(None),
        Some(holder) => decide_alone(
            sources,
            speech,
            number,
            prefix,
            &holder,
            &mut draft.memo,
            &mut draft.choices.stripped,
        ),
    }
}
