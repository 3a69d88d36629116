//! What the turn of one outlet hands over to the next: choices, and what was decided, as far as that serves another client.

ghost use Rattle.std.specs.Prelude.{◌≡◌, ◌<◌, [], nat_eq, length, Some, IfOk, IfSome};
ghost use Rattle.std.specs.List.{IsDistinct};
ghost use Rattle.std.specs.Map.{keys_of};
ghost use Rattle.rs_adjin.specs.declared.adj_ins.AdjIns.{AdjIns};
ghost use Rattle.rs_outlet.specs.Decided.Due.{Held, due_to};
ghost use Rattle.rs_outlet.specs.Decided.HeldBy.{held_by, AreOfOneServer};
ghost use Rattle.rs_outlet.specs.Decided.Plans.{IsPlanned};
ghost use Rattle.rs_outlet.specs.Decided.Precedents.{AreDueAlike, IsHandover};
ghost use Rattle.rs_outlet.specs.Decided.Touching.{is_numbered_in};

use crate::answers::Speech;
use crate::beside::Beside;
use crate::changes::Change;
use crate::choices::Choices;
use crate::deciding::Sources;
use crate::ordered::Ordered;
use crate::plan::Plan;
use crate::precedent::{Precedent, known_to};
use crate::serving::news_to;
use crate::table::Rows;
use crate::turn::decide_touched;
use rs_octets::Prefix;
use std::alloc::{AllocError, Global};

/// With how many prefixes what was decided is kept: fewer are decided as quickly.
const FEWEST: usize = 8;

/// What the turns of neighbouring outlets, one after the other, leave to the next.
#[derive(Drop)]
pub struct Handover {
    pub(crate) choices: Choices,
    pub(crate) precedent: Option<Precedent>,
    /// What a neighbour lends.
    pub(crate) beside: Beside,
    /// How what was touched was put in order.
    pub(crate) ordered: Ordered,
}

/// Whether the export list of a client uses `[[rules]]`, or has none: so others have the same.
fn uses_rules(sources: &Sources<'_>, client: usize) -> bool
    requires { client < length sources.now.config.now.clients }
{
    sources.config.has_same_exports(client, client)
}

impl Handover {
    /// No outlet was turned yet.
    pub fn new(alloc: Global) -> Handover
        ensures { (t : Held) (ins : AdjIns) → IsHandover t ins result }
    {
        Handover {
            choices: Choices::new(alloc),
            precedent: None,
            beside: Beside::none(alloc),
            ordered: Ordered::new(alloc),
        }
    }

    /// Whether what is decided for a client at so many prefixes is kept: it can serve others, and does so at more prefixes than
    /// what is kept. What serves all that use the same rules goes before what serves by marks alone.
    fn is_worth_keeping(&self, sources: &Sources<'_>, count: usize) -> bool
        requires server { AreOfOneServer sources.now }
        requires handover { IsHandover (held_by sources.now) sources.now.ins.now self.now }
    {
        let used = uses_rules(sources, sources.client);
        if count < FEWEST || !used && sources.asked.is_none() {
            return false;
        }
        match &self.precedent {
            None => true,
            Some(kept) if uses_rules(sources, kept.client()) == used => count > kept.count(),
            Some(_) => used,
        }
    }

    /// Room for what a client's turn teaches, where that is kept. Where memory is refused, there is none.
    fn room_to_learn(
        &self,
        alloc: Global,
        sources: &Sources<'_>,
        count: usize,
    ) -> Option<Vec<Change>>
        requires server { AreOfOneServer sources.now }
        requires handover { IsHandover (held_by sources.now) sources.now.ins.now self.now }
        ensures { IfSome result (λ learned. learned.items ≡ []) }
    {
        if !self.is_worth_keeping(sources, count) {
            return None;
        }
        Vec::with_capacity(alloc, count).ok()
    }

    /// Keeps what was learned at so many prefixes, and answers whether it did. Where memory is refused, it is not kept.
    fn keep(
        &mut self,
        alloc: Global,
        sources: &Sources<'_>,
        speech: Speech,
        rows: &Rows,
        count: usize,
        learned: Option<Vec<Change>>,
    ) -> bool
        requires server { AreOfOneServer sources.now }
        requires handover { IsHandover (held_by sources.now) sources.now.ins.now self.old }
        requires learned { IfSome learned (λ learned. AreDueAlike (held_by sources.now) sources.now.ins.now sources.now.client speech learned.items) }
        ensures { IsHandover (held_by sources.now) sources.now.ins.now self.new }
    {
        let Some(learned) = learned else {
            return false;
        };
        let known = known_to(&self.precedent, sources, speech);
        let Ok(made) = Precedent::of(alloc, sources, speech, rows, count, learned, known) else {
            return false;
        };
        self.precedent = Some(made);
        true
    }

    /// What is news to a client at these prefixes, if something is known of it, its rows have nothing there and nothing waits.
    fn shared_plan(
        &mut self,
        alloc: Global,
        sources: &Sources<'_>,
        speech: Speech,
        rows: &Rows,
        touched: &[(u32, Prefix)],
        idle: bool,
    ) -> Result<Option<Plan>, AllocError>
        requires server { AreOfOneServer sources.now }
        requires handover { IsHandover (held_by sources.now) sources.now.ins.now self.old }
        requires once { IsDistinct nat_eq (keys_of touched.now) }
        ensures planned { IfOk result (λ found. IfSome found (IsPlanned sources.now.ins.now (due_to (held_by sources.now) sources.now.client speech) rows.now.rows.items (is_numbered_in touched.now) idle)) }
        ensures handover { IsHandover (held_by sources.now) sources.now.ins.now self.new }
    {
        let known = known_to(&self.precedent, sources, speech);
        if !idle || known.is_empty() {
            return Ok(None);
        }
        let choices = &mut self.choices;
        match news_to(alloc, sources, speech, rows, touched, known, choices)? {
            None => Ok(None),
            Some(pieces) => Ok(Some(Plan::Shared(pieces))),
        }
    }

    /// Decides what was touched by itself, by what was decided before where that tells. Where it is `idle`, nothing waits, and what
    /// is news to several clients is carried out for all of them alike.
    pub(crate) fn decide(
        &mut self,
        alloc: Global,
        sources: &Sources<'_>,
        speech: Speech,
        rows: &Rows,
        touched: &[(u32, Prefix)],
        idle: bool,
    ) -> Result<Plan, AllocError>
        requires server { AreOfOneServer sources.now }
        requires handover { IsHandover (held_by sources.now) sources.now.ins.now self.old }
        requires once { IsDistinct nat_eq (keys_of touched.now) }
        ensures decided { IfOk result (IsPlanned sources.now.ins.now (due_to (held_by sources.now) sources.now.client speech) rows.now.rows.items (is_numbered_in touched.now) idle) }
        ensures handover { IsHandover (held_by sources.now) sources.now.ins.now self.new }
    {
        let may_be_news = rows.count_at(touched) == 0;
        let mut learned = self.room_to_learn(alloc, sources, touched.len());
        if may_be_news
            && learned.is_none()
            && let Some(plan) = self.shared_plan(alloc, sources, speech, rows, touched, idle)?
        {
            return Ok(plan);
        }
        let known = known_to(&self.precedent, sources, speech);
        let changes = decide_touched(
            alloc,
            sources,
            speech,
            rows,
            touched,
            known,
            &mut learned,
            &mut self.choices,
        )?;
        if self.keep(alloc, sources, speech, rows, touched.len(), learned)
            && may_be_news
            && let Some(plan) = self.shared_plan(alloc, sources, speech, rows, touched, idle)?
        {
            return Ok(plan);
        }
        Ok(Plan::Own(changes))
    }
}
