//! The outlet of a client.

ghost use Rattle.std.specs.Prelude.{◌≡◌, ◌≢◌, ◌≤◌, ◌<◌, true, Some, None, [], false, length, take, drop, vec_len, IsSome, IfOk, OnOk, OnErr, IsTrue};
ghost use Rattle.std.specs.FinMap as map;
ghost use Rattle.std.specs.FinSet as set;
ghost use Rattle.rs_octets.specs.Prefixes.{Prefix};
ghost use Rattle.rs_outlet.specs.declared.answers.Speech.{Speech};
ghost use Rattle.rs_outlet.specs.Decided.Due.{due_to};
ghost use Rattle.rs_outlet.specs.Decided.Precedents.{IsHandover};
ghost use Rattle.rs_outlet.specs.Decided.HeldBy.{tables_of};
ghost use Rattle.rs_adjin.specs.declared.adj_ins.AdjIns.{AdjIns};
ghost use Rattle.rs_adjin.specs.AdjIns.{client_count, number_of, AreNoted};
ghost use Rattle.rs_policy.specs.Noted.{note_of_import};
ghost use Rattle.rs_open.specs.Writing.{server_open, keepalive};
ghost use Rattle.rs_open.specs.declared.short.Short.{Short};
ghost use Rattle.rs_outlet.specs.Message.Next.{note_octets};
ghost use Rattle.rs_open.specs.declared.short.Limit.TheVariants as limits;
ghost use Rattle.rs_outlet.specs.Views.{AreNumbered, IsOneOf, IsStaleToo, IsStaleTouched, WaitsAreExact, bare, begun, cleared, finished, if_up, touched_at};
ghost use Rattle.rs_outlet.specs.Decided.Turns.{HasTurned, IsCurrent};
ghost use Rattle.rs_outlet.specs.Message.Begins.{BeginsUpdate};
ghost use Rattle.rs_outlet.specs.Inside.{IsNoNumberOf};

use crate::answers::{Last, Speech, Turned};
use crate::deciding::Sources;
use crate::handover::Handover;
use crate::sizes::room;
use crate::table::Rows;
use crate::touched::Touched;
use crate::waiting::Waits;
use crate::written::Written;
use rs_adjin::AdjIns;
use rs_attrs::Mode;
use rs_octets::Prefix;
use rs_open::{Limit, ServerOpen, Short, short_size, write_open};
use rs_policy::{Config, asked_by_exports, asked_of_receivers, judges_prefixes_alike};
use std::alloc::{AllocError, Global};
use std::marker::Model;

/// Where more than one in so many prefixes may be stale, all may be: a list of them would take more
/// memory than it saves time.
const STALE_SHARE: usize = 2;

/// One client's Adj-RIB-Out: what is due to it, what it was told, and the message in flight.
///
/// `rows` is the Loc-RIB. It is also what the client was told, but where something waits: `waits` has
/// what was told there. So a message that is begun only gives up what waited.
#[derive(Drop)]
pub struct Outlet {
    pub(crate) alloc: Global,
    pub(crate) client: usize,
    pub(crate) extended: bool,
    pub(crate) speech: Option<Speech>,
    pub(crate) rows: Rows,
    pub(crate) waits: Waits,
    /// The message in flight: what is left of it lies from `start` to `end`.
    pub(crate) octets: Vec<u8>,
    pub(crate) start: usize,
    pub(crate) end: usize,
    /// A KEEPALIVE is due.
    pub(crate) keepalive_due: bool,
    /// A NOTIFICATION waits.
    pub(crate) note: Option<Short>,
    pub(crate) touched: Touched,
    /// All that was told waits to be told again, and nothing came of it since it was asked for.
    pub(crate) asked: bool,
    pub(crate) last: Last,
}

impl Model for Outlet {
    ghost use Rattle.rs_outlet.specs.Views.{View, table_code, prefixes_code, waiting_code};

    ghost Value = { View };

    ghost use Rattle.std.specs.Coded.{codes};

    ghost coded = { Prim.hlevel (codes, table_code, prefixes_code, waiting_code) };

    ghost use Rattle.rs_outlet.specs.Inside.{view_of, IsKept};

    ghost view = { view_of };

    ghost invariant = { IsKept };
}

/// Writes the server's OPEN at the front of a message's room.
fn put_open(said: &ServerOpen, out: &mut Vec<u8>) -> usize
    requires { 4096 ≤ vec_len out.old }
    ensures octets { take result out.new.items ≡ server_open said.now }
    ensures most { result ≤ 4096 }
    ensures room { vec_len out.new ≡ vec_len out.old }
{
    // for the prover: it fits
    let _size = short_size(&Short::Open, said);
    write_open(said, out)
}

impl Outlet {
    /// The outlet of a client that is not Established, with its fixed buffers: for messages of up to
    /// 65,535 octets where `extended` says so (RFC 8654), else of up to 4,096.
    pub fn new(alloc: Global, client: usize, extended: bool) -> Result<Outlet, AllocError>
        ensures { IfOk result (λ made. made ≡ bare client extended Last.Never) }
    {
        Ok(Outlet {
            alloc,
            client,
            extended,
            speech: None,
            rows: Rows::new(alloc),
            waits: Waits::new(alloc),
            octets: vec![in alloc; 0; room(extended)]?,
            start: 0,
            end: 0,
            keepalive_due: false,
            note: None,
            touched: Touched::new(alloc)?,
            asked: false,
            last: Last::Never,
        })
    }

    /// The client is Established: nothing was told, and everything is to be decided.
    pub fn up(&mut self, mode: Mode, limit: Limit)
        requires { limit ≡ limits.Long → self.old.extended ≡ true }
        ensures { self.new ≡ begun (record { mode = mode; limit = limit }) self.old }
    {
        self.rows.clear();
        self.waits.clear();
        self.asked = false;
        self.speech = Some(Speech { mode, limit });
        self.touched.add_all();
    }

    /// Empties everything but the answer of the last turn.
    pub fn clear(&mut self)
        ensures { self.new ≡ cleared self.old }
    {
        self.speech = None;
        self.rows.clear();
        self.waits.clear();
        self.start = 0;
        self.end = 0;
        self.keepalive_due = false;
        self.note = None;
        self.touched.clear();
        self.asked = false;
    }

    /// Empties everything but the message in flight and the answer of the last turn.
    fn end_with(&mut self, note: Option<Short>)
        ensures { self.new ≡ record (cleared self.old) { flight = self.old.flight; note = note } }
    {
        self.speech = None;
        self.rows.clear();
        self.waits.clear();
        self.keepalive_due = false;
        self.touched.clear();
        self.asked = false;
        self.note = note;
    }

    /// The session has ended. With a NOTIFICATION the message in flight is still finished; without
    /// one it is dropped too.
    pub fn finish(&mut self, note: Option<Short>)
        ensures { self.new ≡ finished note self.old }
    {
        match note {
            None => self.clear(),
            Some(_) => self.end_with(note),
        }
    }

    /// The server's OPEN is in flight, in place of what was.
    pub fn say_open(&mut self, said: &ServerOpen)
        ensures { self.new ≡ record self.old { flight = server_open said.now } }
    {
        self.start = 0;
        self.end = put_open(said, &mut self.octets);
    }

    /// A KEEPALIVE is due.
    pub fn say_keepalive(&mut self)
        ensures { self.new ≡ record self.old { keepalive_due = true } }
    {
        self.keepalive_due = true;
    }

    /// So many prefixes are touched together next: there is room for them at once, unless memory is refused.
    pub fn expect(&mut self, together: usize)
        ensures { self.new ≡ self.old }
    {
        if self.speech.is_some() {
            let most = self.most_listed(together);
            self.touched.expect(together, most);
        }
    }

    /// What is due at this prefix, which has this number, is decided anew at the next turn. Where
    /// there is no room for it, everything is. So many are touched `together`: where these are more than
    /// half of all prefixes, the list does not grow, and all may be stale once it is full.
    #[inline(always)]
    pub fn touch(&mut self, number: u32, prefix: Prefix, together: usize)
        ensures client { self.new.client ≡ self.old.client }
        ensures extended { self.new.extended ≡ self.old.extended }
        ensures rest { self.new ≡ record self.old { touched = self.new.touched; stale = self.new.stale; numbers = self.new.numbers } }
        ensures touched { (ins : AdjIns) → AreNumbered self.old ins → number_of ins prefix ≡ Some number → self.new.touched ≡ (touched_at prefix self.old).touched }
        ensures stale { (ins : AdjIns) → AreNumbered self.old ins → number_of ins prefix ≡ Some number → IsStaleToo prefix self.old self.new }
        ensures stale_touched { IsStaleTouched self.new }
        ensures numbered { (ins : AdjIns) → AreNumbered self.old ins → number_of ins prefix ≡ Some number → AreNumbered self.new ins }
    {
        if self.speech.is_some() {
            let most = self.most_listed(together);
            self.touched.add(number, prefix, most);
        }
    }

    /// How many prefixes are listed as stale at most, where so many are touched together.
    fn most_listed(&self, together: usize) -> usize {
        let most = self.rows.count() / STALE_SHARE;
        if together > most { 0 } else { most }
    }

    /// Whether all is touched and may be stale, so that no touch changes anything.
    pub fn is_all_touched(&self) -> bool
        ensures touched { IsTrue result → self.now.touched ≡ None }
        ensures stale { IsTrue result → self.now.stale ≡ None }
    {
        self.touched.is_all()
    }

    /// Everything is decided anew at the next turn.
    pub fn touch_all(&mut self)
        ensures client { self.new.client ≡ self.old.client }
        ensures extended { self.new.extended ≡ self.old.extended }
        ensures touched { self.new ≡ record self.old { touched = if_up self.old.speech None self.old.touched; stale = if_up self.old.speech None self.old.stale; numbers = self.new.numbers } }
        ensures numbered { (ins : AdjIns) → AreNumbered self.old ins → AreNumbered self.new ins }
    {
        if self.speech.is_some() {
            self.touched.add_all();
        }
    }

    /// What waits no more is dropped, once nothing waits.
    fn shed(&mut self)
        ensures { self.new ≡ self.old }
    {
        self.waits.shed();
    }

    /// Decides what is touched; of a whole turn what is stale, as all else has what is due. Memory is
    /// refused only where the client is Established, and such a turn changes nothing but the answer of
    /// the last turn. What other outlets' turns handed over is of these tables and rules.
    pub fn turn(
        &mut self,
        ins: &AdjIns,
        config: &Config,
        handover: &mut Handover,
    ) -> Result<Turned, AllocError>
        requires client { self.old.client < length config.now.clients }
        requires clients { client_count ins.now ≡ length config.now.clients }
        requires noted { AreNoted (note_of_import config.now) ins.now }
        requires handover { IsHandover (tables_of config.now ins.now) ins.now handover.old }
        ensures client { self.new.client ≡ self.old.client }
        ensures extended { self.new.extended ≡ self.old.extended }
        ensures rest { self.new ≡ record self.old { loc = self.new.loc; told = self.new.told; touched = self.new.touched; stale = self.new.stale; marked = self.new.marked; waits = self.new.waits; numbers = self.new.numbers; last = self.new.last } }
        ensures turned { AreNumbered self.old ins.now → IsCurrent config.now ins.now self.old → IfOk result (HasTurned config.now ins.now self.old self.new) }
        ensures done { IfOk result (λ turned. self.new.last ≡ Last.Done turned) }
        ensures touched { OnOk result (IsSome self.old.speech → self.new.touched ≡ Some set.empty) }
        ensures due { (speech : Speech) → self.old.speech ≡ Some speech → AreNumbered self.old ins.now → (p : Prefix) → IsOneOf (map.get self.new.loc p) (map.get self.old.loc p) (due_to (tables_of config.now ins.now) self.old.client speech p) }
        ensures refused { OnErr result (self.new ≡ record self.old { last = Last.Refused }) }
        ensures refused_only_up { OnErr result (IsSome self.old.speech) }
        ensures numbered { AreNumbered self.old ins.now → AreNumbered self.new ins.now }
        ensures exact { AreNumbered self.old ins.now → WaitsAreExact self.old → WaitsAreExact self.new }
        ensures handover { IsHandover (tables_of config.now ins.now) ins.now handover.new }
    {
        let Some(speech) = self.speech else {
            let turned = Turned {
                decided: 0,
                whole: false,
            };
            self.last = Last::Done(turned);
            return Ok(turned);
        };
        let sources = Sources {
            ins,
            config,
            client: self.client,
            alike: judges_prefixes_alike(config, self.client),
            asked: asked_by_exports(config, self.client),
            receivers: asked_of_receivers(config, self.client),
        };
        self.shed();
        match self.turn_up(speech, &sources, handover) {
            Ok(turned) => Ok(turned),
            Err(error) => {
                self.last = Last::Refused;
                Err(error)
            }
        }
    }

    /// The client asks for everything again (RFC 2918, 4).
    pub fn again(&mut self)
        ensures client { self.new.client ≡ self.old.client }
        ensures extended { self.new.extended ≡ self.old.extended }
        ensures rest { self.new ≡ record self.old { told = self.new.told; marked = self.new.marked; waits = self.new.waits } }
        ensures told { self.new.told ≡ self.old.told }
        ensures marked { (p : Prefix) → set.contains self.new.marked p ≡ map.contains_key self.old.told p }
        ensures exact { WaitsAreExact self.old → WaitsAreExact self.new }
    {
        if self.asked {
            return;
        }
        self.waits.mark_all(&self.rows);
        self.asked = true;
    }

    /// Begins the next message, where none is in flight. The Adj-RIBs-In tell which attributes are of one set, so that it
    /// finds those that it tells of together. A message that was `written` before is copied.
    pub fn begin(&mut self, ins: &AdjIns, written: &mut Written)
        ensures client { self.new.client ≡ self.old.client }
        ensures extended { self.new.extended ≡ self.old.extended }
        ensures rest { self.new ≡ record self.old { told = self.new.told; flight = self.new.flight; keepalive_due = self.new.keepalive_due; note = self.new.note; marked = self.new.marked; waits = self.new.waits } }
        ensures kept { self.old.flight ≢ [] → self.new ≡ self.old }
        ensures note { (note : Short) → self.old.flight ≡ [] → self.old.note ≡ Some note → self.new ≡ record self.old { flight = note_octets note; note = None } }
        ensures keepalive { self.old.flight ≡ [] → self.old.note ≡ None → self.old.keepalive_due ≡ true → self.new ≡ record self.old { flight = keepalive; keepalive_due = false } }
        ensures update { self.old.flight ≡ [] → self.old.note ≡ None → self.old.keepalive_due ≡ false → (self.new.note ≡ None) × (self.new.keepalive_due ≡ false) }
        ensures begins { (speech : Speech) → self.old.flight ≡ [] → self.old.note ≡ None → self.old.keepalive_due ≡ false → self.old.speech ≡ Some speech → BeginsUpdate speech self.old self.new }
        ensures down { self.old.flight ≡ [] → self.old.note ≡ None → self.old.keepalive_due ≡ false → self.old.speech ≡ None → self.new ≡ self.old }
        ensures exact { WaitsAreExact self.old → WaitsAreExact self.new }
    {
        if self.start < self.end {
            return;
        }
        self.begin_next(ins, written);
    }

    /// The first octets in flight were taken.
    pub fn took(&mut self, count: usize)
        requires { count ≤ length self.old.flight }
        ensures { self.new ≡ record self.old { flight = drop count self.old.flight } }
    {
        self.start += count;
    }

    /// Whether the row of a number has no route, and no prefix is touched by itself. What is touched
    /// is not looked through for the number: after a turn that was not refused nothing is.
    pub fn is_free(&self, number: u32) -> bool
        ensures free { IsTrue result → IsNoNumberOf number self.now.numbers }
        ensures all { self.now.touched ≡ Some set.empty → IsNoNumberOf number self.now.numbers → IsTrue result }
    {
        match self.rows.get(number) {
            Some(_) => false,
            None => self.touched.lists_none(),
        }
    }
}
