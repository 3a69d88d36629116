//! The window and the control socket, with what they show beside the core: when sessions came up or ended, who
//! is kept down, when rules were accepted, and what was counted.

ghost use Rattle.std.specs.Prelude.{◌≡◌, ◌++◌, option_to_list};

use crate::core_tables::CoreTables;
use mio::Poll;
use rs_control::order::Order;
use rs_control::orders::Reloaded;
use rs_control::steps::Server;
use rs_core::Core;
use rs_live::ports::{Line, Observed};
use rs_page_rows::counts::Direction;
use rs_page_rows::moments::{Changes, Moments};
use rs_pages::server_pages::ServerPages;
use rs_visitors::control::Control;
use rs_visitors::window::Window;
use std::alloc::{AllocError, Global};

/// What a server shows, and where.
#[derive(Drop)]
pub struct Shown {
    window: Option<Window>,
    control: Option<Control>,
    /// When the server started, in seconds since 1970-01-01T00:00:00Z.
    start: u64,
    /// In which second since then a text of rules was accepted last.
    rules: u64,
    changes: Changes,
    /// When the turn began that goes on, in microseconds since the start.
    turn: Option<u64>,
}

impl Shown {
    ghost use Rattle.rs_shown.specs.Given.{due_to};

    /// A server of so many members, which is shown nowhere yet.
    pub fn new(alloc: Global, members: usize, start: u64) -> Result<Shown, AllocError> {
        Ok(Shown {
            window: None,
            control: None,
            start,
            rules: 0,
            changes: Changes::new(alloc, members)?,
            turn: None,
        })
    }

    /// It is shown through this window.
    pub fn open_window(&mut self, window: Window) {
        self.window = Some(window);
    }

    /// Commands are taken at this socket.
    pub fn open_control(&mut self, control: Control) {
        self.control = Some(control);
    }

    /// Something may have become of the socket of the window with this token.
    pub fn note(&mut self, token: usize) {
        if let Some(window) = &mut self.window {
            window.note(token);
        }
    }

    /// Something may have become of the control socket, or of a connection to it, with this token.
    pub fn note_control(&mut self, token: usize) {
        if let Some(control) = &mut self.control {
            control.note(token);
        }
    }

    /// The next order, of which it is noted who is kept down then.
    pub fn take_order(&mut self) -> Option<Order>
        ensures { due_to self.old ≡ option_to_list result ++ due_to self.new }
    {
        let order = self.next_order()?;
        self.note_order(order);
        Some(order)
    }

    /// The next order, which waits no longer.
    fn next_order(&mut self) -> Option<Order>
        ensures { due_to self.old ≡ option_to_list result ++ due_to self.new }
    {
        match &mut self.control {
            Some(control) => control.take_order(),
            None => None,
        }
    }

    /// Notes who is kept down by an order.
    fn note_order(&mut self, order: Order)
        ensures { due_to self.new ≡ due_to self.old }
    {
        match order {
            Order::Disable(c, _) => self.changes.keep_down(c, true),
            Order::Enable(c) => self.changes.keep_down(c, false),
            Order::Refresh(_) | Order::Reload | Order::End => {}
        }
    }

    /// A reload was ordered of which it is not known what came of it.
    pub fn is_reloading(&self) -> bool {
        match &self.control {
            Some(control) => control.is_reloading(),
            None => false,
        }
    }

    /// This came of the reload that was ordered.
    pub fn tell(&mut self, reloaded: Reloaded)
        ensures { due_to self.new ≡ due_to self.old }
    {
        if let Some(control) = &mut self.control {
            control.tell(reloaded);
        }
    }

    /// It is shown somewhere.
    pub fn is_open(&self) -> bool {
        self.window.is_some() || self.control.is_some()
    }

    /// Counts what happens, so many microseconds after the start.
    pub fn observe(&mut self, what: Observed<'_>, now: u64) {
        match what {
            Observed::Heard(c, octets) => self.changes.counts.pass(Direction::Heard, c, octets),
            Observed::Sent(c, octets) => self.changes.counts.pass(Direction::Sent, c, octets),
            Observed::TurnBegins => self.turn = Some(now),
            Observed::TurnEnds => {
                if let Some(began) = self.turn.take() {
                    self.changes.counts.turn(now.saturating_sub(began));
                }
            }
        }
    }

    /// What a line says happened in this second.
    pub fn note_line(&mut self, line: &Line, second: u64) {
        match line {
            Line::Begin(c) => self.changes.counts.begin(*c),
            Line::Memory(_) => self.changes.counts.refuse_memory(),
            Line::Stranger => self.changes.counts.refuse_stranger(),
            Line::Rules(Ok(())) => self.rules = second,
            _ => {}
        }
    }

    /// Gives up the connections of all visitors, or where there are none of all operators, and answers whether
    /// there were any.
    pub fn give_up(&mut self, poll: &Poll, now: u64) -> bool {
        if let Some(window) = &mut self.window
            && window.give_up(poll, now)
        {
            return true;
        }
        match &mut self.control {
            Some(control) => control.give_up(poll, now),
            None => false,
        }
    }

    /// Looks at the members, and goes on with all visitors and operators, at so many milliseconds since the
    /// start; answers whether something was left undone.
    pub fn go_on(
        &mut self,
        poll: &Poll,
        alloc: Global,
        core: &Core,
        is_busy: bool,
        now: u64,
    ) -> bool {
        if !self.is_open() {
            return false;
        }
        let tables = CoreTables(core);
        self.changes.look(&tables, now / 1000);
        let moments = Moments {
            start: self.start,
            now: now / 1000,
            rules: self.rules,
            changes: &self.changes,
        };
        let pages = ServerPages::new(alloc, &tables, &moments);
        let mut is_unfinished = false;
        if let Some(window) = &mut self.window {
            is_unfinished = window.go_on(poll, alloc, &pages, is_busy, now);
        }
        if let Some(control) = &mut self.control {
            let server = Server {
                alloc,
                config: core.config(),
                pages: &pages,
            };
            is_unfinished |= control.go_on(poll, &server, now);
        }
        is_unfinished
    }
}
