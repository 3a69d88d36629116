//! The operator's orders: which ones the ports may give, and what the core is given for each.

ghost use Rattle.std.specs.Prelude.{◌≡◌, List, ℕ, length, Some, IfSome, IsFalse};
ghost use Rattle.rs_live.specs.Handled.{AnswersFrom};
ghost use Rattle.rs_live.specs.Keeping.{HaveAll, all_held};
ghost use Rattle.rs_live.specs.Leaving.{SamePorts};
ghost use Rattle.rs_live.specs.Orders.{IsOf};

use crate::live_link::{LiveLink, Stage, Stopping, WIDE};
use crate::ports::Ports;
use rs_control::order::Order;
use rs_core::Event;
use rs_open::ShutdownText;
use rs_reports::reports::Report;
use rs_session::Command;

/// For how many orders a round asks.
const ORDERS: u32 = 16;

/// The order, unless it names a client that a server of so many doesn't have.
pub fn of(order: Order, clients: usize) -> Option<Order>
    ensures client { IfSome result (λ it. IsOf clients it) }
    ensures given { IsOf clients order → result ≡ Some order }
{
    match order {
        Order::Disable(c, _) | Order::Enable(c) | Order::Refresh(c) if c >= clients => None,
        _ => Some(order),
    }
}

impl<'a, P: Ports> LiveLink<'a, P> {
    /// Gives the core what the operator orders next, where the ports were asked so often in this round; or,
    /// where the server is to end, the stop of a client.
    pub(crate) fn ordered(&mut self, asked: u32) -> Option<Event>
        ensures same_ports { SamePorts self.old self.new }
        ensures answers { (piece : List ℕ) → AnswersFrom P.asked (Stage.Orders asked) result piece self.old self.new }
    {
        if let Some(stopping) = self.phase.stopping {
            return self.stop_next(asked, stopping);
        }
        if asked >= ORDERS {
            self.has_more = true;
            self.phase.stage = Stage::Accept;
            return None;
        }
        self.ask_order(asked)
    }

    /// Asks for an order, and gives it to the core.
    fn ask_order(&mut self, asked: u32) -> Option<Event>
        ensures same_ports { SamePorts self.old self.new }
        ensures answers { (piece : List ℕ) → AnswersFrom P.asked (Stage.Orders asked) result piece self.old self.new }
    {
        self.phase.stage = Stage::Orders(asked.saturating_add(1));
        match self.ports.command(self.connections.len()) {
            Some(Order::Disable(c, text)) => {
                self.wide_to = self.phase.told.saturating_add(WIDE);
                self.keep_down(c, true);
                Some(Event::Commanded(c, Command::Stop(text)))
            }
            Some(Order::Enable(c)) => {
                self.keep_down(c, false);
                self.log(&Report::Enabled { client: c });
                None
            }
            Some(Order::Refresh(c)) => Some(Event::Commanded(c, Command::Refresh)),
            Some(Order::Reload) => {
                self.read_rules();
                None
            }
            Some(Order::End) => {
                self.phase.stopping = Some(Stopping {
                    since: self.phase.clock,
                    told: 0,
                });
                None
            }
            None => {
                self.phase.stage = Stage::Accept;
                None
            }
        }
    }

    /// Gives the core the stop of the next client, where the server is to end: it takes no more orders.
    fn stop_next(&mut self, asked: u32, stopping: Stopping) -> Option<Event>
        ensures same_ports { SamePorts self.old self.new }
        ensures answers { (piece : List ℕ) → self.old.phase.stopping ≡ Some stopping → AnswersFrom P.asked (Stage.Orders asked) result piece self.old self.new }
    {
        let c = stopping.told;
        if c >= self.connections.len() {
            self.phase.stage = Stage::Accept;
            return None;
        }
        self.phase.stopping = Some(Stopping {
            since: stopping.since,
            told: c + 1,
        });
        self.keep_down(c, true);
        Some(Event::Commanded(c, Command::Stop(ShutdownText::NONE)))
    }

    /// A client is still to be stopped.
    pub(crate) fn has_to_stop(&self) -> bool
        ensures { IsFalse result → HaveAll (length (all_held self.entry.now)) self.entry.now.phase.stopping }
    {
        match self.phase.stopping {
            Some(stopping) => stopping.told < self.connections.len(),
            None => false,
        }
    }
}
