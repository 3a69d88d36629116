//! The orders that wait for the loop of the server, and what became of them.

ghost use Rattle.std.specs.Prelude.{◌≡◌, ◌+◌, ◌≤◌, ◌∷◌, ◌++◌, [], length, option_to_list, MatchOption, IfOk, IfSome, IsNone, IsTrue, ◌↔◌};
ghost use Rattle.std.specs.VecDeque.{deque_capacity};

use crate::order::Order;
use std::alloc::{AllocError, Global};
use std::collections::VecDeque;

/// The most orders that wait.
pub const ORDERS: usize = 16;

/// What came of reading the configuration again.
#[derive(Debug, Drop)]
pub enum Reloaded {
    /// Its rules hold from now on.
    Replaced,
    /// It is as it was.
    Same,
    /// It can't take the place of the one in use, or can't be read, as this text says.
    Refused(String),
}

/// Orders that wait, and what was made of those that were given.
#[derive(Drop)]
pub struct Orders {
    waiting: VecDeque<Order>,
    /// The end of the server was put: nothing is put behind it.
    is_ending: bool,
    /// How many orders were put, and how many of these were given.
    put: u64,
    given: u64,
    /// How many reloads were given, and of how many of these it is known what came of them.
    reloads: u64,
    told: u64,
    reloaded: Reloaded,
    ghost counted: { put ≡ given + length waiting.items },
    ghost room: { 16 ≤ deque_capacity waiting },
}

impl Orders {
    ghost use Rattle.rs_control.specs.Orders.{due, given_of, IsReloading, IsShut};

    /// No orders.
    pub fn new(alloc: Global) -> Result<Orders, AllocError>
        ensures { IfOk result (λ o. due o ≡ []) }
    {
        Ok(Orders {
            waiting: VecDeque::with_capacity(alloc, ORDERS)?,
            is_ending: false,
            put: 0,
            given: 0,
            reloads: 0,
            told: 0,
            reloaded: Reloaded::Same,
        })
    }

    /// Orders this behind all that wait, and answers its number; `None` where too many wait, or the server is
    /// to end.
    pub fn put(&mut self, order: Order) -> Option<u64>
        ensures due { MatchOption result (due self.new ≡ due self.old) (λ _. due self.new ≡ due self.old ++ order ∷ []) }
        ensures shut { IsNone result → IsShut self.old }
        ensures number { IfSome result (λ number. number ≡ given_of self.new + length (due self.new)) }
        ensures kept { given_of self.new ≡ given_of self.old }
    {
        if self.waiting.len() >= ORDERS || self.put == u64::MAX || self.is_ending {
            return None;
        }
        match self.waiting.push_back(order) {
            Ok(()) => {
                self.put += 1;
                self.is_ending = matches!(order, Order::End);
                Some(self.put)
            }
            Err(_) => None,
        }
    }

    /// The order that has waited longest, which waits no longer; `None` where none waits.
    pub fn take(&mut self) -> Option<Order>
        ensures due { due self.old ≡ option_to_list result ++ due self.new }
        ensures none { IsNone result → due self.old ≡ [] }
    {
        let order = self.waiting.pop_front()?;
        self.given += 1;
        if order == Order::Reload {
            self.reloads = self.reloads.saturating_add(1);
        }
        Some(order)
    }

    /// An order waits.
    pub fn has_waiting(&self) -> bool {
        !self.waiting.is_empty()
    }

    /// The order with this number was given.
    pub fn is_given(&self, number: u64) -> bool
        ensures { IsTrue result ↔ (number ≤ given_of self.now) }
    {
        number <= self.given
    }

    /// A reload was given of which it is not known what came of it.
    pub fn is_reloading(&self) -> bool
        ensures { IsTrue result ↔ IsReloading self.now }
    {
        self.told < self.reloads
    }

    /// This came of all reloads that were given.
    pub fn tell(&mut self, reloaded: Reloaded)
        ensures { (due self.new ≡ due self.old) × (given_of self.new ≡ given_of self.old) }
    {
        self.told = self.reloads;
        self.reloaded = reloaded;
    }

    /// What came of the last reload.
    pub fn reloaded(&self) -> &Reloaded {
        &self.reloaded
    }
}
