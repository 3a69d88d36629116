//! What comes of a line: a page, a text, or an order, whose answer is owed until it was given.

ghost use Rattle.std.specs.Prelude.{◌≡◌, ◌<◌, length, IfOk, OnErr};
ghost use Rattle.rs_control.specs.Answers.{SaysSomething};
ghost use Rattle.rs_control.specs.Lines.{meaning_of, line_meaning};
ghost use Rattle.rs_control.specs.Orders.{due};
ghost use Rattle.rs_control.specs.Steps.{IsFound, Shows, Puts, ComesOf, member_target, why_target};

use crate::answers::{
    BUSY, HELP, NO_PAGE, RELOADED, STOPPED, UNCHANGED, done_line, error_line, refusal_line,
};
use crate::lines::{Asked, Cause, read_line};
use crate::order::Order;
use crate::orders::{Orders, Reloaded};
use crate::pages::{MEMBERS, member_target, why_target};
use rs_policy::Config;
use rs_window::page::{Page, Pages};
use std::alloc::{AllocError, Global};

/// The server that is talked to.
#[derive(Drop)]
pub struct Server<'a, P> {
    pub alloc: Global,
    pub config: &'a Config,
    pub pages: &'a P,
}

/// An order whose answer is owed, by its number.
#[derive(Clone, Copy)]
pub(crate) struct Owed {
    pub(crate) number: u64,
    pub(crate) order: Order,
}

/// What comes of a line.
#[derive(Drop)]
pub(crate) enum Outcome {
    Page(Page),
    Text(Vec<u8>),
    Fixed(&'static [u8]),
    Owed(Owed),
}

/// A page where it was found; else this text.
fn page_or(found: Option<Page>, text: &'static [u8]) -> Outcome
    requires { SaysSomething text.now }
    ensures { IsFound found result }
{
    match found {
        Some(page) => Outcome::Page(page),
        None => Outcome::Fixed(text),
    }
}

/// The page of a member.
fn show_member<P: Pages>(server: &Server<'_, P>, c: usize) -> Result<Outcome, AllocError>
    ensures { IfOk result (λ outcome. c < length server.now.config.now.clients → Shows (P.finds server.now.pages.now) (member_target server.now.config.now c) outcome) }
{
    if c >= server.config.clients() {
        return Ok(Outcome::Fixed(NO_PAGE));
    }
    let target = member_target(server.alloc, server.config.name(c))?;
    Ok(page_or(server.pages.find(&target), NO_PAGE))
}

/// The page of why a member is sent what it is for a prefix.
fn show_why<P: Pages>(
    server: &Server<'_, P>,
    c: usize,
    prefix: &[u8],
) -> Result<Outcome, AllocError>
    ensures { IfOk result (λ outcome. c < length server.now.config.now.clients → Shows (P.finds server.now.pages.now) (why_target server.now.config.now c prefix.now) outcome) }
{
    if c >= server.config.clients() {
        return Ok(Outcome::Fixed(NO_PAGE));
    }
    let target = why_target(server.alloc, server.config.name(c), prefix)?;
    match server.pages.find(&target) {
        Some(page) => Ok(Outcome::Page(page)),
        None => {
            let line = refusal_line(server.alloc, Cause::NotPrefix, prefix)?;
            Ok(Outcome::Text(line))
        }
    }
}

/// Puts an order, whose answer is owed then.
fn put(orders: &mut Orders, order: Order) -> Outcome
    ensures { Puts order orders.old orders.new result }
{
    match orders.put(order) {
        Some(number) => Outcome::Owed(Owed { number, order }),
        None => Outcome::Fixed(BUSY),
    }
}

/// What comes of what is asked for.
fn act<P: Pages>(
    server: &Server<'_, P>,
    orders: &mut Orders,
    asked: Asked<'_>,
) -> Result<Outcome, AllocError>
    ensures ok { IfOk result (λ outcome. ComesOf (P.finds server.now.pages.now) server.now.config.now (meaning_of asked.entry) orders.old orders.new outcome) }
    ensures err { OnErr result (due orders.new ≡ due orders.old) }
{
    match asked {
        Asked::Help => Ok(Outcome::Fixed(HELP)),
        Asked::Show => Ok(page_or(server.pages.find(MEMBERS), NO_PAGE)),
        Asked::ShowMember(c) => show_member(server, c),
        Asked::Why(c, prefix) => show_why(server, c, prefix),
        Asked::Order(order) => Ok(put(orders, order)),
        Asked::Refused(cause, word) => {
            let line = refusal_line(server.alloc, cause, word)?;
            Ok(Outcome::Text(line))
        }
    }
}

/// What comes of a line.
pub(crate) fn step<P: Pages>(
    server: &Server<'_, P>,
    orders: &mut Orders,
    line: &[u8],
) -> Result<Outcome, AllocError>
    ensures ok { IfOk result (λ outcome. ComesOf (P.finds server.now.pages.now) server.now.config.now (line_meaning server.now.config.now line.now) orders.old orders.new outcome) }
    ensures err { OnErr result (due orders.new ≡ due orders.old) }
{
    act(server, orders, read_line(server.config, line))
}

/// The answer to a command for a member.
fn done_for(alloc: Global, config: &Config, command: &str, c: usize) -> Result<Vec<u8>, AllocError>
    ensures { IfOk result (λ text. SaysSomething text.items) }
{
    if c < config.clients() {
        done_line(alloc, command, config.name(c))
    } else {
        Vec::from_slice(alloc, NO_PAGE)
    }
}

/// The answer to an order that was given.
pub(crate) fn done(
    alloc: Global,
    config: &Config,
    orders: &Orders,
    order: Order,
) -> Result<Vec<u8>, AllocError>
    ensures { IfOk result (λ text. SaysSomething text.items) }
{
    match order {
        Order::Disable(c, _) => done_for(alloc, config, "disable", c),
        Order::Enable(c) => done_for(alloc, config, "enable", c),
        Order::Refresh(c) => done_for(alloc, config, "refresh", c),
        Order::Reload => match orders.reloaded() {
            Reloaded::Refused(text) => error_line(alloc, text.as_str()),
            Reloaded::Replaced => Vec::from_slice(alloc, RELOADED),
            Reloaded::Same => Vec::from_slice(alloc, UNCHANGED),
        },
        Order::End => Vec::from_slice(alloc, STOPPED),
    }
}
