//! The server over ports in memory, whose members follow a script.

mod hold_timers;
mod orders;
mod recording;
mod reloading;
mod reports;
mod requesting;
mod resting;
mod rounds;
mod script;
mod watching;
