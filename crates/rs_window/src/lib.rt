//! Who looks at the server: a visitor says requests over HTTP/1.1, GET and HEAD alone, and is told pages,
//! as steps over octets (RFC 9110, RFC 9112). It has no sockets and no clock.
//!
//! `request` reads a request's head, `answers` are the heads and texts of what is answered, `chunks` frames
//! the pieces of a `page`, an `outbox` holds what a visitor has not taken yet, and a `visit` is the course of
//! one connection. What the pages say stands above this crate, behind the trait `Pages`. The tests stand in
//! `rs_tests`, in `src/window.rt`.
#![tactic(auto)]

mod answers;
mod chunks;
pub mod laws;
pub mod outbox;
pub mod page;
mod request;
pub mod visit;
