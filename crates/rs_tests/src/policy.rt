//! Tests of `rs_policy`: values of configurations, texts of faults, and routes with their verdicts, from outside the program.
//!
//! What a program shows of it is played: the faults of texts by `tools/plays/faults.py`, which routes rules match and what
//! they take away by `tools/plays/matching.py`.

mod alike;
mod examples;
mod faults;
mod routes;
mod shared;

use crate::common::{equals, is_of, is_so, text_of};
use rs_policy::*;
use std::alloc::Global;
use std::process::Abort;

const TOP: &str = "as = 64500\nidentifier = \"192.0.2.1\"\n";

const CLIENT: &str =
    "[[client]]\nname = \"a\"\nas = 64496\nlisten = \"127.0.0.1:17901\"\npeer = \"192.0.2.11\"\n";

const OTHER: &str =
    "[[client]]\nname = \"b\"\nas = 64497\nlisten = \"127.0.0.1:17902\"\npeer = \"192.0.2.12\"\n";

/// Lets a configuration go in one call, which is one step of a test, and not one for each of its lists.
fn let_go(_config: Config) {}

/// The configuration that these parts of a good text spell.
fn read_parts(rt: &impl Abort, alloc: Global, parts: &[&str]) -> Config {
    let text = text_of(rt, alloc, parts);
    Config::read(alloc, text.as_str()).expect(rt, "a configuration")
}
