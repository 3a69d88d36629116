//! What a list of rules did with a route, and why.

ghost use Rattle.std.specs.Prelude.{◌≡◌, ◌<◌, length};
ghost use Rattle.rs_reasons.specs.Why.{account, cause_of, cause_said, said};

use rs_policy::{Config, Decider, List};
use std::fmt;

/// What decided in a client's list. Rules are counted from 1, as a configuration's faults count them.
#[derive(Clone, Copy, Debug)]
pub enum Cause<'a> {
    /// No rule of the list matches: the default of the configuration.
    Default,
    /// The rule at this place of the list.
    Own(usize),
    /// At this place of the list stands `use`.
    Used {
        place: usize,
        /// The name of the rules that are used.
        name: &'a str,
        /// The rule's place in those.
        rule: usize,
    },
}

/// What a list of a client's rules did with a route, and why.
#[derive(Clone, Copy, Debug)]
pub struct Reason<'a> {
    pub list: List,
    /// The name of the client whose list it is.
    pub client: &'a str,
    pub cause: Cause<'a>,
    /// Whether the list passes the route.
    pub passes: bool,
}

fn cause_by<'a>(config: &'a Config, decider: Decider) -> Cause<'a>
    ensures { cause_said result ≡ cause_of config.now decider }
{
    match decider {
        Decider::Default => Cause::Default,
        Decider::Own(place) => Cause::Own(place),
        Decider::Used { place, rules, rule } => Cause::Used {
            place,
            name: config.rules_name(rules),
            rule,
        },
    }
}

/// The reason of a list of a client's.
pub(crate) fn reason_of<'a>(
    config: &'a Config,
    list: List,
    client: usize,
    decider: Decider,
    passes: bool,
) -> Reason<'a>
    requires { client < length config.now.clients }
    ensures { said result ≡ account config.now list client decider passes }
{
    Reason {
        list,
        client: config.name(client),
        cause: cause_by(config, decider),
        passes,
    }
}

fn list_text(list: List) -> &'static str {
    match list {
        List::Import => "import",
        List::Export => "export",
        List::Shared => "shared",
    }
}

impl fmt::Display for Reason<'_> {
    fn fmt<W: fmt::Write>(&self, f: &mut fmt::Formatter<W>) -> fmt::Result {
        let list = list_text(self.list);
        let client = self.client;
        match self.cause {
            Cause::Default => write!(f, "no {list} rule of {client} matches")?,
            Cause::Own(place) => write!(f, "{list} rule {place} of {client}")?,
            Cause::Used { place, name, rule } => write!(
                f,
                "{list} rule {place} of {client} (uses {name}, rule {rule})"
            )?,
        }
        f.write_str(if self.passes { ": pass" } else { ": drop" })
    }
}
