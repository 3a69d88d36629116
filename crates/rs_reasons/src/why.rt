//! What becomes of a route from one client to another, and why.

ghost use Rattle.std.specs.Prelude.{◌≡◌, ◌<◌, length, option_map};
ghost use Rattle.rs_policy.specs.Judged.{judged};
ghost use Rattle.rs_policy.specs.Verdicts.{verdict};
ghost use Rattle.rs_reasons.specs.Why.{said, import_account, export_account, is_passed};

use crate::reason::{Reason, reason_of};
use rs_attrs::Attrs;
use rs_octets::Prefix;
use rs_policy::{Config, List, Verdict, judge, reasons_for};
use std::fmt;

/// What becomes of a route from one client to another, and why.
#[derive(Clone, Copy, Debug)]
pub struct Explanation<'a> {
    /// What `judge` answers.
    pub verdict: Verdict<'a>,
    /// Of the sender's import list.
    pub import: Reason<'a>,
    /// Of the receiver's export list; None where the import list drops the route.
    pub export: Option<Reason<'a>>,
}

fn is_passed(verdict: &Verdict<'_>) -> bool
    ensures { result ≡ is_passed (judged verdict.now) }
{
    match verdict {
        Verdict::Drop => false,
        Verdict::Pass { .. } => true,
    }
}

/// What becomes of a route of client `from` on its way to client `to`, and which rule of either list
/// decided it. It takes no memory.
pub fn explain<'a>(
    config: &'a Config,
    from: usize,
    to: usize,
    prefix: &Prefix,
    attrs: &Attrs,
) -> Explanation<'a>
    requires from { from < length config.now.clients }
    requires to { to < length config.now.clients }
    ensures verdict { judged result.verdict ≡ verdict config.now from to prefix.now attrs.now }
    ensures import { said result.import ≡ import_account config.now from to prefix.now attrs.now }
    ensures export { option_map said result.export ≡ export_account config.now from to prefix.now attrs.now }
{
    let verdict = judge(config, from, to, prefix, attrs);
    let found = reasons_for(config, from, to, prefix, attrs);
    let imports = found.export.is_some();
    let import = reason_of(config, List::Import, from, found.import, imports);
    let export = match found.export {
        None => None,
        Some(decider) => Some(reason_of(config, List::Export, to, decider, is_passed(&verdict))),
    };
    Explanation {
        verdict,
        import,
        export,
    }
}

/// The reason of the import list, and behind it that of the export list where it was asked.
impl fmt::Display for Explanation<'_> {
    fn fmt<W: fmt::Write>(&self, f: &mut fmt::Formatter<W>) -> fmt::Result {
        match self.export {
            None => write!(f, "{}", self.import),
            Some(export) => write!(f, "{}; {export}", self.import),
        }
    }
}
