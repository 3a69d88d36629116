//! What the rules keep from members.

ghost use Rattle.std.specs.Prelude.{◌≡◌, ◌<◌, is_some, length};
ghost use Rattle.rs_policy.specs.Noted.{import_outcome};
ghost use Rattle.rs_policy.specs.Verdicts.{verdict};
ghost use Rattle.rs_pages.specs.Judging.{is_accepted, is_dropped, is_filtered, is_kept_from};

use rs_attrs::Attrs;
use rs_octets::Prefix;
use rs_policy::{Config, Fate, import_note, judge};

/// The note of a route that the import list drops.
const DROPPED: u32 = 0;

/// The import list of one of the clients passes what it announced.
fn is_imported(config: &Config, from: usize, prefix: &Prefix, attrs: &Attrs) -> bool
    requires { from < length config.now.clients }
    ensures { result ≡ is_some (import_outcome config.now from from prefix.now attrs.now) }
{
    import_note(config, from, prefix, attrs) != DROPPED
}

/// The rules drop what one client announced on its way to another.
fn is_dropped(config: &Config, from: usize, to: usize, prefix: &Prefix, attrs: &Attrs) -> bool
    requires from { from < length config.now.clients }
    requires to { to < length config.now.clients }
    ensures { result ≡ is_dropped (verdict config.now from to prefix.now attrs.now) }
{
    match judge(config, from, to, prefix, attrs) {
        Fate::Drop => true,
        Fate::Pass { .. } => false,
    }
}

/// A client's import list passes what it announced.
pub(crate) fn is_accepted(config: &Config, from: usize, prefix: &Prefix, attrs: &Attrs) -> bool
    ensures { result ≡ is_accepted config.now from prefix.now attrs.now }
{
    from < config.clients() && is_imported(config, from, prefix, attrs)
}

/// A client's import list drops what it announced.
pub(crate) fn is_filtered(config: &Config, from: usize, prefix: &Prefix, attrs: &Attrs) -> bool
    ensures { result ≡ is_filtered config.now from prefix.now attrs.now }
{
    from < config.clients() && !is_imported(config, from, prefix, attrs)
}

/// A client's import list passes what it announced, and another's export list drops it.
pub(crate) fn is_kept_from(
    config: &Config,
    from: usize,
    to: usize,
    prefix: &Prefix,
    attrs: &Attrs,
) -> bool
    ensures { result ≡ is_kept_from config.now from to prefix.now attrs.now }
{
    from < config.clients()
        && to < config.clients()
        && from != to
        && is_imported(config, from, prefix, attrs)
        && is_dropped(config, from, to, prefix, attrs)
}
