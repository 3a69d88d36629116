//! The route of a table.

use rs_attrs::Attrs;
use rs_octets::Prefix;
use std::sync::Arc;

/// A prefix, and the attributes that it has in a table.
#[derive(Drop)]
pub struct Route {
    pub prefix: Prefix,
    pub attrs: Arc<Attrs>,
}
