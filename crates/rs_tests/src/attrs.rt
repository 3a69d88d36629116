//! Tests of `rs_attrs`: fields of attributes from outside the program, with what they mean and what is wrong with them.

mod faults;
mod reading;
mod room;
mod routes;
mod stripping;

use crate::common::{ROUTE, attrs as attrs_of, octets, put};
use rs_attrs::{AttributeRef, Attrs, Parsed};
use std::alloc::Global;
use std::process::Abort;

/// The route with these attributes behind its own.
fn route_with(rt: &impl Abort, alloc: Global, more: &[u8]) -> Attrs {
    let mut field = Vec::new(alloc);
    put(rt, &mut field, &ROUTE);
    put(rt, &mut field, more);
    attrs_of(rt, alloc, &field)
}

fn flag(is_set: bool, worth: u8) -> u8 {
    if is_set { worth } else { 0 }
}

/// Puts an attribute of this type, as a four-octet peer spells it.
fn put_attribute(rt: &impl Abort, octets: &mut Vec<u8>, kind: u8, attribute: &AttributeRef<'_>) {
    let flags = flag(attribute.optional, 0x80)
        | flag(attribute.transitive, 0x40)
        | flag(attribute.partial, 0x20);
    let [.., len] = attribute.value.len().to_be_bytes();
    put(rt, octets, &[flags, kind, len]);
    put(rt, octets, attribute.value);
}

/// What is kept, as a four-octet peer spells it.
fn spelt(rt: &impl Abort, alloc: Global, parsed: &Parsed) -> Vec<u8> {
    let mut octets = Vec::new(alloc);
    for kind in 0..=255 {
        if let Some(attribute) = parsed.attrs.get(kind) {
            put_attribute(rt, &mut octets, kind, &attribute);
        }
    }
    octets
}
