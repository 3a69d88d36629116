//! The row of a route, in JSON and in HTML.

ghost use Rattle.std.specs.Prelude.{◌≡◌, ◌++◌, OnOk};
ghost use Rattle.rs_pages.specs.Rows.{network_text, row_text, table_row, from_text, more_text};

use rs_attrs::Attrs;
use rs_octets::Prefix;
use rs_page_parts::texts::{put_address, put_number, put_prefix};
use std::alloc::AllocError;

/// Puts what a row begins with: the prefix, and NEXT_HOP.
#[tactic(auto, unfolding(crate::specs::Rows::network_text))]
fn put_network(text: &mut Vec<u8>, prefix: &Prefix, next_hop: u32) -> Result<(), AllocError>
    ensures { OnOk result (text.new.items ≡ text.old.items ++ network_text prefix.now next_hop) }
{
    text.extend_from_slice(b"{\"network\":\"")?;
    put_prefix(text, prefix)?;
    text.extend_from_slice(b"\",\"gateway\":\"")?;
    put_address(text, next_hop)?;
    text.extend_from_slice(b"\",")?;
    Ok(())
}

/// Puts the row of a route: its prefix and NEXT_HOP, what all rows of the page have in common, and the text
/// of its attributes.
#[tactic(auto, unfolding(crate::specs::Rows::row_text))]
pub(crate) fn put_row(
    text: &mut Vec<u8>,
    prefix: &Prefix,
    attrs: &Attrs,
    common: &[u8],
    bgp: &[u8],
) -> Result<(), AllocError>
    ensures { OnOk result (text.new.items ≡ text.old.items ++ row_text common.now bgp.now prefix.now attrs.now) }
{
    put_network(text, prefix, attrs.next_hop().unwrap_or(0))?;
    text.extend_from_slice(common)?;
    text.extend_from_slice(b"\"bgp\":")?;
    text.extend_from_slice(bgp)?;
    text.extend_from_slice(b"}\n")
}

/// Puts the row of a route for people: its prefix and NEXT_HOP, and the other cells.
#[tactic(auto, unfolding(crate::specs::Rows::table_row))]
pub(crate) fn put_table_row(
    text: &mut Vec<u8>,
    prefix: &Prefix,
    attrs: &Attrs,
    cells: &[u8],
) -> Result<(), AllocError>
    ensures { OnOk result (text.new.items ≡ text.old.items ++ table_row cells.now prefix.now attrs.now) }
{
    text.extend_from_slice(b"<tr><td>")?;
    put_prefix(text, prefix)?;
    text.extend_from_slice(b"<td>")?;
    put_address(text, attrs.next_hop().unwrap_or(0))?;
    text.extend_from_slice(cells)?;
    text.extend_from_slice(b"</tr>\n")
}

/// Puts a target of so many routes from a prefix on, within HTML.
#[tactic(auto, unfolding(crate::specs::Rows::from_text))]
fn put_from(text: &mut Vec<u8>, target: &[u8], from: &Prefix, most: u32) -> Result<(), AllocError>
    ensures { OnOk result (text.new.items ≡ text.old.items ++ from_text target.now from.now most) }
{
    text.extend_from_slice(target)?;
    text.extend_from_slice(b"?from=")?;
    put_prefix(text, from)?;
    text.extend_from_slice(b"&amp;count=")?;
    put_number(text, u64::from(most))
}

/// Puts the link to it.
#[tactic(auto, unfolding(crate::specs::Rows::more_text))]
pub(crate) fn put_more(
    text: &mut Vec<u8>,
    target: &[u8],
    from: &Prefix,
    most: u32,
) -> Result<(), AllocError>
    ensures { OnOk result (text.new.items ≡ text.old.items ++ more_text target.now from.now most) }
{
    text.extend_from_slice(b"<p><a href=\"")?;
    put_from(text, target, from, most)?;
    text.extend_from_slice(b"\">More</a></p>\n")?;
    Ok(())
}
