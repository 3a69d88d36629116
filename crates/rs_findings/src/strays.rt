//! What stands at the front of a file, before its first table, and so belongs to the last table of the files
//! before it.

use crate::files::Source;
use crate::find::{behind_header, behind_pair, if_there};
use std::alloc::{AllocError, Global};
use toml_parser::text::{first, skip_blank};

/// What follows the header or the pair of a key and a value at the front of a text; None where that can't be read.
fn behind_first<'t>(alloc: Global, s: &'t str) -> Result<Option<&'t str>, AllocError> {
    if first(s) == b'[' {
        if_there(behind_header(alloc, s))
    } else {
        if_there(behind_pair(alloc, s))
    }
}

/// Behind how many octets of the text such pairs of a key and a value stand, one for each file; fewer
/// where the text can't be read on.
pub fn strays_of(alloc: Global, source: &Source<'_>) -> Result<Vec<usize>, AllocError> {
    let mut strays = Vec::new(alloc);
    if source.files.texts.starts.len() < 2 {
        return Ok(strays);
    }
    let text = source.text;
    let mut rest = text.strip_prefix('\u{feff}').unwrap_or(text);
    let mut place = 0;
    let mut is_in_table = false;
    for _ in 0..text.len() {
        let start = skip_blank(rest, true);
        if start.is_empty() {
            break;
        }
        let front = text.len().saturating_sub(start.len());
        let own = source.files.texts.place(front);
        let is_header = first(start) == b'[';
        if own > place && is_in_table && !is_header {
            strays.push(front)?;
        }
        place = own;
        is_in_table = is_in_table || is_header;
        match behind_first(alloc, start)? {
            Some(behind) => rest = behind,
            None => break,
        }
    }
    Ok(strays)
}

/// The line about such a pair, behind so many octets of the text.
pub fn stray_line(alloc: Global, source: &Source<'_>, front: usize) -> Result<String, AllocError> {
    let at = source.files.position(front);
    format!(in alloc; "warning: {at}this belongs to the last table of the file before")
}
