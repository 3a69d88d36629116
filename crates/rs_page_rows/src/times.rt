//! Times, as pages have them.

use itoa::Buffer;
use jiff::Timestamp;
use rs_page_parts::texts::put_number;
use std::alloc::{AllocError, Global};

/// Puts so many microseconds, in seconds: `0.002500`.
pub(crate) fn put_seconds(text: &mut Vec<u8>, micros: u64) -> Result<(), AllocError> {
    put_number(text, micros / 1_000_000)?;
    text.extend_from_slice(b".")?;
    // A one stands before the six digits, so that none is left out.
    let mut digits = Buffer::new();
    let padded = digits.format(1_000_000 + micros % 1_000_000).as_bytes();
    match padded.split_first() {
        Some((_, fraction)) => text.extend_from_slice(fraction),
        None => Ok(()),
    }
}

/// Puts the time of day at so many seconds since 1970-01-01T00:00:00Z, as RFC 3339 has it; the seconds
/// where there is no such time.
pub(crate) fn put_time(text: &mut Vec<u8>, alloc: Global, seconds: u64) -> Result<(), AllocError> {
    match i64::try_from(seconds).map(Timestamp::from_second) {
        Ok(Ok(time)) => {
            let written = format!(in alloc; "{time}")?;
            text.extend_from_slice(written.as_bytes())
        }
        _ => put_number(text, seconds),
    }
}
