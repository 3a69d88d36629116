//! The ranges of a list that rules name, as they are searched.
//!
//! A list may have hundreds of thousands of ranges. Where they stand in the order of the search, as those that come from
//! a registry do, the index alone has them.

ghost use Rattle.std.specs.Prelude.{◌≡◌, ◌≤◌, ◌<◌, ◌^◌, ◌↔◌, length, ℕ, IfOk, IsNone, IsTrue};
ghost use Rattle.std.specs.List.{list_any};
ghost use Rattle.rs_lists.specs.Lists.{covers};
ghost use Rattle.rs_octets.specs.Prefixes.{Prefix};
ghost use Rattle.rs_policy.specs.Indexed.{AreAsesIndexed, AreIndexed, as_range_by, as_ranges_by, kept, range_by, ranges_by};
ghost use Rattle.rs_policy.specs.Verdicts.{in_as_range, in_range};

use crate::rules::Range;
use rs_lists::{Index, Span};
use rs_octets::Prefix;
use std::alloc::{AllocError, Global};
use std::marker::Model;

/// Ranges of prefixes.
#[derive(Drop)]
pub(crate) struct Prefixes {
    /// As they stand in the text, where the index has them otherwise.
    text: Option<Vec<Range>>,
    index: Index,
}

impl Model for Prefixes {
    ghost use Rattle.std.specs.Prelude.{List};
    ghost use Rattle.rs_policy.specs.declared.rules.Range.{Range};
    ghost use Rattle.rs_policy.specs.Indexed.{AreIndexed, kept, ranges_by};

    ghost Value = { List Range };

    ghost view = { λ p. kept p.text (ranges_by p.index) };

    ghost invariant = { λ p. AreIndexed (kept p.text (ranges_by p.index)) p.index };
}

/// AS numbers, likewise.
#[derive(Drop)]
pub(crate) struct Ases {
    text: Option<Vec<(u32, u32)>>,
    index: Index,
}

impl Model for Ases {
    ghost use Rattle.std.specs.Prelude.{List, ℕ};
    ghost use Rattle.rs_policy.specs.Indexed.{AreAsesIndexed, as_ranges_by, kept};

    ghost Value = { List (ℕ × ℕ) };

    ghost view = { λ a. kept a.text (as_ranges_by a.index) };

    ghost invariant = { λ a. AreAsesIndexed (kept a.text (as_ranges_by a.index)) a.index };
}

/// The least length that a range takes.
fn least(range: &Range) -> u8
    ensures own { range.now.prefix.len ≤ result }
    ensures said { range.now.min ≤ result }
    ensures least { (len : ℕ) → range.now.prefix.len ≤ len → range.now.min ≤ len → result ≤ len }
{
    let len = range.prefix.len();
    if range.min < len { len } else { range.min }
}

/// The numbers of a prefix's addresses, with the lengths of a range.
fn span_of(range: &Range) -> Span
    ensures { (p : Prefix) → covers p.bits p.len result ≡ in_range range.now p }
{
    let low = range.prefix.bits();
    let len = range.prefix.len();
    let size = 1_u64 << (32 - len);
    let last = u64::from(low) + (size - 1);
    Span::new(low, last as u32, least(range), range.max, len)
}

fn as_span(range: (u32, u32)) -> Span
    ensures { (n : ℕ) → covers n 0 result ≡ in_as_range range n }
{
    Span::new(range.0, range.1, 0, 0, 0)
}

/// The spans of some ranges of prefixes.
fn prefix_spans(alloc: Global, ranges: &[Range]) -> Result<Vec<Span>, AllocError>
    ensures indexed { IfOk result (λ v. AreIndexed ranges.now v.items) }
    ensures count { IfOk result (λ v. length v.items ≡ length ranges.now) }
{
    let mut spans = Vec::with_capacity(alloc, ranges.len())?;
    for range in ranges {
        spans.push(span_of(range))?;
    }
    Ok(spans)
}

/// The spans of some ranges of AS numbers.
fn as_spans(alloc: Global, ranges: &[(u32, u32)]) -> Result<Vec<Span>, AllocError>
    ensures indexed { IfOk result (λ v. AreAsesIndexed ranges.now v.items) }
    ensures count { IfOk result (λ v. length v.items ≡ length ranges.now) }
{
    let mut spans = Vec::with_capacity(alloc, ranges.len())?;
    for range in ranges {
        spans.push(as_span(*range))?;
    }
    Ok(spans)
}

/// Whether a span has a range as it stands.
fn has_range(span: &Span, range: &Range) -> bool
    ensures { IsTrue result ↔ (range_by span.now ≡ range.now) }
{
    span.low() == range.prefix.bits()
        && span.tag() == range.prefix.len()
        && span.min() == range.min
        && span.max() == range.max
}

fn has_as_range(span: &Span, range: (u32, u32)) -> bool
    ensures { IsTrue result ↔ (as_range_by span.now ≡ range) }
{
    span.low() == range.0 && span.high() == range.1
}

/// Whether spans have these ranges in this order.
fn have_ranges(spans: &[Span], ranges: &[Range]) -> bool
    ensures { IsTrue result ↔ (ranges_by spans.now ≡ ranges.now) }
{
    if spans.len() != ranges.len() {
        return false;
    }
    for (place, range) in ranges.iter().enumerate() {
        if !has_range(&spans[place], range) {
            return false;
        }
    }
    true
}

fn have_as_ranges(spans: &[Span], ranges: &[(u32, u32)]) -> bool
    ensures { IsTrue result ↔ (as_ranges_by spans.now ≡ ranges.now) }
{
    if spans.len() != ranges.len() {
        return false;
    }
    for (place, range) in ranges.iter().enumerate() {
        if !has_as_range(&spans[place], *range) {
            return false;
        }
    }
    true
}

/// What is kept beside the spans of some ranges: nothing where they have these in their order.
fn beside(spans: &[Span], ranges: Vec<Range>) -> Option<Vec<Range>>
    ensures same { kept result (ranges_by spans.now) ≡ ranges.items }
    ensures once { ranges_by spans.now ≡ ranges.items → IsNone result }
{
    if have_ranges(spans, &ranges) {
        None
    } else {
        Some(ranges)
    }
}

fn ases_beside(spans: &[Span], ranges: Vec<(u32, u32)>) -> Option<Vec<(u32, u32)>>
    ensures same { kept result (as_ranges_by spans.now) ≡ ranges.items }
    ensures once { as_ranges_by spans.now ≡ ranges.items → IsNone result }
{
    if have_as_ranges(spans, &ranges) {
        None
    } else {
        Some(ranges)
    }
}

impl Prefixes {
    pub(crate) fn of(alloc: Global, ranges: Vec<Range>) -> Result<Prefixes, AllocError>
        requires { length ranges.items ≤ 1048576 }
        ensures { IfOk result (λ p. p ≡ ranges.items) }
    {
        let spans = prefix_spans(alloc, &ranges)?;
        let index = Index::of(alloc, spans)?;
        let text = beside(index.spans(), ranges);
        Ok(Prefixes { text, index })
    }

    pub(crate) fn has(&self, prefix: &Prefix) -> bool
        ensures { result ≡ list_any (λ r. in_range r prefix.now) self.now }
    {
        self.index.covers(prefix.bits(), prefix.len())
    }
}

impl Ases {
    pub(crate) fn of(alloc: Global, ranges: Vec<(u32, u32)>) -> Result<Ases, AllocError>
        requires { length ranges.items ≤ 1048576 }
        ensures { IfOk result (λ a. a ≡ ranges.items) }
    {
        let spans = as_spans(alloc, &ranges)?;
        let index = Index::of(alloc, spans)?;
        let text = ases_beside(index.spans(), ranges);
        Ok(Ases { text, index })
    }

    pub(crate) fn has(&self, number: u32) -> bool
        ensures { result ≡ list_any (λ r. in_as_range r number) self.now }
    {
        self.index.covers(number, 0)
    }
}
