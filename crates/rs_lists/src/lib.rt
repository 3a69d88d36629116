//! Lists of ranges of numbers, and whether a range of a list covers a number.
//!
//! A range of numbers, and the lengths that it takes: of IPv4 prefixes by their first address and
//! their length, or of AS numbers, whose length is 0. Ranges may overlap and stand twice.
#![tactic(auto)]

ghost use Rattle.std.specs.Prelude.{◌≡◌, ◌+◌, ◌≤◌, ◌<◌, ◌*◌, ◌-◌, ◌^◌, ℕ, length, IfOk};
ghost use Rattle.std.specs.List.Sorted.{IsNonDecreasing};
ghost use Rattle.rs_lists.specs.Lists.{AreSigns, sign_at, IsIndexed, is_listed, IsRising, IsLinkedTo, IsRelinked, SameListed, place, span, span_at, covers};

use std::alloc::{AllocError, Global};
use std::marker::Model;

/// A sign stands at each of so many spans.
const STRIDE: usize = 16;

/// A range of numbers with the lengths that it takes.
#[derive(Clone, Copy, Debug, PartialEq, Eq)]
pub struct Span {
    low: u32,
    high: u32,
    min: u8,
    max: u8,
    /// What its owner keeps with it; no search reads it.
    tag: u8,
    /// How many spans of a list stand up to the nearest one before this one that reaches it.
    above: u32,
}

impl Span {
    /// The numbers from `low` to `high`, with lengths from `min` to `max`, and what is kept with them.
    pub fn new(low: u32, high: u32, min: u8, max: u8, tag: u8) -> Span
        ensures { result ≡ span low high min max tag }
    {
        Span {
            low,
            high,
            min,
            max,
            tag,
            above: 0,
        }
    }

    pub fn low(&self) -> u32
        ensures { result ≡ self.now.low }
    {
        self.low
    }

    pub fn high(&self) -> u32
        ensures { result ≡ self.now.high }
    {
        self.high
    }

    pub fn min(&self) -> u8
        ensures { result ≡ self.now.min }
    {
        self.min
    }

    pub fn max(&self) -> u8
        ensures { result ≡ self.now.max }
    {
        self.max
    }

    pub fn tag(&self) -> u8
        ensures { result ≡ self.now.tag }
    {
        self.tag
    }
}

/// How many of the signs, which rise, stand at `n` or before.
fn passed(signs: &[u32], n: u32) -> usize
    requires { IsNonDecreasing signs.now }
    ensures bound { result ≤ length signs.now }
    ensures before { (k : ℕ) → k < result → sign_at signs.now k ≤ n }
    ensures after { (k : ℕ) → result ≤ k → k < length signs.now → n < sign_at signs.now k }
{
    signs.partition_point(|sign| *sign <= n)
}

/// How many spans begin at `n` or before, where it is known of all but some: those before them do, and those behind them
/// don't.
fn begun_among(spans: &[Span], before: usize, some: usize, n: u32) -> usize
    requires rising { IsRising spans.now }
    requires some { 0 < some }
    requires within { before + some ≤ length spans.now }
    requires before { (j : ℕ) → j < before → (span_at spans.now j).low ≤ n }
    requires after { (j : ℕ) → before + some ≤ j → j < length spans.now → n < (span_at spans.now j).low }
    ensures bound { result ≤ length spans.now }
    ensures before { (j : ℕ) → j < result → (span_at spans.now j).low ≤ n }
    ensures after { (j : ℕ) → result ≤ j → j < length spans.now → n < (span_at spans.now j).low }
{
    let mut base = before;
    let mut size = some;
    while size > 1 {
        let half = size / 2;
        let middle = base + half;
        base = if spans[middle].low <= n { middle } else { base };
        size -= half;
    }
    base + usize::from(spans[base].low <= n)
}

/// How many spans begin at `n` or before: those up to the last sign that does, and of the spans from there to the next sign.
fn begun(spans: &[Span], signs: &[u32], n: u32) -> usize
    requires rising { IsRising spans.now }
    requires signs { AreSigns signs.now spans.now }
    ensures bound { result ≤ length spans.now }
    ensures before { (j : ℕ) → j < result → (span_at spans.now j).low ≤ n }
    ensures after { (j : ℕ) → result ≤ j → j < length spans.now → n < (span_at spans.now j).low }
{
    let passed = passed(signs, n);
    if passed == 0 {
        return 0;
    }
    let before = (passed - 1) * STRIDE;
    begun_among(spans, before, STRIDE.min(spans.len() - before), n)
}

/// Whether a span covers the number and the length.
fn is_listed(spans: &[Span], signs: &[u32], n: u32, len: u8) -> bool
    requires indexed { IsIndexed spans.now }
    requires signs { AreSigns signs.now spans.now }
    ensures { result ≡ is_listed n len spans.now }
{
    let mut end = begun(spans, signs, n);
    while end > 0 {
        let span = &spans[end - 1];
        if span.low <= n && n <= span.high && span.min <= len && len <= span.max {
            return true;
        }
        end = span.above as usize;
    }
    false
}

/// How many of the spans before `i` are left when those go that end before `low`, from the last.
fn reach(spans: &[Span], i: usize, low: u32) -> usize
    requires within { i ≤ length spans.now }
    requires linked { IsLinkedTo spans.now i }
    requires rising { (j : ℕ) → j < i → (span_at spans.now j).low ≤ low }
    ensures bound { result ≤ i }
    ensures ended { (j : ℕ) → result ≤ j → j < i → (span_at spans.now j).high < low }
{
    let mut end = i;
    while end > 0 {
        let span = &spans[end - 1];
        if span.high >= low {
            return end;
        }
        end = span.above as usize;
    }
    end
}

/// Counts, for each span, those up to the nearest one before it that reaches it.
fn link(spans: &mut [Span])
    requires few { length spans.old ≤ 4294967295 }
    requires rising { IsRising spans.old }
    ensures same { IsRelinked spans.old spans.new }
    ensures indexed { IsIndexed spans.new }
{
    let mut i = 0;
    while i < spans.len() {
        let low = spans[i].low;
        let end = reach(spans, i, low);
        spans[i].above = end as u32;
        i += 1;
    }
}

/// Rising by where a span begins, the widest of those that begin together first.
fn place(span: &Span) -> u64
    ensures { result ≡ place span.now }
{
    u64::from(span.low) * 4294967296 + u64::from(4294967295 - span.high)
}

/// Puts spans in the order in which they are searched.
fn arrange(spans: &mut [Span])
    requires { length spans.old ≤ 4294967295 }
    ensures same { SameListed spans.old spans.new }
    ensures indexed { IsIndexed spans.new }
{
    spans.sort_unstable_by_key(place);
    link(spans);
}

/// The first number of each sixteenth span.
fn signs_for(alloc: Global, spans: &[Span]) -> Result<Vec<u32>, AllocError>
    ensures { IfOk result (λ signs. AreSigns signs.items spans.now) }
{
    let mut signs = Vec::with_capacity(alloc, spans.len() / STRIDE + 1)?;
    let mut place = 0;
    while place < spans.len() {
        signs.push(spans[place].low)?;
        if spans.len() - place <= STRIDE {
            break;
        }
        place += STRIDE;
    }
    Ok(signs)
}

/// Ranges in the order in which they are searched.
#[derive(Debug, Drop)]
pub struct Index {
    spans: Vec<Span>,
    /// The first number of each sixteenth one. They are few, so that a search finds most of its way in them.
    signs: Vec<u32>,
}

impl Model for Index {
    ghost use Rattle.std.specs.Prelude.{List};
    ghost use Rattle.rs_lists.specs.declared.Span.{Span};
    ghost use Rattle.rs_lists.specs.Lists.{AreSigns, IsIndexed};

    ghost Value = { List Span };

    ghost view = { λ i. i.spans.items };

    ghost invariant = { λ i. IsIndexed i.spans.items × AreSigns i.signs.items i.spans.items };
}

impl Index {
    /// The index of some ranges, in whatever order they stand: it covers what they cover.
    pub fn of(alloc: Global, mut spans: Vec<Span>) -> Result<Index, AllocError>
        requires { length spans.items ≤ 4294967295 }
        ensures { IfOk result (λ index. SameListed spans.items index) }
    {
        arrange(&mut spans);
        let signs = signs_for(alloc, &spans)?;
        Ok(Index { spans, signs })
    }

    /// Whether a range covers the number and the length: a search over the ranges, and a step for each
    /// of those that end before the number and are met on the way to one that doesn't.
    pub fn covers(&self, n: u32, len: u8) -> bool
        ensures { result ≡ is_listed n len self.now }
    {
        is_listed(&self.spans, &self.signs, n, len)
    }

    /// The ranges, in the order in which they are searched.
    pub fn spans(&self) -> &[Span]
        ensures { result.now ≡ self.now }
    {
        &self.spans
    }
}
