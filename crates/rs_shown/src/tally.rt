//! How many lines of each kind came, so that none is left out where one is printed for several.

ghost use Rattle.std.specs.Prelude.{◌≡◌, ◌≢◌, ◌+◌, ◌<◌};
ghost use Rattle.rs_shown.specs.Tallies.{kind_of, counted_in};

use rs_live::ports::Line;

/// How many lines of each kind came: `begin`, `busy`, `close`, `lost`, `memory`, `disabled` and all others.
#[derive(Clone, Copy)]
pub struct Tally {
    counts: [u64; 7],
}

/// The kind of a line, by number.
fn kind(line: &Line) -> usize
    ensures { result ≡ kind_of line.now }
{
    match line {
        Line::Begin(_) => 0,
        Line::Busy(_) => 1,
        Line::Close(_) => 2,
        Line::Lost(_) => 3,
        Line::Memory(_) => 4,
        Line::Disabled(_) => 5,
        Line::Stranger | Line::Rules(_) | Line::File(_) => 6,
    }
}

impl Tally {
    /// None came.
    pub fn new() -> Tally
        ensures { (line : Line) → counted_in line result.counts ≡ 0 }
    {
        Tally { counts: [0; 7] }
    }

    /// A line has come.
    pub fn count(&mut self, line: &Line)
        ensures own { counted_in line.now self.old.counts < 18446744073709551615 → counted_in line.now self.new.counts ≡ counted_in line.now self.old.counts + 1 }
        ensures others { (other : Line) → kind_of other ≢ kind_of line.now → counted_in other self.new.counts ≡ counted_in other self.old.counts }
    {
        let kind = kind(line);
        self.counts[kind] = self.counts[kind].saturating_add(1);
    }

    /// How many lines of this one's kind came.
    pub fn counted(&self, line: &Line) -> u64
        ensures { result ≡ counted_in line.now self.now.counts }
    {
        self.counts[kind(line)]
    }
}
