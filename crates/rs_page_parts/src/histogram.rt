//! How long turns take, as the buckets of a histogram.

ghost use Rattle.std.specs.Prelude.{◌≡◌, ◌+◌, ◌<◌, min};

/// The buckets' upper bounds: in microseconds, and in seconds as Prometheus writes them.
pub const BOUNDS: [(u64, &str); 11] = [
    (1_000, "0.001"),
    (2_500, "0.0025"),
    (5_000, "0.005"),
    (10_000, "0.01"),
    (25_000, "0.025"),
    (50_000, "0.05"),
    (100_000, "0.1"),
    (250_000, "0.25"),
    (500_000, "0.5"),
    (1_000_000, "1"),
    (2_500_000, "2.5"),
];

/// How many times came in each bucket, last how many above all bounds; and their sum, in microseconds.
#[derive(Clone, Copy, Debug, PartialEq, Eq)]
pub struct Histogram {
    counts: [u64; 12],
    sum: u64,
}

/// The first bucket whose bound is not below so many microseconds, or the last.
fn bucket(micros: u64) -> usize
    ensures { result < 12 }
{
    for (at, (bound, _)) in BOUNDS.iter().enumerate() {
        if micros <= *bound {
            return at.min(11);
        }
    }
    11
}

impl Histogram {
    /// None has come.
    pub fn new() -> Histogram
        ensures { result.sum ≡ 0 }
    {
        Histogram {
            counts: [0; 12],
            sum: 0,
        }
    }

    /// So many microseconds have come.
    pub fn observe(&mut self, micros: u64)
        ensures { self.new.sum ≡ min (self.old.sum + micros) u64.MAX }
    {
        self.sum = self.sum.saturating_add(micros);
        let bucket = bucket(micros);
        self.counts[bucket] = self.counts[bucket].saturating_add(1);
    }

    /// How many have come in so many buckets, from the first on.
    pub fn within(&self, buckets: usize) -> u64 {
        let mut sum = 0_u64;
        for (at, count) in self.counts.iter().enumerate() {
            if at < buckets {
                sum = sum.saturating_add(*count);
            }
        }
        sum
    }

    /// The sum, in microseconds.
    pub fn sum(&self) -> u64
        ensures { result ≡ self.now.sum }
    {
        self.sum
    }
}
