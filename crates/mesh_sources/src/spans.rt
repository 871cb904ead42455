// Spans of whole numbers, and boxes along the axes.
ghost use Rattle.std.specs.Prelude.{◌≡◌, ◌↔◌, ◌≤ℤ◌, IsTrue};
ghost use Rattle.mesh_sources.specs.Spans.{IsSpanWithin, HaveCommon};

/// The whole numbers from `low` to `high`.
#[derive(Clone, Copy)]
pub struct Span {
    pub low: i64,
    pub high: i64,
}

impl Span {
    /// Whether the greater of the two starts is at most the lesser of the two ends.
    pub fn meets(&self, other: &Span) -> bool
        ensures { IsTrue result ↔ HaveCommon self.now other.now }
    {
        self.low <= other.high && other.low <= self.high
    }

    /// The least span that has both.
    pub fn joined(&self, other: &Span) -> Span
        ensures one { IsSpanWithin self.now result }
        ensures other { IsSpanWithin other.now result }
    {
        Span {
            low: self.low.min(other.low),
            high: self.high.max(other.high),
        }
    }
}

/// The points whose coordinates are in three spans.
#[derive(Clone, Copy)]
pub struct SpaceBox {
    pub x: Span,
    pub y: Span,
    pub z: Span,
}
