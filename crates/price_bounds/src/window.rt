//! Windows: prices of the network's bits.

ghost use Rattle.std.specs.Prelude.{◌≡◌};
ghost use Rattle.price_bounds.specs.Windows.{has_segment};

/// The greatest price of a window.
pub(crate) const MOST_PRICE: u64 = 1_000_000_000_000;

/// The most windows of a bound.
pub(crate) const MOST_WINDOWS: usize = 4000;

/// A price of the bits that segments in turn take.
#[derive(Clone, Copy, PartialEq, Eq, Debug)]
pub struct Window {
    /// The first segment, 1 or more.
    pub first: u16,
    /// The last segment.
    pub last: u16,
    /// Thousandths of a point for 10^9 thousandths of a bit, 1 to 10^12.
    pub price: u64,
}

impl Window {
    /// Whether the window has a segment.
    pub fn has(&self, segment: u16) -> bool
        ensures { result ≡ has_segment self.now segment }
    {
        self.first <= segment && segment <= self.last
    }
}
