//! What windows cost, segment by segment.

ghost use Rattle.std.specs.Prelude.{◌≡◌, ◌≤◌};
ghost use Rattle.price_bounds.specs.Windows.{AreCheap, price_beginning, price_ending, price_of};

use crate::window::Window;

/// The prices of the windows that have a segment.
pub fn price_of(windows: &[Window], segment: u16) -> u64
    requires { AreCheap windows.now }
    ensures value { result ≡ price_of windows.now segment }
    ensures limit { result ≤ 4000000000000000 }
{
    let mut sum = 0u64;
    for w in windows {
        if w.has(segment) {
            sum += w.price;
        }
    }
    sum
}

/// The prices of the windows that end with a segment.
pub fn price_ending(windows: &[Window], segment: u16) -> u64
    requires { AreCheap windows.now }
    ensures value { result ≡ price_ending windows.now segment }
    ensures limit { result ≤ 4000000000000000 }
{
    let mut sum = 0u64;
    for w in windows {
        if w.last == segment {
            sum += w.price;
        }
    }
    sum
}

/// The prices of the windows that begin with a segment.
pub fn price_beginning(windows: &[Window], segment: u16) -> u64
    requires { AreCheap windows.now }
    ensures value { result ≡ price_beginning windows.now segment }
    ensures limit { result ≤ 4000000000000000 }
{
    let mut sum = 0u64;
    for w in windows {
        if w.first == segment {
            sum += w.price;
        }
    }
    sum
}
