//! Signed numbers.

ghost use Rattle.std.specs.Prelude.{◌≡◌, ◌≤◌, pos, ◌-ℤ◌};

/// A gain less a loss, both at most 10^38.
pub fn difference(gain: u128, loss: u128) -> i128
    requires gain { gain ≤ 100000000000000000000000000000000000000 }
    requires loss { loss ≤ 100000000000000000000000000000000000000 }
    ensures { result ≡ pos gain -ℤ pos loss }
{
    gain as i128 - loss as i128
}
