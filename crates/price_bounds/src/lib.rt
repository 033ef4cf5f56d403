//! Bounds by prices: the network's bits have prices, segments in turn by windows, and no rung list has a value above the bound
//! that the windows give. (Weak duality.)
#![tactic(auto)]

mod bound;
mod cells;
mod certificate;
mod check;
mod counts;
mod laws;
mod link_part;
mod list_part;
mod numbers;
mod prices;
mod verdict;
mod window;

pub use bound::bound_of_windows;
pub use certificate::PriceCertificate;
pub use check::{are_in_order, check_prices, value_of_list};
pub use laws::no_list_passes;
pub use verdict::PriceVerdict;
pub use window::Window;
