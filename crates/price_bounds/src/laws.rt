//! The law of bounds by prices, the contract of a function that does nothing.

ghost use Rattle.price_bounds.specs.Laws.{NoListPasses};

/// No list passes the bound of any windows: for every film, network, setup and media ahead, and all windows in range, the value
/// of a rung list, which is the score of the session that plays it, is at most the bound.
pub fn no_list_passes()
    ensures { NoListPasses }
{}
