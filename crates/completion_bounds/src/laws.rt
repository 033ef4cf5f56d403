//! The laws of completion bounds, each the contract of a function that does nothing.

ghost use Rattle.completion_bounds.specs.Laws.{CompletionsAreBounded, HopelessEndBelow, TableBounds, TightFits, TightLabels, TightValues};

/// Completions are bounded: for every film, network, setup and media ahead and every grid, whatever list goes on from a label ends at no
/// more than its value and its completion bound. So no list through a hopeless label is better than the value under which it is hopeless,
/// and no list at all is better than the table's bound.
pub fn completions_are_bounded()
    ensures labels { CompletionsAreBounded }
    ensures hopeless { HopelessEndBelow }
    ensures lists { TableBounds }
{}

/// The tight setup changes nothing: with a buffer of at most the film each list has the labels and the value that it has with a greater one.
pub fn tight_changes_nothing()
    ensures task { TightFits }
    ensures labels { TightLabels }
    ensures values { TightValues }
{}
