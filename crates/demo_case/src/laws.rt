//! The law of made cases, as the contract of a function that does nothing.

ghost use Rattle.demo_case.specs.Laws.{DemoFitsBudget, DemoIsSmall};

/// The frontiers of a made case have at most 77440 labels, so no plan of one spends its budget of 200000.
pub fn demo_fits_budget()
    ensures labels { DemoIsSmall }
    ensures budget { DemoFitsBudget }
{}
