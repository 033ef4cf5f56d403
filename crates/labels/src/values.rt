//! The law on which plans and certificates rest.

ghost use Rattle.labels.specs.ValueLaw.{LabelsAreValues};

/// Labels are values: for every film, network, setup and media ahead, the value of a rung list, which is the score of the
/// session that plays it, is the end value of the labels along it.
pub fn labels_are_values()
    ensures { LabelsAreValues }
{}
