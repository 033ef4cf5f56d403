//! The laws of labels, frontiers and certificates, each the contract of a function that does nothing.

ghost use Rattle.labels.specs.Laws.{CoarseIsAccepted, CoarseIsBound, DominanceIsInherited, EndValuesFollow, ExactIsFrontier, FrontiersGrow, OneValueForTimes, PlanIsAccepted, PlanIsBest, SmallBuffersTellApart, ValidIsSound};

/// Dominance is inherited: the successors of a label that dominates another dominate the other's, and its end
/// value is no less. Nothing is asked of who made the labels.
pub fn dominance_is_inherited()
    ensures successors { DominanceIsInherited }
    ensures end_values { EndValuesFollow }
{}

/// Frontiers grow by steps, also where a program grows them, and have one value for each time and delay.
pub fn frontiers_grow()
    ensures steps { FrontiersGrow }
    ensures grown { ExactIsFrontier }
    ensures one_value { OneValueForTimes }
{}

/// The plan is the best rung list, and the plan of a grid bounds all rung lists.
pub fn plans_are_best()
    ensures exact { PlanIsBest }
    ensures coarse { CoarseIsBound }
{}

/// The certificate of a plan is valid, and so is that of a coarse plan.
pub fn plans_are_accepted()
    ensures exact { PlanIsAccepted }
    ensures coarse { CoarseIsAccepted }
{}

/// A valid certificate is sound, whoever wrote it and whether or not anybody reached its labels.
pub fn valid_is_sound()
    ensures { ValidIsSound }
{}

/// Small buffers make small frontiers: on one frontier each value stands once.
pub fn small_buffers_tell_apart()
    ensures { SmallBuffersTellApart }
{}
