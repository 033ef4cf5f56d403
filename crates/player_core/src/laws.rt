//! The laws of sessions, each the contract of a function that does nothing.

ghost use Rattle.player_core.specs.Ends.{SessionsEnd};
ghost use Rattle.player_core.specs.Lists.{RulesAreLists};

/// A session of inputs within the limits, for a film on demand or live, ends before 10^15 ms.
pub fn sessions_end()
    ensures { SessionsEnd }
{}

/// Rules are lists: without abandonment and seeks the session of any rule is that of the rung list which it played.
pub fn rules_are_lists()
    ensures { RulesAreLists }
{}
