//! The laws of joint sessions, each the contract of a function that does nothing.

ghost use Rattle.shared_link.specs.Laws.{AloneIsLone, JointSessionsEnd, SessionsAreOwn};

/// A joint session ends before 10^15 ms.
pub fn joint_sessions_end()
    ensures { JointSessionsEnd }
{}

/// What a joint session says of a player is the session of that player alone on its share of the link.
pub fn sessions_are_own()
    ensures { SessionsAreOwn }
{}

/// The joint session of one rule is the session of that rule.
pub fn alone_is_lone()
    ensures { AloneIsLone }
{}
