//! The laws of whole runs, each the contract of a function that does nothing.

ghost use Rattle.abrlab_top.specs.Accepts.{NearRunsAreAccepted, RunsAreAccepted};
ghost use Rattle.abrlab_top.specs.Statuses.{RunsAreComplete, RunsLeaveTheShelf, StatusesHaveCauses};

/// Each status has its cause, and each outcome its statuses.
pub fn statuses_have_causes()
    ensures { StatusesHaveCauses }
{}

/// A run asks its shelf for the first of the files that its words name, or for all, each once.
pub fn runs_leave_the_shelf()
    ensures { RunsLeaveTheShelf }
{}

/// Without a fault from outside the status is the one that words and files ask for, but for want of memory.
pub fn runs_are_complete()
    ensures { RunsAreComplete }
{}

/// `check` says yes to what `plan --as-certificate` printed whole, and `check --gap` where that was on a grid, where both read
/// the same film, network and setup with as much media ahead, or it ends with 4, 5 or 9.
pub fn plans_are_accepted()
    ensures { RunsAreAccepted }
{}

/// `check --near` says yes to what `plan --near --as-certificate` printed whole, where both read the same film, network and setup
/// with as much media ahead, or it ends with 4, 5 or 9.
pub fn near_plans_are_accepted()
    ensures { NearRunsAreAccepted }
{}
