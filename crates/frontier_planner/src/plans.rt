//! What the planner answers.

ghost use Rattle.std.specs.Prelude.{◌≡◌};
ghost use Rattle.frontier_planner.specs.declared.plans.PlanErr.TheVariants.{Memory};

use lab_model::NoMemory;
use labels::Plan;
use std::alloc::{AllocError, AllocFailed};

/// A rung list on a grid, which need not be the best, with a bound for all rung lists.
#[derive(Drop)]
pub struct BoundedList {
    /// The rung of each segment.
    pub rungs: Vec<u8>,
    /// The score of the list, in thousandths of a point.
    pub score: i128,
    /// What no rung list comes to more than, in thousandths of a point.
    pub bound: i128,
    /// The number of labels of the chains that the list is read off, 1 to 1000000.
    pub labels: u32,
}

/// The plan on a grid, which need not be the best.
#[derive(Drop)]
pub struct CoarsePlan {
    /// The plan that is read off the coarse frontiers.
    pub plan: Plan,
    /// What no rung list comes to more than, in thousandths of a point.
    pub bound: i128,
}

/// Why there is no plan.
#[derive(Clone, Copy, PartialEq, Eq, Debug)]
pub enum PlanErr {
    /// The labels of the chains, up to the end of this segment and not before, are more than the budget.
    BudgetSpent {
        /// The segment, counted from 0.
        segment: u16,
    },
    /// Memory was wanting.
    Memory,
}

impl From<AllocError> for PlanErr {
    ghost from_gives = { λ _ e. e ≡ Memory };

    fn from(_refused: AllocError) -> PlanErr {
        PlanErr::Memory
    }
}

impl<T: Drop> From<AllocFailed<T>> for PlanErr {
    ghost from_gives = { λ _ e. e ≡ Memory };

    fn from(_refused: AllocFailed<T>) -> PlanErr {
        PlanErr::Memory
    }
}

impl From<NoMemory> for PlanErr {
    ghost from_gives = { λ _ e. e ≡ Memory };

    fn from(_refused: NoMemory) -> PlanErr {
        PlanErr::Memory
    }
}
