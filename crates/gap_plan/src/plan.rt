//! The planner on a grid.

ghost use Rattle.std.specs.Prelude.{◌≡◌, ◌≤◌, IfOk};
ghost use Rattle.lab_model.specs.Limits.{all_ahead, most_budget};
ghost use Rattle.lab_model.specs.Fit.{SetupFits};
ghost use Rattle.player_core.specs.Scene.{task_of};
ghost use Rattle.labels.specs.Grid.{exact};
ghost use Rattle.frontier_planner.specs.Planned.{CoarseAnswer, ExactAnswer};
ghost use Rattle.gap_plan.specs.Gap.{CertifiesGap};

use frontier_planner::{CoarsePlan, Grid, PlanErr, plan_from};
use lab_model::{Budget, Manifest, Setup};
use network_clock::Clock;
use player_core::Scene;
use std::alloc::Global;

/// The plan of a film on demand on a grid: the rung list that is read off the coarse frontiers with its true value, and
/// the greatest end value of their labels, which no rung list passes. They may have as many labels as the budget,
/// 1 to 1000000: `BudgetSpent` names the first segment at whose end they have more.
pub fn plan_coarse(
    alloc: Global,
    film: &Manifest,
    clock: &Clock,
    setup: &Setup,
    grid: Grid,
    budget: u32,
) -> Result<CoarsePlan, PlanErr>
    requires setup { SetupFits setup.now film.now }
    requires budget { (1 ≤ budget) × (budget ≤ most_budget) }
    ensures coarse { CoarseAnswer grid (task_of film.now clock.now setup.now all_ahead)
        budget result }
    // Its gap certificate has a text and is valid.
    ensures certificate { IfOk result
        (CertifiesGap (task_of film.now clock.now setup.now all_ahead)) }
    // On the grid 1, 1 the chains are the frontiers, the list is the best one, and the bound is its score.
    ensures exact { ExactAnswer grid (task_of film.now clock.now setup.now all_ahead)
        budget result }
    ensures bound { grid ≡ exact → IfOk result (λ c. c.bound ≡ c.plan.score) }
{
    match Budget::new(budget) {
        Some(budget) => plan_from(alloc, &Scene::on_demand(film, clock, setup), grid, budget),
        None => unreachable!(),
    }
}
