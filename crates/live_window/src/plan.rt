//! The best list of a live session.

ghost use Rattle.std.specs.Prelude.{◌≤◌};
ghost use Rattle.lab_model.specs.Fit.{SetupFits};
ghost use Rattle.lab_model.specs.Limits.{all_ahead, most_budget};
ghost use Rattle.player_core.specs.Scene.{task_of};
ghost use Rattle.frontier_planner.specs.Planned.{PlanAnswer};

use crate::scene::live_scene;
use frontier_planner::{Grid, PlanErr, plan_from};
use lab_model::{Budget, Manifest, Setup};
use labels::Plan;
use network_clock::Clock;
use std::alloc::Global;

/// The plan of a live session: the rung list of the greatest value for the live player, with its frontiers. They may have
/// as many labels as the budget, 1 to 1000000: `BudgetSpent` names the first segment at whose end they have more.
pub fn plan_live(
    alloc: Global,
    film: &Manifest,
    clock: &Clock,
    setup: &Setup,
    ahead: u32,
    budget: u32,
) -> Result<Plan, PlanErr>
    requires setup { SetupFits setup.now film.now }
    requires ahead { ahead ≤ all_ahead }
    requires budget { (1 ≤ budget) × (budget ≤ most_budget) }
    ensures { PlanAnswer (task_of film.now clock.now setup.now ahead) budget result }
{
    let scene = live_scene(film, clock, setup, ahead);
    match Budget::new(budget) {
        Some(budget) => Ok(plan_from(alloc, &scene, Grid::exact(), budget)?.plan),
        None => unreachable!(),
    }
}
