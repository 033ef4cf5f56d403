//! The planner.

ghost use Rattle.std.specs.Prelude.{◌≡◌, ◌≤◌, IfOk, length};
ghost use Rattle.lab_model.specs.Limits.{all_ahead, most_budget};
ghost use Rattle.lab_model.specs.Film.{IsWithin, segments_of};
ghost use Rattle.lab_model.specs.Fit.{SetupFits};
ghost use Rattle.labels.specs.Frontier.{frontier};
ghost use Rattle.labels.specs.Grid.{exact};
ghost use Rattle.labels.specs.Grown.{grown};
ghost use Rattle.player_core.specs.Scene.{task_of};
ghost use Rattle.frontier_planner.specs.Linked.{HoldsAll};
ghost use Rattle.frontier_planner.specs.Layers.{HoldAll};
ghost use Rattle.frontier_planner.specs.Planned.{CoarseAnswer, ExactAnswer, IsEnding, ListAnswer, OutlineAnswer, PlanAnswer};

use crate::brief::Brief;
use crate::chains::reached_labels;
use crate::frontiers::{Frontiers, Layer, grown_frontiers, layers_of};
use crate::names::{chains, starts};
use crate::plans::{BoundedList, CoarsePlan, PlanErr};
use crate::read::{best_end, rungs_to};
use lab_model::{Budget, Label, Manifest, Setup};
use label_arena::Arena;
use labels::{Grid, Plan, value_of_list};
use network_clock::Clock;
use player_core::Scene;
use std::alloc::{AllocError, Global};

/// The frontiers, with the list that is read off them.
#[derive(Drop)]
struct Outline {
    /// The list, with its bound.
    pub list: BoundedList,
    /// The frontiers.
    pub arena: Arena,
}

/// What a plan ends in: the label of the last segment with the greatest end value, and the rungs up to it.
#[derive(Drop)]
struct Ending {
    /// The label.
    pub end: Label,
    /// The rungs.
    pub rungs: Vec<u8>,
}

/// What is read off the arena.
fn ending_of(alloc: Global, brief: &Brief, arena: &Arena) -> Result<Ending, AllocError>
    requires { HoldsAll brief.now.grid brief.now.scene arena.now }
    ensures { IfOk result (λ e. IsEnding brief.now.grid brief.now.scene e) }
{
    let last = brief.segments() - 1;
    let end = best_end(brief, &reached_labels(alloc, brief, arena, last)?);
    let rungs = rungs_to(alloc, brief, arena, last, end)?;
    Ok(Ending {
        end: end.label,
        rungs,
    })
}

/// The frontiers of a brief, which may have as many labels as the budget, and the list that is read off them.
fn outline_of(alloc: Global, brief: &Brief, budget: Budget) -> Result<Outline, PlanErr>
    ensures { OutlineAnswer brief.now.grid brief.now.scene budget result }
{
    prove!(brief.segments() > 0);
    let Frontiers { arena, labels } = grown_frontiers(alloc, brief, budget)?;
    let Ending { end, rungs } = ending_of(alloc, brief, &arena)?;
    let score = value_of_list(brief.scene(), &rungs);
    let list = BoundedList {
        rungs,
        score,
        bound: brief.end_value(end),
        labels,
    };
    Ok(Outline { list, arena })
}

/// The list of a brief, whose frontiers may have as many labels as the budget.
fn list_of(alloc: Global, brief: &Brief, budget: Budget) -> Result<BoundedList, PlanErr>
    ensures { ListAnswer brief.now.grid brief.now.scene
        (grown brief.now.grid brief.now.scene) budget result }
{
    Ok(outline_of(alloc, brief, budget)?.list)
}

/// The chains of the arena, which is then let go.
fn layers_within(alloc: Global, brief: &Brief, arena: Arena) -> Result<Vec<Layer>, AllocError>
    requires { HoldsAll brief.now.grid brief.now.scene arena }
    ensures holds { IfOk result (λ v. HoldAll brief.now.grid brief.now.scene v.items) }
    ensures count { IfOk result (λ v. length v.items ≡ segments_of brief.now.scene.film) }
{
    layers_of(alloc, brief, &arena)
}

/// The plan of a brief, whose frontiers may have as many labels as the budget.
fn plan_of(alloc: Global, brief: &Brief, budget: Budget) -> Result<CoarsePlan, PlanErr>
    ensures { CoarseAnswer brief.now.grid brief.now.scene budget result }
{
    prove!(brief.segments() > 0);
    prove!(budget.labels() > 0);
    let Outline { list, arena } = outline_of(alloc, brief, budget)?;
    let layers = layers_within(alloc, brief, arena)?;
    let plan = Plan {
        table: brief.has_table(),
        rungs: list.rungs,
        score: list.score,
        labels: list.labels,
        starts: starts(alloc, brief, &layers)?,
        chains: chains(alloc, brief, &layers)?,
    };
    Ok(CoarsePlan {
        plan,
        bound: list.bound,
    })
}

/// The list on a grid with its score and a bound, as `plan_from` has them, without what certifies it: neither names nor
/// starts are sought, and no chain is copied. `BudgetSpent` names the first segment at whose end the frontiers have more
/// labels than the budget. On the grid 1, 1 the list is the best one, and the bound is its score.
pub fn list_from(
    alloc: Global,
    scene: &Scene<'_>,
    grid: Grid,
    budget: Budget,
) -> Result<BoundedList, PlanErr>
    ensures coarse { ListAnswer grid scene.now (grown grid scene.now) budget result }
    ensures exact { grid ≡ exact → ListAnswer exact scene.now (frontier scene.now) budget result }
    ensures bound { grid ≡ exact → IfOk result (λ b. b.bound ≡ b.score) }
{
    list_of(alloc, &Brief::new(&*scene, grid), budget)
}

/// The plan of a scene on a grid. The frontiers may have as many labels as the budget: `BudgetSpent` names the first
/// segment at whose end they have more.
pub fn plan_from(
    alloc: Global,
    scene: &Scene<'_>,
    grid: Grid,
    budget: Budget,
) -> Result<CoarsePlan, PlanErr>
    ensures coarse { CoarseAnswer grid scene.now budget result }
    ensures exact { ExactAnswer grid scene.now budget result }
    ensures bound { grid ≡ exact → IfOk result (λ c. c.bound ≡ c.plan.score) }
{
    plan_of(alloc, &Brief::new(&*scene, grid), budget)
}

/// The plan of a film on demand: the best rung list, with its frontiers. They may have as many labels as the
/// budget, 1 to 1000000: `BudgetSpent` names the first segment at whose end they have more.
pub fn plan(
    alloc: Global,
    film: &Manifest,
    clock: &Clock,
    setup: &Setup,
    budget: u32,
) -> Result<Plan, PlanErr>
    requires setup { SetupFits setup.now film.now }
    requires budget { IsWithin 1 most_budget budget }
    ensures { PlanAnswer (task_of film.now clock.now setup.now all_ahead) budget result }
{
    let Some(budget) = Budget::new(budget) else {
        unreachable!()
    };
    let scene = Scene::on_demand(film, clock, setup);
    Ok(plan_from(alloc, &scene, Grid::exact(), budget)?.plan)
}
