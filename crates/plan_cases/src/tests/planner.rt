//! Worked examples of plans, with answers from outside.

use crate::tests::inputs::{Case, Inputs, M1, SMALLEST};
use frontier_planner::{BoundedList, Grid, Plan, PlanErr, list_from, plan};
use lab_model::Budget;
use player_core::Scene;
use std::alloc::Global;
use std::process::Abort;
use std::test::Fail;

/// Score, labels and rungs.
type Told = (i128, u32, &'static [u8]);

/// The plan of a case within a budget.
fn plan_of(
    rt: &impl Abort,
    alloc: Global,
    case: &Case,
    budget: u32,
) -> Result<Result<Plan, PlanErr>, Fail> {
    let inputs = Inputs::of(alloc, case)?;
    assert!(rt; inputs.set.fits(&inputs.m));
    assert!(rt; budget >= 1 && budget <= 1_000_000);
    Ok(plan(alloc, &inputs.m, &inputs.clock, &inputs.set, budget))
}

/// The list of a case within a budget, without what certifies it.
fn list_of(
    rt: &impl Abort,
    alloc: Global,
    case: &Case,
    budget: u32,
) -> Result<Result<BoundedList, PlanErr>, Fail> {
    let inputs = Inputs::of(alloc, case)?;
    assert!(rt; inputs.set.fits(&inputs.m));
    let budget = Budget::new(budget).ok_or("not a budget")?;
    let scene = Scene::on_demand(&inputs.m, &inputs.clock, &inputs.set);
    Ok(list_from(alloc, &scene, Grid::exact(), budget))
}

#[test]
fn worked_plans(rt: HostRuntime) -> Result<(), Fail> {
    let alloc = rt.alloc();
    // late-start-wins, steady-plan, budget-edge at 14, smallest-input
    let c500 = Case {
        period: (60_000, 500_000),
        ..M1
    };
    let table: [(Case, u32, Told); 4] = [
        (c500, 200_000, (-194_000, 12, &[1, 0, 0])),
        (M1, 200_000, (29_000, 14, &[1, 1, 1])),
        (M1, 14, (29_000, 14, &[1, 1, 1])),
        (SMALLEST, 1, (-1, 1, &[0])),
    ];
    for (case, budget, told) in &table {
        let plan = plan_of(&rt, alloc, case, *budget)?.map_err(|_| "no plan")?;
        assert_eq!(rt; plan.score, told.0);
        assert_eq!(rt; plan.labels, told.1);
        assert_eq!(rt; plan.rungs.as_slice(), told.2);
        let list = list_of(&rt, alloc, case, *budget)?.map_err(|_| "no list")?;
        assert_eq!(rt;
            (list.score, list.bound, list.labels),
            (told.0, told.0, told.1)
        );
        assert_eq!(rt; list.rungs.as_slice(), told.2);
    }
    Ok(())
}

#[test]
fn budget_edge(rt: HostRuntime) -> Result<(), Fail> {
    let alloc = rt.alloc();
    let answer = plan_of(&rt, alloc, &M1, 13)?.map(|plan| plan.score);
    assert_eq!(rt; answer, Err(PlanErr::BudgetSpent { segment: 2 }));
    Ok(())
}
