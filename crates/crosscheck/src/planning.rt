// Planners and plan checks compared.
use crate::answers::{Refused, checked, planned};
use crate::counts::{Count, Difference, Outcomes, Tally};
use crate::random::Random;
use repair::Planner;
use second::checks::{Finding, check};
use second::maps::{Map, Mark, Plan};
use second::planner::{Outcome, Planned, plan};

// Both planners under a limit.
fn cross_limit(map: &Map, limit: u32, tally: &mut Tally) -> Result<Planned, Refused> {
    let first = planned(Planner::Trials, map, limit)?;
    let second = plan(map, limit);
    let is_same = first.outcome == second.outcome && first.trials == second.trials;
    tally.compare(is_same, Difference::Outcome);
    tally.compare(first.plan == second.plan, Difference::Directions);
    Ok(first)
}

// Both planners again under another limit, and what is to come of it.
fn cross_again(map: &Map, limit: u32, wanted: &Planned, tally: &mut Tally) -> Result<(), Refused> {
    let again = cross_limit(map, limit, tally)?;
    tally.compare(again == *wanted, Difference::Limit);
    tally.add(Count::Limits, 1);
    Ok(())
}

// T is enough for a limit: nothing changes. One trial less is spent, with no direction written.
fn cross_limits(map: &Map, first: &Planned, tally: &mut Tally) -> Result<(), Refused> {
    cross_again(map, first.trials, first, tally)?;
    if let Some(limit) = first.trials.checked_sub(1) {
        let spent = Planned {
            outcome: Outcome::Spent,
            trials: limit,
            plan: Plan::EMPTY,
        };
        cross_again(map, limit, &spent, tally)?;
    }
    Ok(())
}

// Both planners, and again with the limits T and T - 1.
pub fn cross_plan(map: &Map, limit: u32, tally: &mut Tally) -> Result<Planned, Refused> {
    let first = cross_limit(map, limit, tally)?;
    tally.add_outcome(Outcomes::FIRST, first.outcome);
    if map.count(Mark::Dead) != 0 {
        tally.add_outcome(Outcomes::DEAD, first.outcome);
    }
    tally.add(Count::Trials, u64::from(first.trials));
    if !first.is_spent() {
        cross_limits(map, &first, tally)?;
    }
    Ok(first)
}

fn count_of(checked: Result<(), Finding>) -> Count {
    match checked {
        Ok(()) => Count::Accepted,
        Err(Finding::Misplaced(_)) => Count::Misplaced,
        Err(Finding::Blocked(_)) => Count::Blocked,
        Err(Finding::Shared(_, _)) => Count::Shared,
        Err(Finding::Passed(_, _)) => Count::Passed,
    }
}

// Both plan checks.
pub fn cross_check(map: &Map, plan: &Plan, tally: &mut Tally) {
    let second = check(map, plan);
    let told = second.err().map(|finding| finding.told());
    tally.compare(checked(map, plan) == told, Difference::Check);
    tally.add(count_of(second), 1);
}

// A plan with one direction altered.
pub fn cross_altered(random: &mut Random, map: &Map, plan: &Plan, tally: &mut Tally) {
    let altered = random.alter(map, plan);
    cross_check(map, &altered, tally);
}

// A random direction for every inner fault.
pub fn cross_choice(random: &mut Random, map: &Map, tally: &mut Tally) {
    let plan = random.draw_choice(map);
    cross_check(map, &plan, tally);
}
