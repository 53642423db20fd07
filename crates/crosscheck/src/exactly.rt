// The exact planner beside the two others: the answer of the first one where that is not spent, the verdict of the quick
// one where that is not spent, and plans by the second check.
use crate::answers::{Refused, planned};
use crate::counts::{Count, Difference, Outcomes, Tally};
use crate::quick;
use repair::Planner;
use second::maps::Map;
use second::planner::{Outcome, Planned};

// The limit of the other planners, with which few maps are spent.
const LIMIT: u32 = 100000;

// Whether the exact planner decides, and says and writes what the first one does where that is not spent.
fn is_answer(first: &Planned, exact: &Planned) -> bool {
    let is_first = exact.outcome == first.outcome && exact.plan == first.plan;
    exact.outcome != Outcome::Spent && (first.is_spent() || is_first)
}

// The exact planner beside the first one's answer. Its verdict is counted, and whether all others are spent.
fn cross_answer(
    map: &Map,
    first: &Planned,
    is_spent: bool,
    counts: Outcomes,
    tally: &mut Tally,
) -> Result<Planned, Refused> {
    let exact = planned(Planner::Exact, map, LIMIT)?;
    tally.compare(is_answer(first, &exact), Difference::ExactAnswer);
    tally.add_outcome(counts, exact.outcome);
    tally.add(Count::BothSpent, u64::from(is_spent));
    quick::cross_written(map, &exact, Difference::ExactPlan, tally);
    Ok(exact)
}

// All three planners on a map.
pub fn cross_map(map: &Map, tally: &mut Tally) -> Result<(), Refused> {
    let first = planned(Planner::Trials, map, LIMIT)?;
    let quick = planned(Planner::Quick, map, LIMIT)?;
    let is_spent = first.is_spent() && quick.is_spent();
    let exact = cross_answer(map, &first, is_spent, Outcomes::EXACT, tally)?;
    tally.compare(quick::do_agree(&quick, &exact), Difference::ExactVerdict);
    Ok(())
}

// The first and the exact planner on a map where nothing can be settled. The quick one answers there as the first does.
pub fn cross_closed(map: &Map, tally: &mut Tally) -> Result<(), Refused> {
    let first = planned(Planner::Trials, map, LIMIT)?;
    cross_answer(map, &first, first.is_spent(), Outcomes::EXACT_CORES, tally)?;
    Ok(())
}
